//! A text as a whole: its tokens, and the unit that they spell.
ghost use Rattle.std.specs.Prelude.{◌≡◌, ◌≢◌, ◌≤◌, length, IfErr, IfOk};
ghost use Rattle.dbpl_base.specs.declared.limits.TheConstants.{TEXT_BYTES};
ghost use Rattle.dbpl_front.specs.Texts.{IsUnspelt, SpellsText};
ghost use Rattle.dbpl_tree.specs.declared.unit.Unit.{Unit as Tree};

use crate::FrontErr;
use dbpl_parse_unit::parse;
use dbpl_scan::scan;
use dbpl_tree::Unit;
use std::alloc::Global;

/// The unit that the text spells. The number is that of the text among those of a command, from 0 on; the places have it.
pub fn unit_in(alloc: Global, number: u8, text: &[u8]) -> Result<Unit, FrontErr>
    requires { length text.now ≤ TEXT_BYTES }
    ensures found { IfOk result (λ unit. SpellsText number text.now unit) }
    ensures only { IfOk result (λ unit. (other : Tree) → SpellsText number text.now other → other ≡ unit) }
    ensures refused { IfErr result (λ error. IsUnspelt number text.now error) }
    ensures no_unit { IfErr result (λ error. error ≢ FrontErr.Memory → (unit : Tree) → ¬ SpellsText number text.now unit) }
{
    let tokens = scan(alloc, number, text)?;
    Ok(parse(alloc, tokens.as_slice())?)
}
