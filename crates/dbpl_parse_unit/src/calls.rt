//! What other crates call: the unit of a whole text, or a refusal by its place.
ghost use Rattle.std.specs.Prelude.{◌≡◌, ◌≢◌, IfErr, IfOk};
ghost use Rattle.dbpl_grammar.specs.Laws.{HasEnd, IsText};
ghost use Rattle.dbpl_grammar.specs.Units.{depth_limit, whole_unit};
ghost use Rattle.dbpl_parse_unit.specs.Whole.{TextRefusedAt, Whole};
ghost use Rattle.dbpl_tree.specs.declared.unit.Unit.{Unit as Module};

use crate::texts::whole_unit;
use dbpl_base::Token;
use dbpl_grammar::{one_tree, reads_units};
use dbpl_parse_expr::{ParseErr, answered};
use dbpl_tree::Unit;
use std::alloc::Global;

/// The unit that these tokens spell, the last of which is the end of the text.
pub fn parse(alloc: Global, tokens: &[Token]) -> Result<Unit, ParseErr>
    ensures reads { Whole result (whole_unit depth_limit tokens.now) }
    ensures found { IfOk result (λ unit. IsText tokens.now unit) }
    ensures only { IfOk result (λ unit. (other : Module) → IsText tokens.now other → other ≡ unit) }
    ensures refused { IfErr result (λ error. error ≢ ParseErr.Memory → (unit : Module) → IsText tokens.now unit → ⊥) }
    ensures placed { IfErr result (λ error. error ≢ ParseErr.Memory → HasEnd tokens.now → TextRefusedAt tokens.now error) }
{
    reads_units();
    one_tree();
    answered(tokens, whole_unit(alloc, tokens))
}
