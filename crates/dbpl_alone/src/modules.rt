// The module that a text is, if it is one that can be run so far.
ghost use Rattle.std.specs.Prelude.{◌≡◌, ◌≢◌, ◌≤◌, length, IfErr, IfOk};
ghost use Rattle.dbpl_alone.specs.Modules.{IsModule, IsNoModule, IsUnreadText};
ghost use Rattle.dbpl_alone.specs.declared.program.Program.{Program as Module};
ghost use Rattle.dbpl_base.specs.declared.limits.TheConstants.{TEXT_BYTES};

use crate::Program;
use crate::form::small;
use dbpl_base::{Place, Refusal};
use dbpl_front::{FrontErr, unit_in};
use std::alloc::Global;

/// The rule that refuses a module of a form that isn't built yet.
const UNBUILT: u16 = 109;

/// The module that the text spells, if it is one that can be run so far.
pub fn read(alloc: Global, text: &[u8]) -> Result<Program, FrontErr>
    requires { length text.now ≤ TEXT_BYTES }
    ensures found { IfOk result (λ program. IsModule text.now program) }
    ensures only { IfOk result (λ program. (other : Module) → IsModule text.now other → other ≡ program) }
    ensures refused { IfErr result (λ error. IsUnreadText text.now error) }
    ensures no_module { IfErr result (λ error. error ≢ FrontErr.Memory → IsNoModule text.now) }
{
    let unit = unit_in(alloc, 0, text)?;
    match small(alloc, &unit)? {
        Some(program) => Ok(program),
        None => Err(FrontErr::Refused(Refusal {
            place: Place {
                unit: 0,
                line: 1,
                col: 1,
            },
            rule: UNBUILT,
        })),
    }
}
