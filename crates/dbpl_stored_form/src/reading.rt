//! Two texts as a whole: the units that they spell, and the program that these are.
ghost use Rattle.std.specs.Prelude.{◌≡◌, ◌≢◌, ℕ, ◌≤◌, length, IfErr, IfOk, IsTrue, List, Some};
ghost use Rattle.dbpl_base.specs.declared.limits.TheConstants.{TEXT_BYTES};
ghost use Rattle.dbpl_stored_program.specs.Programs.{is_small_program};
ghost use Rattle.dbpl_stored_program.specs.declared.stored_program.StoredProgram.{StoredProgram as AProgram};
ghost use Rattle.dbpl_front.specs.Texts.{SpellsText};
ghost use Rattle.dbpl_stored_form.specs.Programs.{stored_of};
ghost use Rattle.dbpl_stored_form.specs.Texts.{IsStored, IsUnread};

use crate::form::stored;
use crate::laws::stored_is_small;
use dbpl_base::{Place, Refusal};
use dbpl_front::{FrontErr, unit_in};
use dbpl_stored_program::StoredProgram;
use dbpl_tree::Unit;
use std::alloc::Global;

/// The rule that refuses modules of a form that isn't built yet.
const UNBUILT: u16 = 109;

/// The program that two trees are, if they are of the form.
fn built(alloc: Global, database: &Unit, program: &Unit) -> Result<StoredProgram, FrontErr>
    ensures found { IfOk result (λ stored. stored_of database.now program.now ≡ Some stored) }
    ensures refused { IfErr result (λ error. (schema text : List ℕ) → SpellsText 0 schema database.now → SpellsText 1 text program.now → IsUnread schema text error) }
{
    match stored(alloc, database, program)? {
        Some(stored) => Ok(stored),
        None => Err(FrontErr::Refused(Refusal {
            place: Place {
                unit: 0,
                line: 1,
                col: 1,
            },
            rule: UNBUILT,
        })),
    }
}

/// The program that the tree of a database module and the text of a program module are, if they are of the form.
fn read_program(alloc: Global, database: &Unit, text: &[u8]) -> Result<StoredProgram, FrontErr>
    requires { length text.now ≤ TEXT_BYTES }
    ensures found { IfOk result (λ stored. (schema : List ℕ) → SpellsText 0 schema database.now → IsStored schema text.now stored) }
    ensures refused { IfErr result (λ error. (schema : List ℕ) → SpellsText 0 schema database.now → IsUnread schema text.now error) }
{
    let program = unit_in(alloc, 1, text)?;
    built(alloc, database, &program)
}

/// The program that the texts of a database module and of a program module are, if they are of the form.
pub fn read_stored(alloc: Global, schema: &[u8], program: &[u8]) -> Result<StoredProgram, FrontErr>
    requires schema { length schema.now ≤ TEXT_BYTES }
    requires program { length program.now ≤ TEXT_BYTES }
    ensures found { IfOk result (λ stored. IsStored schema.now program.now stored) }
    ensures only { IfOk result (λ stored. (other : AProgram) → IsStored schema.now program.now other → other ≡ stored) }
    ensures small { IfOk result (λ stored. IsTrue (is_small_program stored)) }
    ensures refused { IfErr result (λ error. IsUnread schema.now program.now error) }
    ensures no_program { IfErr result (λ error. error ≢ FrontErr.Memory → (other : AProgram) → ¬ IsStored schema.now program.now other) }
{
    stored_is_small();
    let database = unit_in(alloc, 0, schema)?;
    read_program(alloc, &database, program)
}
