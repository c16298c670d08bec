//! Laws of the form. The functions do nothing: their contracts are the laws.
ghost use Rattle.std.specs.Prelude.{◌≡◌, ℕ, IsTrue, List, Some};
ghost use Rattle.dbpl_base.specs.declared.place.Place.{Place};
ghost use Rattle.dbpl_stored_program.specs.Programs.{is_small_program};
ghost use Rattle.dbpl_stored_program.specs.declared.stored_program.StoredProgram.{StoredProgram};
ghost use Rattle.dbpl_stored_form.specs.Programs.{stored_of};
ghost use Rattle.dbpl_stored_form.specs.Texts.{IsRefused, IsStored};
ghost use Rattle.dbpl_tree.specs.declared.unit.Unit.{Unit as Tree};

use dbpl_stored_program::flat_type_is_kept;

/// A program of the form is one that can be run: its relation variable can be kept, and each row has a number of CARDINAL
/// for each field.
pub fn stored_is_small()
    ensures { (database program : Tree) (stored : StoredProgram) → stored_of database program ≡ Some stored → IsTrue (is_small_program stored) }
{
    flat_type_is_kept();
}

/// Two texts have one answer: they are one program, or they are refused at one place by one rule.
pub fn one_answer()
    ensures program { (schema program : List ℕ) (first second : StoredProgram) → IsStored schema program first → IsStored schema program second → first ≡ second }
    ensures either { (schema program : List ℕ) (stored : StoredProgram) (place : Place) (rule : ℕ) → IsStored schema program stored → ¬ IsRefused schema program place rule }
    ensures refusal { (schema program : List ℕ) (place other : Place) (rule another : ℕ) → IsRefused schema program place rule → IsRefused schema program other another → (place ≡ other) × (rule ≡ another) }
{}
