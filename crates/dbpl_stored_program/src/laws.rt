// Laws of the meaning and of databases, each the contract of a function that does nothing.
ghost use Rattle.std.specs.Prelude.{◌≡◌, ◌≤◌, ◌+◌, ◌∷◌, ◌++◌, ℕ, List, length, slice_get, Some, IsTrue};
ghost use Rattle.std.specs.List.{list_any};
ghost use Rattle.dbpl_base.specs.declared.limits.TheConstants.{RELATION_NAME_BYTES, SCALARS};
ghost use Rattle.dbpl_core.specs.Outcomes.{IsPrefixOf, IsSteady};
ghost use Rattle.dbpl_stored_program.specs.Meaning.{Going, meaning, with_named};
ghost use Rattle.dbpl_stored_program.specs.Programs.{flat_type, is_flat};
ghost use Rattle.dbpl_stored_program.specs.Whole.{comes_to, events_of, leaving, turns_of, whole_run};
ghost use Rattle.dbpl_stored_program.specs.declared.stored_program.StoredProgram.{StoredProgram};
ghost use Rattle.dbpl_value.specs.Binding.{Binds, bound_named, with_relation};
ghost use Rattle.dbpl_value.specs.Databases.{is_kept, names_rise};
ghost use Rattle.dbpl_value.specs.Types.{are_names, is_identifier, is_same_name};
ghost use Rattle.dbpl_value.specs.declared.bound.Bound.{Bound};
ghost use Rattle.dbpl_value.specs.declared.field.Field.{Field};
ghost use Rattle.dbpl_value.specs.declared.value.Value.{Value};

/// More turns only add events, and a program that has ended or trapped stays as it is.
pub fn meaning_is_steady()
    ensures { (program : StoredProgram) (database : List Bound) (input : List ℕ) →
        IsSteady (meaning program database input) }
{}

/// A program comes to its end: within a number of turns that its text tells it has made its whole list of events.
pub fn meaning_is_whole()
    ensures ends { (program : StoredProgram) (database : List Bound) (input : List ℕ) →
        (whole_run program database input).stands ≡ Going → ⊥ }
    ensures enough { (program : StoredProgram) (database : List Bound) (input : List ℕ) (others : ℕ) →
        meaning program database input (turns_of program + others) ≡ whole_run program database input }
    ensures front { (program : StoredProgram) (database : List Bound) (input : List ℕ) (turns : ℕ) →
        IsPrefixOf (meaning program database input turns).events (events_of program database input) }
{}

/// What a program does, statement by statement, over a database to which its variable is bound. The input is any, and
/// all of it is left, since no statement reads.
pub fn meaning_by_statements()
    ensures { (program : StoredProgram) (before database : List Bound) (input : List ℕ) →
        Binds program.relation before database →
        whole_run program database input ≡ leaving input (comes_to program program.body database) }
{}

/// A variable found by its name is the one at its place: it has the name alone, since names rise.
pub fn variable_has_one_place()
    ensures found { (database : List Bound) (at : ℕ) (bound : Bound) → IsTrue (names_rise database) →
        slice_get database at ≡ Some bound → bound_named bound.name database ≡ Some bound }
    ensures put { (database : List Bound) (at : ℕ) (bound : Bound) (relation : Value) →
        IsTrue (names_rise database) → slice_get database at ≡ Some bound →
        with_relation relation at database ≡ with_named bound.name relation database }
    ensures there { (field : Field) (before database : List Bound) → Binds field before database →
        (bound : Bound) × (bound_named field.name database ≡ Some bound) × (bound.kind ≡ field.kind) }
{}

/// A relation with one key over a record of CARDINAL fields can be kept, where the rules on names and sizes are kept.
pub fn flat_type_is_kept()
    ensures kept { (owner variable key : List ℕ) (names : List (List ℕ)) →
        IsTrue (is_identifier owner) → IsTrue (is_identifier variable) →
        length owner + 1 + length variable ≤ RELATION_NAME_BYTES →
        IsTrue (are_names names) → length names ≤ SCALARS → IsTrue (list_any (is_same_name key) names) →
        IsTrue (is_kept (owner ++ 46 ∷ variable) (flat_type key names)) }
    ensures flat { (key : List ℕ) (names : List (List ℕ)) → IsTrue (is_flat (flat_type key names)) }
{}
