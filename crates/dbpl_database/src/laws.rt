//! Laws of the spelling, as contracts of functions that do nothing.
ghost use Rattle.std.specs.Prelude.{◌≡◌, IsTrue, List, Some};
ghost use Rattle.dbpl_value.specs.Databases.{is_database};
ghost use Rattle.dbpl_database.specs.Reading.{database_of};
ghost use Rattle.dbpl_database.specs.Spelling.{database_bytes, database_fits};
ghost use Rattle.dbpl_value.specs.declared.bound.Bound.{Bound};

/// Each database is read from its spelling, so no two have one.
pub fn one_database()
    ensures { (database : List Bound) → IsTrue (is_database database) → IsTrue (database_fits database) →
        database_of (database_bytes database) ≡ Some database }
{}
