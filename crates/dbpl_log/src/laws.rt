// Laws of the log, as contracts of functions that do nothing.
ghost use Rattle.std.specs.Prelude.{◌≡◌, Bool, List, [], ℕ, Some};
ghost use Rattle.dbpl_log.specs.Beginning.{MayBegin};
ghost use Rattle.dbpl_log.specs.Fronts.{Holds};
ghost use Rattle.dbpl_log.specs.Records.{records_of};

/// A log has the records that its writer has put there, and no others.
pub fn records_are_held()
    ensures read { (log : List ℕ) (records : List (List ℕ)) →
        Holds log records → records_of log ≡ Some records }
    ensures held { (log : List ℕ) (records : List (List ℕ)) →
        records_of log ≡ Some records → Holds log records }
{}

/// A store may be made where there is nothing.
pub fn nothing_may_begin()
    ensures { (are_none : List (List ℕ) → Bool) → MayBegin are_none [] }
{}
