// Laws of the commands, each the contract of a function that does nothing.
ghost use Rattle.std.specs.Prelude.{ℕ, List, [], ◌∷◌};
ghost use Rattle.dbpl_promise.specs.Running.{running};
ghost use Rattle.dbpl_promise.specs.Stages.{IsDecided, IsDetermined};
ghost use Rattle.dbpl_promise.specs.Work.{IsTold, Work};
ghost use Rattle.dbpl_sources.specs.Fetching.{all_fetched};
ghost use Rattle.dbpl_stored_modes.specs.CreateCommand.{creates};
ghost use Rattle.dbpl_stored_modes.specs.RunCommand.{accepted_texts, runs_over};

/// Where files and world are told, one answer of each command is due at most.
pub fn one_answer_over_stores()
    ensures run { (store schema program : List ℕ) (work : Work) → IsTold work →
        IsDetermined (running (runs_over store schema program)).due work }
    ensures create { (store : List ℕ) (work : Work) → IsTold work → IsDetermined (creates store).due work }
{}

/// Some answer of each command is due: of `create` in any case, and of `run` where the files are told, and what is fetched
/// of them is a program or is refused.
pub fn some_answer_over_stores()
    ensures run { (store schema program : List ℕ) (work : Work) → IsTold work →
        ((texts : List (List ℕ)) → (all_fetched (schema ∷ program ∷ [])).passes work texts →
        IsDecided (accepted_texts texts) work) → IsDecided (running (runs_over store schema program)).due work }
    ensures create { (store : List ℕ) (work : Work) → IsDecided (creates store).due work }
{}
