// Laws of the meaning and of the command, each the contract of a function that does nothing.
ghost use Rattle.std.specs.Prelude.{◌≡◌, ℕ, List};
ghost use Rattle.dbpl_alone.specs.Command.{runs_alone};
ghost use Rattle.dbpl_alone.specs.Meaning.{module_meaning};
ghost use Rattle.dbpl_alone.specs.declared.program.Program.{Program};
ghost use Rattle.dbpl_core.specs.Events.{last};
ghost use Rattle.dbpl_core.specs.Outcomes.{IsSteady};
ghost use Rattle.dbpl_promise.specs.Running.{running};
ghost use Rattle.dbpl_promise.specs.Stages.{IsDetermined};
ghost use Rattle.dbpl_promise.specs.Work.{IsTold, Work};
ghost use Rattle.dbpl_value.specs.declared.bound.Bound.{Bound};

/// More turns only add events, and a module that has ended stays as it is. It commits nothing.
pub fn module_meaning_is_steady()
    ensures steady { (program : Program) (input : List ℕ) → IsSteady (module_meaning program input) }
    ensures commits { (program : Program) (input : List ℕ) (turns : ℕ) (database : List Bound) →
        last (module_meaning program input turns).events database ≡ database }
{}

/// Where files and world are told, one answer of this command is due at most.
pub fn one_answer_alone()
    ensures one { (file : List ℕ) (work : Work) → IsTold work → IsDetermined (running (runs_alone file)).due work }
{}
