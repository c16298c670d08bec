// Laws of the commands, the contracts of functions that do nothing.
ghost use Rattle.std.specs.Prelude.{◌≡◌};
ghost use Rattle.dbpl_base.specs.declared.status.Status.{Status as Answer};
ghost use Rattle.dbpl_promise.specs.Stages.{IsDue};
ghost use Rattle.dbpl_promise.specs.Work.{IsTold, Work};
ghost use Rattle.dbpl_tool.specs.Commands.{promise_of};
ghost use Rattle.dbpl_words.specs.Asked.{Asked};

/// Where files and world are told, one answer is due at most. So an answer comes exactly where it is due, but for faults
/// and want of memory.
pub fn one_answer()
    ensures one { (asked : Asked) (work : Work) (answer other : Answer) → IsTold work →
        IsDue (promise_of asked).due work answer → IsDue (promise_of asked).due work other → answer ≡ other }
{}
