// Laws of the stages, the contract of a function that does nothing.
ghost use Rattle.std.specs.Prelude.{ℕ, IsTrue, List};
ghost use Rattle.dbpl_core.specs.Outcomes.{IsSteady};
ghost use Rattle.dbpl_promise.specs.Opening.{all_bound, named, opened};
ghost use Rattle.dbpl_promise.specs.Running.{ComesToEnd, ended};
ghost use Rattle.dbpl_promise.specs.Runs.{Run};
ghost use Rattle.dbpl_promise.specs.Stages.{IsDecided, IsDetermined};
ghost use Rattle.dbpl_promise.specs.Work.{Work};
ghost use Rattle.dbpl_value.specs.declared.bound.Bound.{Bound};
ghost use Rattle.dbpl_value.specs.declared.field.Field.{Field};

/// Where the world tells, a stage passes with one thing, or it is refused by one answer, and never both.
pub fn each_stage_does_one_thing()
    ensures named { (name : List ℕ) (work : Work) → IsDetermined (named name) work }
    ensures opened { (name : List ℕ) (work : Work) → IsTrue work.tells → IsDetermined (opened name) work }
    ensures bound { (fields : List Field) (database : List Bound) (work : Work) → IsDetermined (all_bound fields database) work }
    ensures ended { (run : Run) (work : Work) → ((input : List ℕ) → IsSteady (run.means input)) → IsTrue work.tells →
        IsDetermined (ended run) work }
{}

/// A stage passes with something, or some answer refuses. That a run goes to its end rests on its meaning.
pub fn each_stage_does_something()
    ensures named { (name : List ℕ) (work : Work) → IsDecided (named name) work }
    ensures opened { (name : List ℕ) (work : Work) → IsDecided (opened name) work }
    ensures bound { (fields : List Field) (database : List Bound) (work : Work) → IsDecided (all_bound fields database) work }
    ensures ended { (run : Run) (work : Work) → ComesToEnd run → IsDecided (ended run) work }
{}
