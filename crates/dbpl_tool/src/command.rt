// The one call that the program makes.
ghost use Rattle.std.specs.Prelude.{◌≡◌, ◌≤◌};
ghost use Rattle.dbpl_core.specs.Outcomes.{TellsOfEnd};
ghost use Rattle.dbpl_promise.specs.Promises.{Answered};
ghost use Rattle.dbpl_promise.specs.Runs.{IsTiedThroughout, IsWholeFromThen, Run, StoodFor};
ghost use Rattle.dbpl_promise.specs.Work.{IsTold, OnlyNotes, work_of};
ghost use Rattle.dbpl_tool.specs.Commands.{IsReported, Runs, promise_of};
ghost use Rattle.dbpl_tool.specs.Notes.{NotesReport, OnlyCommandFaults};
ghost use Rattle.dbpl_words.specs.Asked.{Asked, Asks};
ghost use Rattle.dbpl_world.specs.History.{now};

use crate::working::work;
use dbpl_base::{Name, Status, Steps};
use dbpl_words::note_report;
use dbpl_world::{Shelf, World};
use std::alloc::Global;
use std::sync::ledger::Ledger;

/// Does what the words ask for, and notes the report of the status that it answers with. The words are those behind
/// the program's name. Nothing is said of `steps` yet.
///
/// So far it takes `run - FILE`, where FILE is a module that prints lines, `create STORE`, and `run STORE FILE FILE`, where
/// the files are a database module with one relation variable and a program with one transaction over it.
pub fn dbpl<W: World, S: Shelf, L: Ledger>(
    alloc: Global,
    words: &[Name],
    shelf: &mut S,
    world: &mut W,
    _steps: &mut Steps<L>,
) -> Status
    // THE HEADLINE: whatever a stop at any moment of the run could leave of the store, and the bytes said by then, are those
    // of one prefix of the events that its meaning gives within some number of turns: its prints are the bytes, and its last
    // commit is the database that the store stands for. From the end on of a run that ended or trapped it is the whole list,
    // with its end or its trap, and the input left is the one that the meaning leaves. Without a store the same is said of
    // the bytes alone.
    ensures headline { let work = work_of S.Shelf W.World shelf.old shelf.new world.old world.new in
        IsTold work → (run : Run) → Runs words.now work run → StoodFor run (now work.before) →
        IsTiedThroughout run work }
    ensures whole { let work = work_of S.Shelf W.World shelf.old shelf.new world.old world.new in
        IsTold work → (run : Run) → Runs words.now work run → TellsOfEnd result → IsWholeFromThen run work result }

    // Each command keeps its promise: which answer is due, what may stand at each moment and what stands at the end. Then its
    // report is noted.
    ensures answers { (asked : Asked) → Asks words.now asked →
        IsReported (Answered (promise_of asked))
        (work_of S.Shelf W.World shelf.old shelf.new world.old world.new) result }
    ensures bad_words { ((asked : Asked) → Asks words.now asked → ⊥) → result ≡ Status.BadWords }
    ensures bad_words_only { result ≡ Status.BadWords → (asked : Asked) → Asks words.now asked → ⊥ }

    // What is noted, and what is left as it was.
    ensures noted { NotesReport (work_of S.Shelf W.World shelf.old shelf.new world.old world.new) result }
    ensures unnoted { result ≡ Status.Done → (W.counts world.new).note_faults ≡ (W.counts world.old).note_faults }
    ensures unasked { result ≡ Status.BadWords → shelf.new ≡ shelf.old }
    ensures idle { result ≡ Status.BadWords →
        OnlyNotes (work_of S.Shelf W.World shelf.old shelf.new world.old world.new) }
    ensures counts { OnlyCommandFaults (W.counts world.old) (W.counts world.new) }
    ensures files { S.files shelf.new ≡ S.files shelf.old }
    ensures shelf_faults { S.shelf_faults shelf.old ≤ S.shelf_faults shelf.new }
{
    let status = work(alloc, words, shelf, world);
    let _ = note_report(&status, world);
    status
}
