// The work of a command, from its words to its answer. Nothing is noted here.
ghost use Rattle.std.specs.Prelude.{◌≡◌, ◌≤◌, IsTrue};
ghost use Rattle.dbpl_promise.specs.Promises.{Answered};
ghost use Rattle.dbpl_promise.specs.Work.{work_of};
ghost use Rattle.dbpl_stored_run.specs.Leaving.{OnlyRunFaults};
ghost use Rattle.dbpl_tool.specs.Commands.{promise_of};
ghost use Rattle.dbpl_words.specs.Asked.{Asked, Asks};
ghost use Rattle.dbpl_world.specs.History.{now};

use dbpl_alone::run_alone;
use dbpl_base::{Name, Status};
use dbpl_stored_modes::{create_store, run_files};
use dbpl_words::{Request, one_request, request};
use dbpl_world::{Shelf, World};
use std::alloc::Global;

/// Does what the words ask for.
pub(crate) fn work<W: World, S: Shelf>(
    alloc: Global,
    words: &[Name],
    shelf: &mut S,
    world: &mut W,
) -> Status
    ensures answers { (asked : Asked) → Asks words.now asked →
        Answered (promise_of asked) (work_of S.Shelf W.World shelf.old shelf.new world.old world.new) result }
    ensures bad_words { ((asked : Asked) → Asks words.now asked → ⊥) → result ≡ Status.BadWords }
    ensures bad_words_only { result ≡ Status.BadWords → (asked : Asked) → Asks words.now asked → ⊥ }
    ensures idle { result ≡ Status.BadWords → (world.new ≡ world.old) × (shelf.new ≡ shelf.old) }
    ensures unnoted { IsTrue W.tells → (now (W.history world.new)).noted ≡ (now (W.history world.old)).noted }
    ensures counts { OnlyRunFaults (W.counts world.old) (W.counts world.new) }
    ensures files { S.files shelf.new ≡ S.files shelf.old }
    ensures faults { S.shelf_faults shelf.old ≤ S.shelf_faults shelf.new }
{
    one_request();
    match request(words) {
        Some(Request::RunAlone(file)) => run_alone(alloc, file, shelf, world),
        Some(Request::Create(store)) => create_store(alloc, store, world),
        Some(
            Request::Run {
                store,
                data,
                program,
            },
        ) => run_files(alloc, store, data, program, shelf, world),
        None => Status::BadWords,
    }
}
