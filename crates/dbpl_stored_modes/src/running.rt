//! A run of a program over the store of a name.
ghost use Rattle.std.specs.Prelude.{◌≡◌, ℕ, IsTrue, Option};
ghost use Rattle.dbpl_stored_program.specs.Programs.{is_small_program};
ghost use Rattle.dbpl_promise.specs.Promises.{Answered};
ghost use Rattle.dbpl_promise.specs.Running.{running};
ghost use Rattle.dbpl_promise.specs.Work.{work_in};
ghost use Rattle.dbpl_stored_modes.specs.RunCommand.{runs_program};
ghost use Rattle.dbpl_stored_modes.specs.Telling.{TellsOfRun};
ghost use Rattle.dbpl_stored_run.specs.Leaving.{OnlyRunFaults};
ghost use Rattle.dbpl_world.specs.Files.{Files};
ghost use Rattle.dbpl_world.specs.History.{now};

use dbpl_base::Status;
use dbpl_stored_program::StoredProgram;
use dbpl_stored_run::{StopErr, run_stored};
use dbpl_world::{MountErr, World};
use std::alloc::Global;

/// Runs the program over the store of this name, where `-` stands for none. It fetches nothing, so this holds whatever the
/// shelf tells.
pub fn run_over<W: World>(
    alloc: Global,
    store: &str,
    program: &StoredProgram,
    world: &mut W,
) -> Status
    requires small { IsTrue (is_small_program program.now) }
    ensures runs { (files : Option Files) (faults : ℕ) →
        Answered (running (runs_program store.now program.now))
        (work_in W.World files faults faults world.old world.new) result }
    ensures unnoted { IsTrue W.tells → (now (W.history world.new)).noted ≡ (now (W.history world.old)).noted }
    ensures counts { OnlyRunFaults (W.counts world.old) (W.counts world.new) }
{
    if store == "-" {
        return Status::NotStore;
    }
    match world.mount(alloc, store) {
        Ok(()) => {}
        Err(MountErr::Failed) => return Status::DiskFault,
        Err(MountErr::Memory) => return Status::Memory,
    }
    status_of(alloc, program, run_stored(alloc, program, world))
}

/// The answer where a run went so. The name of the relation variable wants memory.
fn status_of(alloc: Global, program: &StoredProgram, ran: Result<(), StopErr>) -> Status
    ensures { TellsOfRun program.now ran result }
{
    match ran {
        Ok(()) => Status::Done,
        Err(StopErr::Trapped(trap)) => Status::Trapped {
            kind: trap.kind,
            place: trap.place,
        },
        Err(StopErr::NotStore) => Status::NotStore,
        Err(StopErr::Damaged(page)) => Status::Damaged(page),
        Err(StopErr::SchemaDiffers) => match program.relation.name.copy(alloc) {
            Ok(name) => Status::SchemaDiffers(name),
            Err(_) => Status::Memory,
        },
        Err(StopErr::DiskFault) => Status::DiskFault,
        Err(StopErr::OutFault) => Status::OutFault,
        Err(StopErr::Memory) => Status::Memory,
    }
}
