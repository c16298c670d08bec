//! The command that makes an empty store.
ghost use Rattle.std.specs.Prelude.{◌≡◌, ℕ, IsTrue, Option};
ghost use Rattle.dbpl_promise.specs.Promises.{Answered};
ghost use Rattle.dbpl_promise.specs.Work.{work_in};
ghost use Rattle.dbpl_stored_modes.specs.CreateCommand.{creates};
ghost use Rattle.dbpl_stored_modes.specs.Creating.{answer_of};
ghost use Rattle.dbpl_world.specs.Counts.{OnlyDiskFaults};
ghost use Rattle.dbpl_world.specs.Files.{Files};
ghost use Rattle.dbpl_world.specs.History.{now};

use dbpl_base::Status;
use dbpl_store::{CreateErr, create};
use dbpl_world::{MountErr, World};
use std::alloc::Global;

/// Makes an empty store of this name.
pub fn create_store<W: World>(alloc: Global, store: &str, world: &mut W) -> Status
    ensures created { (files : Option Files) (faults : ℕ) →
        Answered (creates store.now) (work_in W.World files faults faults world.old world.new) result }
    ensures unnoted { IsTrue W.tells → (now (W.history world.new)).noted ≡ (now (W.history world.old)).noted }
    ensures counts { OnlyDiskFaults (W.counts world.old) (W.counts world.new) }
{
    match world.mount(alloc, store) {
        Ok(()) => {}
        Err(MountErr::Failed) => return Status::DiskFault,
        Err(MountErr::Memory) => return Status::Memory,
    }
    status_of(create(world))
}

/// The answer where making a store went so.
fn status_of(made: Result<(), CreateErr>) -> Status
    ensures { result ≡ answer_of made }
{
    match made {
        Ok(()) => Status::Done,
        Err(CreateErr::Exists) => Status::Exists,
        Err(CreateErr::Foreign) => Status::Foreign,
        Err(CreateErr::Disk) => Status::DiskFault,
    }
}
