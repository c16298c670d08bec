// A run of one file, without a store.
ghost use Rattle.std.specs.Prelude.{◌≡◌, ◌≤◌, IsTrue};
ghost use Rattle.dbpl_alone.specs.Answers.{IsSilent};
ghost use Rattle.dbpl_alone.specs.Command.{runs_alone};
ghost use Rattle.dbpl_promise.specs.Promises.{Answered};
ghost use Rattle.dbpl_promise.specs.Running.{running};
ghost use Rattle.dbpl_promise.specs.Work.{work_of};
ghost use Rattle.dbpl_world.specs.Counts.{OnlySayFaults};
ghost use Rattle.dbpl_world.specs.History.{now};

use crate::printing::print_program;
use crate::reading::module;
use dbpl_base::Status;
use dbpl_sources::source;
use dbpl_world::{Failed, Shelf, World};
use std::alloc::Global;

/// Runs the module that this file has as its text.
pub fn run_alone<W: World, S: Shelf>(
    alloc: Global,
    file: &str,
    shelf: &mut S,
    world: &mut W,
) -> Status
    ensures runs { Answered (running (runs_alone file.now))
        (work_of S.Shelf W.World shelf.old shelf.new world.old world.new) result }
    ensures quiet { IsSilent result → world.new ≡ world.old }
    ensures unnoted { IsTrue W.tells → (now (W.history world.new)).noted ≡ (now (W.history world.old)).noted }
    ensures same { W.mounted world.new ≡ W.mounted world.old }
    ensures counts { OnlySayFaults (W.counts world.old) (W.counts world.new) }
    ensures files { S.files shelf.new ≡ S.files shelf.old }
    ensures faults { S.shelf_faults shelf.old ≤ S.shelf_faults shelf.new }
{
    let text = match source(alloc, shelf, file) {
        Ok(text) => text,
        Err(status) => return status,
    };
    let program = match module(alloc, text.as_slice()) {
        Ok(program) => program,
        Err(status) => return status,
    };
    match print_program(&program, world) {
        Ok(()) => Status::Done,
        Err(Failed) => Status::OutFault,
    }
}
