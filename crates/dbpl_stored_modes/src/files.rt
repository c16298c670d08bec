//! The command that runs two files over a store.
ghost use Rattle.std.specs.Prelude.{◌≡◌, ◌⊎◌, ◌≤◌, length, Err, IfErr, IfOk, IsTrue};
ghost use Rattle.dbpl_stored_program.specs.Programs.{is_small_program};
ghost use Rattle.dbpl_stored_form.specs.Texts.{IsStored};
ghost use Rattle.dbpl_stored_modes.specs.Reading.{AreRefused};
ghost use Rattle.dbpl_promise.specs.Promises.{Answered};
ghost use Rattle.dbpl_promise.specs.Running.{running};
ghost use Rattle.dbpl_promise.specs.Stages.{Stops};
ghost use Rattle.dbpl_promise.specs.Work.{IsOver, Work, work_of};
ghost use Rattle.dbpl_stored_modes.specs.RunCommand.{reads_program, runs_over};
ghost use Rattle.dbpl_stored_run.specs.Leaving.{OnlyRunFaults};
ghost use Rattle.dbpl_world.specs.History.{now};

use crate::running::run_over;
use dbpl_base::Status;
use dbpl_base::limits::SOURCE_BYTES;
use dbpl_front::FrontErr;
use dbpl_sources::sources;
use dbpl_stored_form::read_stored;
use dbpl_stored_program::StoredProgram;
use dbpl_world::{Shelf, World};
use std::alloc::Global;

/// Runs the program of a database module's file and a program's over the store of this name, where `-` stands for none.
pub fn run_files<W: World, S: Shelf>(
    alloc: Global,
    store: &str,
    schema: &str,
    program: &str,
    shelf: &mut S,
    world: &mut W,
) -> Status
    ensures runs { Answered (running (runs_over store.now schema.now program.now))
        (work_of S.Shelf W.World shelf.old shelf.new world.old world.new) result }
    ensures unnoted { IsTrue W.tells → (now (W.history world.new)).noted ≡ (now (W.history world.old)).noted }
    ensures counts { OnlyRunFaults (W.counts world.old) (W.counts world.new) }
    ensures files { S.files shelf.new ≡ S.files shelf.old }
    ensures faults { S.shelf_faults shelf.old ≤ S.shelf_faults shelf.new }
{
    match program_in(alloc, schema, program, shelf) {
        Ok(stored) => run_over(alloc, store, &stored, world),
        Err(status) => status,
    }
}

/// The program of the two files.
fn program_in<S: Shelf>(
    alloc: Global,
    schema: &str,
    program: &str,
    shelf: &mut S,
) -> Result<StoredProgram, Status>
    ensures found { (work : Work) → IsOver S.Shelf shelf.old shelf.new work →
        IfOk result (λ stored. (reads_program schema.now program.now).passes work stored) }
    ensures small { IfOk result (λ stored. IsTrue (is_small_program stored)) }
    ensures err { (work : Work) → IsOver S.Shelf shelf.old shelf.new work →
        IfErr result (Stops (reads_program schema.now program.now) work) }
    ensures files { S.files shelf.new ≡ S.files shelf.old }
    ensures fine { (result ≡ Err Status.SourceFault) ⊎ (S.shelf_faults shelf.new ≡ S.shelf_faults shelf.old) }
    ensures faults { S.shelf_faults shelf.old ≤ S.shelf_faults shelf.new }
{
    let texts = sources(alloc, shelf, &[schema, program])?;
    program_of(alloc, texts[0].as_slice(), texts[1].as_slice())
}

/// The program that the two texts are.
fn program_of(alloc: Global, schema: &[u8], program: &[u8]) -> Result<StoredProgram, Status>
    requires schema { length schema.now ≤ SOURCE_BYTES }
    requires program { length program.now ≤ SOURCE_BYTES }
    ensures found { IfOk result (λ stored. IsStored schema.now program.now stored) }
    ensures small { IfOk result (λ stored. IsTrue (is_small_program stored)) }
    ensures err { IfErr result (λ status. AreRefused schema.now program.now status) }
{
    match read_stored(alloc, schema, program) {
        Ok(stored) => Ok(stored),
        Err(FrontErr::Refused(refusal)) => Err(Status::Refused {
            place: refusal.place,
            rule: refusal.rule,
        }),
        Err(FrontErr::Memory) => Err(Status::Memory),
    }
}
