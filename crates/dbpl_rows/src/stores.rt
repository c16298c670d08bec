//! Questions about databases and logs.
ghost use Rattle.std.specs.Prelude.{◌≡◌, IfOk, IsSome};
ghost use Rattle.dbpl_world.specs.InMemory.{mounted_in};

use crate::answer::{Answer, whether};
use crate::failure::Failure;
use crate::parts::Parts;
use dbpl_database::{read_database, write_database};
use dbpl_log::{create, open};
use dbpl_world::{MemoryWorld, World};
use std::alloc::Global;

/// The most bytes that a log here may have, with its calls.
const ROOM: u64 = 4_000_000;

/// Whether the part is the spelling of a database, which is written as it was read.
pub(crate) fn is_database(alloc: Global, parts: &Parts) -> Result<Answer, Failure> {
    let bytes = parts.get(0)?;
    let database = read_database(alloc, bytes)?;
    let written = write_database(alloc, database.as_slice())?;
    Ok(whether(written.as_slice() == bytes))
}

/// Whether a log has the records that are put into it, one by one, once it is opened again.
pub(crate) fn is_log(alloc: Global, parts: &Parts) -> Result<Answer, Failure> {
    let records = parts.from(0);
    let mut world = world_made(alloc)?;
    for record in records {
        commit(alloc, &mut world, record.as_slice())?;
    }
    let Ok(opened) = open(alloc, &mut world) else {
        return Err(Failure::World);
    };
    Ok(whether(opened.records.as_slice() == records))
}

/// How many records the log has whose bytes are the part.
pub(crate) fn records(alloc: Global, parts: &Parts) -> Result<Answer, Failure> {
    let mut world = world_with(alloc, parts.get(0)?)?;
    match open(alloc, &mut world) {
        Ok(opened) => Ok(Answer::Number(opened.records.len() as u64)),
        Err(_) => Err(Failure::World),
    }
}

/// A world with one store, which has this log and is mounted.
fn world_with(alloc: Global, log: &[u8]) -> Result<MemoryWorld, Failure>
    ensures mounted { IfOk result (λ world. IsSome (mounted_in world)) }
{
    let mut world = MemoryWorld::make(alloc, b"", &[], ROOM)?;
    world.put_store(alloc, "s", log, b"")?;
    match world.mount(alloc, "s") {
        Ok(()) => Ok(world),
        Err(_) => Err(Failure::World),
    }
}

/// A world with a store that has just been made.
fn world_made(alloc: Global) -> Result<MemoryWorld, Failure>
    ensures mounted { IfOk result (λ world. IsSome (mounted_in world)) }
{
    let mut world = world_with(alloc, b"")?;
    match create(&mut world) {
        Ok(()) => Ok(world),
        Err(_) => Err(Failure::World),
    }
}

/// Opens the log and puts a record into it.
fn commit(alloc: Global, world: &mut MemoryWorld, record: &[u8]) -> Result<(), Failure>
    requires mounted { IsSome (mounted_in world.old) }
    ensures mounted { IsSome (mounted_in world.new) }
{
    let Ok(mut opened) = open(alloc, world) else {
        return Err(Failure::World);
    };
    if record.len() > u32::MAX as usize {
        return Err(Failure::Unreadable);
    }
    opened.log.commit(world, record)?;
    Ok(())
}
