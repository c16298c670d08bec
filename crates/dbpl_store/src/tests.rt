//! A store over a world in memory, by its bytes as its form says them.
ghost use Rattle.std.specs.Prelude.{◌≡◌, IfSome, IsSome, IsTrue, false};
ghost use Rattle.dbpl_value.specs.Databases.{are_small, is_bound, is_kept};
ghost use Rattle.dbpl_store.specs.Stores.{is_running};
ghost use Rattle.dbpl_value.specs.Values.{is_of};
ghost use Rattle.dbpl_world.specs.InMemory.{mounted_in};

use crate::{CreateErr, Store, StoreErr, create, open};
use dbpl_database::read_database;
use dbpl_value::{Bound, Field, Value, field_of};
use dbpl_world::{Failed, MemoryWorld, Part, World};
use std::alloc::Global;
use std::test::Fail;

const EMPTY: &[u8] = b"\x01DBPL-STORE-0000\0";

/// D.r: RELATION pos OF RECORD pos, qty: CARDINAL END with the record (1, 5), as the one record of a log
const KEPT: &[u8] =
    b"\x01DBPL-STORE-0000\x01\x40\0\0\0\x01\0\0\0\x03\0\0\0D.r\x21\0\0\0\x09\x01\0\0\0\x03\0\0\0pos\x08\x02\0\0\0\x03\0\0\0pos\x02\x03\0\0\0qty\x02\x0c\0\0\0\x01\0\0\0\x01\0\0\0\x05\0\0\0\0";

/// The same, as a database
const SUBS: &[u8] =
    b"\x01\0\0\0\x03\0\0\0D.r\x21\0\0\0\x09\x01\0\0\0\x03\0\0\0pos\x08\x02\0\0\0\x03\0\0\0pos\x02\x03\0\0\0qty\x02\x0c\0\0\0\x01\0\0\0\x01\0\0\0\x05\0\0\0";

/// D.r: RELATION n OF RECORD n: CHAR END, empty, as a database
const LETTERS: &[u8] =
    b"\x01\0\0\0\x03\0\0\0D.r\x15\0\0\0\x09\x01\0\0\0\x01\0\0\0n\x08\x01\0\0\0\x01\0\0\0n\x04\x04\0\0\0\0\0\0\0";

/// A world with one store, which is mounted.
fn world_of(alloc: Global, log: &[u8], fails: &[u64]) -> Option<MemoryWorld>
    ensures mounted { IfSome result (λ world. IsSome (mounted_in world)) }
{
    let mut world = MemoryWorld::make(alloc, b"", fails, 10_000).ok()?;
    world.put_store(alloc, "s", log, b"").ok()?;
    match world.mount(alloc, "s") {
        Ok(()) => Some(world),
        Err(_) => None,
    }
}

/// The log as a read gives it.
fn log_of(alloc: Global, world: &mut MemoryWorld) -> Option<Vec<u8>>
    requires mounted { IsSome (mounted_in world.old) }
    ensures mounted { IsSome (mounted_in world.new) }
{
    let Ok(mut bytes) = vec![in alloc; 0; 200] else {
        return None;
    };
    let count = world.read_at(Part::Log, 0, &mut bytes).ok()?;
    bytes.truncate(count);
    Some(bytes)
}

fn is_log(alloc: Global, world: &mut MemoryWorld, want: &[u8]) -> bool
    requires mounted { IsSome (mounted_in world.old) }
    ensures mounted { IsSome (mounted_in world.new) }
{
    match log_of(alloc, world) {
        Some(log) => log.as_slice() == want,
        None => false,
    }
}

/// The last relation variable of a database.
fn variable(alloc: Global, bytes: &[u8]) -> Option<Bound>
    ensures { IfSome result (λ bound. IsTrue (is_bound bound)) }
{
    match read_database(alloc, bytes) {
        Ok(mut database) => database.pop(),
        Err(_) => None,
    }
}

/// Binds the variable, and puts a relation there in a transaction. Nothing where it isn't bound.
fn keep(
    alloc: Global,
    world: &mut MemoryWorld,
    store: &mut Store,
    field: &Field,
    relation: Value,
) -> Option<Result<(), Failed>>
    requires mounted { IsSome (mounted_in world.old) }
    requires still { is_running store.old ≡ false }
    requires kept { IsTrue (is_kept field.now.name field.now.kind) }
    requires of { IsTrue (is_of field.now.kind relation) }
    requires small { IsTrue (are_small field.now.kind relation) }
    ensures mounted { IsSome (mounted_in world.new) }
{
    let Ok(true) = store.bind(alloc, field) else {
        return None;
    };
    store.begin();
    match store.replace_all(alloc, relation) {
        Ok(()) => Some(store.commit(world)),
        Err(_) => None,
    }
}

/// A run of a program with this variable in a store that was made: how many of making, opening, binding and committing
/// were done.
fn run(alloc: Global, world: &mut MemoryWorld, bytes: &[u8]) -> Option<usize>
    requires mounted { IsSome (mounted_in world.old) }
    ensures mounted { IsSome (mounted_in world.new) }
{
    let bound = variable(alloc, bytes)?;
    let Ok(mut store) = open(alloc, world) else {
        return Some(1);
    };
    let Bound { name, kind, rel } = bound;
    match keep(alloc, world, &mut store, &field_of(name, kind), rel) {
        None => Some(2),
        Some(Err(Failed)) => Some(3),
        Some(Ok(())) => Some(4),
    }
}

#[test]
fn a_relation_is_kept(rt: HostRuntime) -> Result<(), Fail> {
    let alloc = rt.alloc();
    let mut world = world_of(alloc, b"", &[]).expect(&rt, "memory");
    assert_eq!(rt; create(&mut world), Ok(()));
    assert!(rt; is_log(alloc, &mut world, EMPTY));
    assert_eq!(rt; create(&mut world), Err(CreateErr::Exists));
    assert_eq!(rt; run(alloc, &mut world, SUBS), Some(4));
    assert!(rt; is_log(alloc, &mut world, KEPT));
    Ok(())
}

#[test]
fn what_is_kept_is_not_written_again(rt: HostRuntime) -> Result<(), Fail> {
    let alloc = rt.alloc();
    let mut world = world_of(alloc, KEPT, &[]).expect(&rt, "memory");
    assert_eq!(rt; run(alloc, &mut world, SUBS), Some(4));
    assert!(rt; is_log(alloc, &mut world, KEPT));
    // The same name with another type is not bound.
    assert_eq!(rt; run(alloc, &mut world, LETTERS), Some(2));
    assert!(rt; is_log(alloc, &mut world, KEPT));
    Ok(())
}

/// Whether a store holds D.r with its record, or no relation variable.
fn holds(alloc: Global, world: &mut MemoryWorld) -> Result<bool, StoreErr>
    requires mounted { IsSome (mounted_in world.old) }
    ensures mounted { IsSome (mounted_in world.new) }
{
    let store = open(alloc, world)?;
    if store.stored.as_slice() == b"\0\0\0\0".as_slice() {
        Ok(false)
    } else if store.stored.as_slice() == SUBS {
        Ok(true)
    } else {
        Err(StoreErr::Damaged(1))
    }
}

fn holds_in(alloc: Global, log: &[u8]) -> Result<bool, StoreErr> {
    match world_of(alloc, log, &[]) {
        Some(mut world) => holds(alloc, &mut world),
        None => Err(StoreErr::Memory),
    }
}

#[test]
fn other_logs(rt: HostRuntime) -> Result<(), Fail> {
    for (log, want) in [
        (EMPTY, Ok(false)),
        (KEPT, Ok(true)),
        (b"\x01DBPL-STOR", Err(StoreErr::NotStore)),
        // The record of an empty database, and a gate of 7 before the next one.
        (
            b"\x01DBPL-STORE-0000\x01\x04\0\0\0\0\0\0\0\x07\x01\0\0\0a\0",
            Ok(false),
        ),
        // A record that spells no database, alone, behind a good one, and before a good one.
        (
            b"\x01DBPL-STORE-0000\x01\x01\0\0\0a\0",
            Err(StoreErr::Damaged(0)),
        ),
        (
            b"\x01DBPL-STORE-0000\x01\x04\0\0\0\0\0\0\0\x01\x01\0\0\0a\0",
            Err(StoreErr::Damaged(0)),
        ),
        (
            b"\x01DBPL-STORE-0000\x01\x01\0\0\0a\x01\x04\0\0\0\0\0\0\0\0",
            Err(StoreErr::Damaged(0)),
        ),
        // A record that doesn't fit.
        (
            b"\x01DBPL-STORE-0000\x01\x05\0\0\0\0\0\0\0\0",
            Err(StoreErr::Damaged(0)),
        ),
    ] {
        assert_eq!(rt; holds_in(rt.alloc(), log), want);
    }
    Ok(())
}

/// How many of making, opening, binding and committing were done, and what the store holds afterwards, where the call
/// with this number fails.
fn after_fault(alloc: Global, call: u64) -> Option<(usize, Result<bool, StoreErr>)> {
    let mut world = world_of(alloc, b"", &[call])?;
    let done = match create(&mut world) {
        Ok(()) => run(alloc, &mut world, SUBS)?,
        Err(_) => 0,
    };
    Some((done, holds(alloc, &mut world)))
}

#[test]
fn each_call_failing(rt: HostRuntime) -> Result<(), Fail> {
    for call in 1..32 {
        let after = after_fault(rt.alloc(), call).expect(&rt, "memory");
        let fits = match after {
            (0, Err(StoreErr::NotStore)) => true,
            (4, Err(StoreErr::Disk)) => true,
            (done, Ok(false)) => done == 0 || done == 1 || done == 3,
            (done, Ok(true)) => done == 3 || done == 4,
            _ => false,
        };
        assert!(rt; fits);
        // A call that fails ends the step that makes it: no step passes over it, or makes it again.
        let steps = if call < 13 {
            0
        } else if call < 18 {
            1
        } else if call < 24 {
            3
        } else {
            4
        };
        assert_eq!(rt; after.0, steps);
    }
    Ok(())
}
