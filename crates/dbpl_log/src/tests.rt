// A store in one log over a world in memory, by its bytes as its form says them.
ghost use Rattle.std.specs.Prelude.{◌<◌, length, IsSome, IfSome};
ghost use Rattle.dbpl_world.specs.InMemory.{mounted_in};

use super::*;
use dbpl_world::{Failed, MemoryWorld, Part, World};
use std::alloc::Global;
use std::test::Fail;

const EMPTY: &[u8] = b"\x01DBPL-STORE-0000\0";

/// A world with one store, which is mounted.
fn world_of(alloc: Global, log: &[u8], pages: &[u8], fails: &[u64]) -> Option<MemoryWorld>
    ensures mounted { IfSome result (λ world. IsSome (mounted_in world)) }
{
    let mut world = MemoryWorld::make(alloc, b"", fails, 100_000).ok()?;
    world.put_store(alloc, "s", log, pages).ok()?;
    match world.mount(alloc, "s") {
        Ok(()) => Some(world),
        Err(_) => None,
    }
}

/// How long the log is, and its first bytes.
fn first_bytes<const N: usize>(world: &mut MemoryWorld) -> Result<(u64, [u8; N]), Failed>
    requires mounted { IsSome (mounted_in world.old) }
    ensures mounted { IsSome (mounted_in world.new) }
{
    let size = world.size(Part::Log)?;
    let mut bytes = [9; N];
    world.read_at(Part::Log, 0, &mut bytes)?;
    Ok((size, bytes))
}

/// How many records an opening gives, where the calls with these numbers fail.
fn count_in(alloc: Global, log: &[u8], fails: &[u64]) -> Result<usize, OpenErr> {
    let Some(mut world) = world_of(alloc, log, b"", fails) else {
        return Err(OpenErr::Memory);
    };
    let opened = open(alloc, &mut world)?;
    Ok(opened.records.len())
}

#[test]
fn a_new_store(rt: HostRuntime) -> Result<(), Fail> {
    let alloc = rt.alloc();
    let mut world = world_of(alloc, b"", b"", &[]).expect(&rt, "memory");
    assert_eq!(rt; create(&mut world), Ok(()));
    let want = *b"\x01DBPL-STORE-0000\x00\x09";
    assert_eq!(rt; first_bytes(&mut world), Ok((17, want)));
    assert_eq!(rt; create(&mut world), Err(CreateErr::Exists));
    Ok(())
}

#[test]
fn a_record(rt: HostRuntime) -> Result<(), Fail> {
    let alloc = rt.alloc();
    let mut world = world_of(alloc, EMPTY, b"", &[]).expect(&rt, "memory");
    let mut opened = open(alloc, &mut world).expect(&rt, "a store");
    assert_eq!(rt; opened.records.len(), 0);
    assert_eq!(rt; opened.log.commit(&mut world, &[7; 64]), Ok(()));
    assert_eq!(rt; opened.log.length(), 86);
    let want = *b"\x01DBPL-STORE-0000\x01\x40\x00\x00\x00\x07";
    assert_eq!(rt; first_bytes(&mut world), Ok((86, want)));
    let mut last = [9; 3];
    assert_eq!(rt;
        (world.read_at(Part::Log, 84, &mut last), last),
        (Ok(2), [7, 0, 9])
    );
    Ok(())
}

#[test]
fn a_record_again(rt: HostRuntime) -> Result<(), Fail> {
    let alloc = rt.alloc();
    let log = b"\x01DBPL-STORE-0000\x01\x02\x00\x00\x00ab\x01\x00\x00\x00\x00\x00";
    let mut world = world_of(alloc, log, b"", &[]).expect(&rt, "memory");
    let opened = open(alloc, &mut world).expect(&rt, "a store");
    assert_eq!(rt; opened.log.length(), 29);
    assert_eq!(rt; opened.records.len(), 2);
    assert_eq!(rt; opened.records[0].as_slice(), b"ab".as_slice());
    Ok(())
}

#[test]
fn other_logs(rt: HostRuntime) -> Result<(), Fail> {
    for (log, want) in [
        // Ten bytes, a shut head, and another text.
        (b"\x01DBPL-STOR".as_slice(), Err(OpenErr::NotStore)),
        (b"\x00DBPL-STORE-0000\0", Err(OpenErr::NotStore)),
        (b"\x01DBPL-STORE-0001\0", Err(OpenErr::NotStore)),
        // A gate of 7 hides the record.
        (b"\x01DBPL-STORE-0000\x07\x01\x00\x00\x00a\x00", Ok(0)),
        // The record doesn't fit, and no gate stands behind it or behind the head.
        (
            b"\x01DBPL-STORE-0000\x01\x03\x00\x00\x00a\x00",
            Err(OpenErr::Damaged),
        ),
        (
            b"\x01DBPL-STORE-0000\x01\x01\x00\x00\x00a",
            Err(OpenErr::Damaged),
        ),
        (b"\x01DBPL-STORE-0000", Err(OpenErr::Damaged)),
    ] {
        assert_eq!(rt; count_in(rt.alloc(), log, &[]), want);
    }
    // Both syncs come before a refusal, and one that failed isn't made again.
    for sync in 1..3 {
        assert_eq!(rt;
            count_in(rt.alloc(), b"\x01DBPL-STOR", &[sync]),
            Err(OpenErr::Disk)
        );
    }
    Ok(())
}

#[test]
fn long_parts(rt: HostRuntime) -> Result<(), Fail> {
    let alloc = rt.alloc();
    for (log, pages, want) in [
        (0, 5_000, Err(CreateErr::Foreign)),
        (4_097, 0, Err(CreateErr::Foreign)),
        (4_096, 4_096, Ok(())),
    ] {
        let log = vec![in alloc; 7; log]?;
        let pages = vec![in alloc; 7; pages]?;
        let mut world = world_of(alloc, &log, &pages, &[]).expect(&rt, "memory");
        assert_eq!(rt; create(&mut world), want);
    }
    Ok(())
}

/// Makes a store, opens it and adds a record, up to a failure. How many of the three were done.
fn steps_done(alloc: Global, world: &mut MemoryWorld) -> usize
    requires mounted { IsSome (mounted_in world.old) }
    ensures mounted { IsSome (mounted_in world.new) }
{
    if create(world).is_err() {
        return 0;
    }
    let Ok(mut opened) = open(alloc, world) else {
        return 1;
    };
    match opened.log.commit(world, b"a") {
        Ok(()) => 3,
        Err(Failed) => 2,
    }
}

/// How many records the store has after that, where the call with this number fails.
fn after_fault(alloc: Global, call: u64) -> Option<(usize, Result<usize, OpenErr>)> {
    let mut world = world_of(alloc, b"", b"", &[call])?;
    let done = steps_done(alloc, &mut world);
    match open(alloc, &mut world) {
        Ok(opened) => Some((done, Ok(opened.records.len()))),
        Err(e) => Some((done, Err(e))),
    }
}

#[test]
fn each_call_failing(rt: HostRuntime) -> Result<(), Fail> {
    for call in 1..32 {
        let after = after_fault(rt.alloc(), call).expect(&rt, "memory");
        let fits = match after {
            (0, Err(OpenErr::NotStore)) => true,
            (3, Err(OpenErr::Disk)) => true,
            (done, Ok(0)) => done < 3,
            (done, Ok(1)) => done > 1,
            _ => false,
        };
        assert!(rt; fits);
        // A call that fails ends the step that makes it: no step passes over it, or makes it again.
        let steps = if call < 13 {
            0
        } else if call < 18 {
            1
        } else if call < 24 {
            2
        } else {
            3
        };
        assert_eq!(rt; after.0, steps);
    }
    Ok(())
}
