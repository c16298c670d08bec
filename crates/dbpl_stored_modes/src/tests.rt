//! The two commands over a world and a shelf in memory, with D.r: RELATION pos OF RECORD pos, qty: CARDINAL END.
use crate::{create_store, run_files};
use dbpl_base::{Place, Status, name_of};
use dbpl_world::{MemoryShelf, MemoryWorld, Part, World};
use std::alloc::Global;
use std::test::Fail;

const EMPTY: &[u8] = b"\x01DBPL-STORE-0000\0";

/// D.r with the record (1, 5), as the one record of a log
const KEPT: &[u8] =
    b"\x01DBPL-STORE-0000\x01\x40\0\0\0\x01\0\0\0\x03\0\0\0D.r\x21\0\0\0\x09\x01\0\0\0\x03\0\0\0pos\x08\x02\0\0\0\x03\0\0\0pos\x02\x03\0\0\0qty\x02\x0c\0\0\0\x01\0\0\0\x01\0\0\0\x05\0\0\0\0";

const SCHEMA: &[u8] = b"DATABASE MODULE D;
TYPE Sub = RECORD pos, qty: CARDINAL END; Subs = RELATION pos OF Sub;
VAR r: Subs;
END D.
";

/// The same with another name for a field
const OTHER_SCHEMA: &[u8] = b"DATABASE MODULE D;
TYPE Sub = RECORD pos, sum: CARDINAL END; Subs = RELATION pos OF Sub;
VAR r: Subs;
END D.
";

const PROGRAM: &[u8] = b"MODULE M;
FROM D IMPORT Sub, Subs, r;
FROM InOut IMPORT WriteString, WriteLn;
TRANSACTION T;
BEGIN
  r :+ Subs{Sub{1, 5}}
END T;
BEGIN
  WriteString('a'); T; WriteString('b'); WriteLn
END M.
";

/// The same with two records of one key
const TWICE: &[u8] = b"MODULE M;
FROM D IMPORT Sub, Subs, r;
FROM InOut IMPORT WriteString, WriteLn;
TRANSACTION T;
BEGIN
  r :+ Subs{Sub{1, 5}, Sub{1, 6}}
END T;
BEGIN
  WriteString('a'); T; WriteString('b'); WriteLn
END M.
";

/// A world with this log of this store.
fn world_of(alloc: Global, name: &str, log: &[u8]) -> Result<MemoryWorld, Fail> {
    let mut world = MemoryWorld::make(alloc, b"", &[], 10_000)?;
    world.put_store(alloc, name, log, b"")?;
    Ok(world)
}

/// The first bytes of the log of the store, as a read gives them.
fn log_of(alloc: Global, world: &mut MemoryWorld, name: &str) -> Option<Vec<u8>> {
    let Ok(()) = world.mount(alloc, name) else {
        return None;
    };
    let Ok(mut bytes) = vec![in alloc; 0; 200] else {
        return None;
    };
    let count = world.read_at(Part::Log, 0, &mut bytes).ok()?;
    bytes.truncate(count);
    Some(bytes)
}

fn is_log(alloc: Global, world: &mut MemoryWorld, name: &str, want: &[u8]) -> bool {
    match log_of(alloc, world, name) {
        Some(log) => log.as_slice() == want,
        None => false,
    }
}

/// A run of the two texts, as the only files that there are, over the store.
fn run(
    alloc: Global,
    world: &mut MemoryWorld,
    store: &str,
    schema: &[u8],
    program: &[u8],
) -> Result<Status, Fail> {
    let files = [
        (
            Vec::from_slice(alloc, b"d.mod")?,
            Vec::from_slice(alloc, schema)?,
        ),
        (
            Vec::from_slice(alloc, b"m.mod")?,
            Vec::from_slice(alloc, program)?,
        ),
    ];
    let mut shelf = MemoryShelf::make(alloc, &files, &[])?;
    Ok(run_files(alloc, store, "d.mod", "m.mod", &mut shelf, world))
}

#[test]
fn a_store_is_made_once(rt: HostRuntime) -> Result<(), Fail> {
    let alloc = rt.alloc();
    let mut world = MemoryWorld::make(alloc, b"", &[], 10_000)?;
    assert_eq!(rt; create_store(alloc, "s", &mut world), Status::Done);
    assert!(rt; is_log(alloc, &mut world, "s", EMPTY));
    assert_eq!(rt; create_store(alloc, "s", &mut world), Status::Exists);
    assert!(rt; is_log(alloc, &mut world, "s", EMPTY));
    assert_eq!(rt; create_store(alloc, "other", &mut world), Status::Done);
    assert!(rt; is_log(alloc, &mut world, "other", EMPTY));
    assert!(rt; world.said().is_empty());
    Ok(())
}

#[test]
fn what_is_there_stays(rt: HostRuntime) -> Result<(), Fail> {
    let alloc = rt.alloc();
    let mut world = world_of(alloc, "s", &[7; 4097])?;
    assert_eq!(rt; create_store(alloc, "s", &mut world), Status::Foreign);
    assert!(rt; is_log(alloc, &mut world, "s", &[7; 200]));
    let mut world = world_of(alloc, "s", KEPT)?;
    assert_eq!(rt; create_store(alloc, "s", &mut world), Status::Exists);
    assert!(rt; is_log(alloc, &mut world, "s", KEPT));
    Ok(())
}

#[test]
fn a_record_is_kept_once(rt: HostRuntime) -> Result<(), Fail> {
    let alloc = rt.alloc();
    let mut world = world_of(alloc, "s", EMPTY)?;
    assert_eq!(rt; run(alloc, &mut world, "s", SCHEMA, PROGRAM)?, Status::Done);
    assert!(rt; is_log(alloc, &mut world, "s", KEPT));
    assert_eq!(rt; run(alloc, &mut world, "s", SCHEMA, PROGRAM)?, Status::Done);
    assert!(rt; is_log(alloc, &mut world, "s", KEPT));
    assert!(rt; world.said() == b"ab\nab\n".as_slice());
    Ok(())
}

#[test]
fn a_trap_keeps_nothing(rt: HostRuntime) -> Result<(), Fail> {
    let alloc = rt.alloc();
    let mut world = world_of(alloc, "s", EMPTY)?;
    let place = Place {
        unit: 1,
        line: 6,
        col: 8,
    };
    assert_eq!(rt;
        run(alloc, &mut world, "s", SCHEMA, TWICE)?,
        Status::Trapped { kind: 9, place }
    );
    assert!(rt; is_log(alloc, &mut world, "s", EMPTY));
    assert!(rt; world.said() == b"a".as_slice());
    Ok(())
}

#[test]
fn names_without_a_store(rt: HostRuntime) -> Result<(), Fail> {
    let alloc = rt.alloc();
    let mut world = world_of(alloc, "-", EMPTY)?;
    assert_eq!(rt;
        run(alloc, &mut world, "s", SCHEMA, PROGRAM)?,
        Status::NotStore
    );
    assert_eq!(rt;
        run(alloc, &mut world, "-", SCHEMA, PROGRAM)?,
        Status::NotStore
    );
    assert!(rt; is_log(alloc, &mut world, "-", EMPTY));
    assert!(rt; world.said().is_empty());
    Ok(())
}

#[test]
fn other_stores(rt: HostRuntime) -> Result<(), Fail> {
    let alloc = rt.alloc();
    let mut world = world_of(alloc, "s", KEPT)?;
    assert_eq!(rt;
        run(alloc, &mut world, "s", OTHER_SCHEMA, PROGRAM)?,
        Status::SchemaDiffers(name_of(alloc, b"D.r")?)
    );
    assert!(rt; is_log(alloc, &mut world, "s", KEPT));
    let mut world = world_of(alloc, "s", b"\x01DBPL-STORE-0000\x01")?;
    assert_eq!(rt;
        run(alloc, &mut world, "s", SCHEMA, PROGRAM)?,
        Status::Damaged(0)
    );
    assert!(rt; world.said().is_empty());
    Ok(())
}

/// The answer of a run over a shelf that has the first file alone, where the names of both are these.
fn run_named(alloc: Global, schema: &str, program: &str) -> Result<Status, Fail> {
    let file = (
        Vec::from_slice(alloc, b"d.mod")?,
        Vec::from_slice(alloc, SCHEMA)?,
    );
    let mut shelf = MemoryShelf::make(alloc, &[file], &[])?;
    let mut world = world_of(alloc, "s", EMPTY)?;
    Ok(run_files(alloc, "s", schema, program, &mut shelf, &mut world))
}

#[test]
fn files_that_are_no_program(rt: HostRuntime) -> Result<(), Fail> {
    let alloc = rt.alloc();
    assert_eq!(rt;
        run_named(alloc, "none.mod", "m.mod")?,
        Status::Absent(name_of(alloc, b"none.mod")?)
    );
    assert_eq!(rt;
        run_named(alloc, "d.mod", "m.mod")?,
        Status::Absent(name_of(alloc, b"m.mod")?)
    );
    // The schema stands where the program should.
    let place = Place {
        unit: 0,
        line: 1,
        col: 1,
    };
    assert_eq!(rt;
        run_named(alloc, "d.mod", "d.mod")?,
        Status::Refused { place, rule: 109 }
    );
    Ok(())
}

/// What is answered to making a store and to a run over it, where the call with this number fails, and how many there were.
fn after_fault(alloc: Global, call: u64) -> Result<(Status, Status, u64), Fail> {
    let mut world = MemoryWorld::make(alloc, b"", &[call], 10_000)?;
    let made = create_store(alloc, "s", &mut world);
    let ran = run(alloc, &mut world, "s", SCHEMA, PROGRAM)?;
    Ok((made, ran, world.calls()))
}

#[test]
fn each_call_failing(rt: HostRuntime) -> Result<(), Fail> {
    let alloc = rt.alloc();
    let (made, ran, calls) = after_fault(alloc, 1000)?;
    assert_eq!(rt; made, Status::Done);
    assert_eq!(rt; ran, Status::Done);
    for call in 0..calls {
        let fits = match after_fault(alloc, call)? {
            (Status::DiskFault, Status::NotStore | Status::Done, _) => true,
            (Status::Done, Status::DiskFault | Status::OutFault, _) => true,
            _ => false,
        };
        assert!(rt; fits);
    }
    Ok(())
}
