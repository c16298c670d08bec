//! Runs over a world in memory, with D.r: RELATION pos OF RECORD pos, qty: CARDINAL END.
ghost use Rattle.std.specs.Prelude.{◌≡◌, IfSome, IsSome, IsTrue};
ghost use Rattle.dbpl_value.specs.Databases.{is_bound};
ghost use Rattle.dbpl_world.specs.InMemory.{mounted_in};

use crate::{StopErr, run_stored};
use dbpl_base::{List, Memory, Place, name_of};
use dbpl_core::Trap;
use dbpl_database::read_database;
use dbpl_store::open;
use dbpl_stored_program::{Action, Insertion, StoredProgram, is_small};
use dbpl_value::{Bound, field_of, parts_of};
use dbpl_world::{MemoryWorld, Part, World};
use std::alloc::Global;
use std::test::Fail;

const EMPTY: &[u8] = b"\x01DBPL-STORE-0000\0";

/// D.r with the record (1, 5), as the one record of a log
const KEPT: &[u8] =
    b"\x01DBPL-STORE-0000\x01\x40\0\0\0\x01\0\0\0\x03\0\0\0D.r\x21\0\0\0\x09\x01\0\0\0\x03\0\0\0pos\x08\x02\0\0\0\x03\0\0\0pos\x02\x03\0\0\0qty\x02\x0c\0\0\0\x01\0\0\0\x01\0\0\0\x05\0\0\0\0";

/// D.r: RELATION n OF RECORD n: CHAR END without records, as the one record of a log
const LETTERS: &[u8] =
    b"\x01DBPL-STORE-0000\x01\x2c\0\0\0\x01\0\0\0\x03\0\0\0D.r\x15\0\0\0\x09\x01\0\0\0\x01\0\0\0n\x08\x01\0\0\0\x01\0\0\0n\x04\x04\0\0\0\0\0\0\0\0";

/// D.r without records, as a database
const SUBS: &[u8] =
    b"\x01\0\0\0\x03\0\0\0D.r\x21\0\0\0\x09\x01\0\0\0\x03\0\0\0pos\x08\x02\0\0\0\x03\0\0\0pos\x02\x03\0\0\0qty\x02\x04\0\0\0\0\0\0\0";

type Rows<'a> = &'a [[i64; 2]];

/// A world with one store, which is mounted.
fn world_of(alloc: Global, log: &[u8], fails: &[u64]) -> Option<MemoryWorld>
    ensures mounted { IfSome result (λ world. IsSome (mounted_in world)) }
{
    let mut world = MemoryWorld::make(alloc, b"", fails, 10_000).ok()?;
    world.put_store(alloc, "s", log, b"").ok()?;
    match world.mount(alloc, "s") {
        Ok(()) => Some(world),
        Err(_) => None,
    }
}

/// The log as a read gives it.
fn log_of(alloc: Global, world: &mut MemoryWorld) -> Option<Vec<u8>>
    requires mounted { IsSome (mounted_in world.old) }
    ensures mounted { IsSome (mounted_in world.new) }
{
    let Ok(mut bytes) = vec![in alloc; 0; 200] else {
        return None;
    };
    let count = world.read_at(Part::Log, 0, &mut bytes).ok()?;
    bytes.truncate(count);
    Some(bytes)
}

fn is_log(alloc: Global, world: &mut MemoryWorld, want: &[u8]) -> bool
    requires mounted { IsSome (mounted_in world.old) }
    ensures mounted { IsSome (mounted_in world.new) }
{
    match log_of(alloc, world) {
        Some(log) => log.as_slice() == want,
        None => false,
    }
}

/// The relation variable.
fn variable(alloc: Global) -> Option<Bound>
    ensures { IfSome result (λ bound. IsTrue (is_bound bound)) }
{
    match read_database(alloc, SUBS) {
        Ok(mut database) => database.pop(),
        Err(_) => None,
    }
}

/// The set expression of the insertion in this line, and its operator.
fn set_place(line: u32) -> Place {
    Place {
        unit: 1,
        line,
        col: 6,
    }
}

fn operator(line: u32) -> Place {
    Place {
        unit: 1,
        line,
        col: 3,
    }
}

fn insertion(alloc: Global, line: u32, rows: Rows) -> Result<Insertion, Memory> {
    let mut lists = List::new(alloc);
    for row in rows {
        lists.push(List::from_slice(alloc, row)?)?;
    }
    Ok(Insertion {
        set_place: set_place(line),
        place: operator(line),
        rows: lists,
    })
}

fn insertions(alloc: Global, sets: &[Rows]) -> Result<List<Insertion>, Memory> {
    let mut made = List::new(alloc);
    let mut line: u32 = 0;
    for rows in sets {
        line = line.saturating_add(1);
        made.push(insertion(alloc, line, rows)?)?;
    }
    Ok(made)
}

/// `WriteString('a')`, the transaction, `WriteString('b')`, `WriteLn`
fn body(alloc: Global) -> Result<List<Action>, Memory> {
    let mut actions = List::new(alloc);
    actions.push(Action::WriteString(name_of(alloc, b"a")?))?;
    actions.push(Action::Transact)?;
    actions.push(Action::WriteString(name_of(alloc, b"b\0c")?))?;
    actions.push(Action::WriteLn)?;
    Ok(actions)
}

/// A run of the program with these insertions. Nothing where memory was wanting before, or it isn't of this form.
fn run(alloc: Global, world: &mut MemoryWorld, sets: &[Rows]) -> Option<Result<(), StopErr>>
    requires mounted { IsSome (mounted_in world.old) }
    ensures mounted { IsSome (mounted_in world.new) }
{
    let Bound { name, kind, .. } = variable(alloc)?;
    let program = StoredProgram {
        relation: field_of(name, kind),
        insertions: insertions(alloc, sets).ok()?,
        body: body(alloc).ok()?,
    };
    if is_small(&program) {
        Some(run_stored(alloc, &program, world))
    } else {
        None
    }
}

fn trapped(place: Place) -> Option<Result<(), StopErr>> {
    Some(Err(StopErr::Trapped(Trap { kind: 9, place })))
}

/// How many records the variable has in the mounted store.
fn count(alloc: Global, world: &mut MemoryWorld) -> Option<usize>
    requires mounted { IsSome (mounted_in world.old) }
    ensures mounted { IsSome (mounted_in world.new) }
{
    let Bound { name, kind, .. } = variable(alloc)?;
    let Ok(mut store) = open(alloc, world) else {
        return None;
    };
    match store.bind(alloc, &field_of(name, kind)) {
        Ok(true) => Some(parts_of(store.whole()).len()),
        _ => None,
    }
}

#[test]
fn a_record_is_kept_once(rt: HostRuntime) -> Result<(), Fail> {
    let alloc = rt.alloc();
    let mut world = world_of(alloc, EMPTY, &[]).expect(&rt, "memory");
    assert_eq!(rt; run(alloc, &mut world, &[&[[1, 5]]]), Some(Ok(())));
    let first = world.calls();
    assert!(rt; is_log(alloc, &mut world, KEPT));
    assert!(rt; world.said() == b"ab\n".as_slice());
    // The second run writes nothing: it makes the calls of the first without the four writes and two syncs of a commit.
    let before = world.calls();
    assert_eq!(rt; run(alloc, &mut world, &[&[[1, 5]]]), Some(Ok(())));
    assert_eq!(rt; (first, world.calls().checked_sub(before)), (15, Some(8)));
    assert!(rt; is_log(alloc, &mut world, KEPT));
    assert!(rt; world.said() == b"ab\nab\n".as_slice());
    Ok(())
}

#[test]
fn traps_keep_nothing(rt: HostRuntime) -> Result<(), Fail> {
    let alloc = rt.alloc();
    let mut world = world_of(alloc, EMPTY, &[]).expect(&rt, "memory");
    assert_eq!(rt;
        run(alloc, &mut world, &[&[[1, 5]], &[[2, 5], [2, 6]]]),
        trapped(set_place(2))
    );
    assert!(rt; is_log(alloc, &mut world, EMPTY));
    assert!(rt; world.said() == b"a".as_slice());
    let mut world = world_of(alloc, KEPT, &[]).expect(&rt, "memory");
    assert_eq!(rt;
        run(alloc, &mut world, &[&[[2, 5]], &[[1, 6]]]),
        trapped(operator(2))
    );
    assert!(rt; is_log(alloc, &mut world, KEPT));
    Ok(())
}

#[test]
fn other_stores(rt: HostRuntime) -> Result<(), Fail> {
    let alloc = rt.alloc();
    for (log, want) in [
        (LETTERS, StopErr::SchemaDiffers),
        (b"\x01DBPL-STOR".as_slice(), StopErr::NotStore),
        (b"\x01DBPL-STORE-0000\x01".as_slice(), StopErr::Damaged(0)),
    ] {
        let mut world = world_of(alloc, log, &[]).expect(&rt, "memory");
        assert_eq!(rt; run(alloc, &mut world, &[&[[1, 5]]]), Some(Err(want)));
        assert!(rt; is_log(alloc, &mut world, log));
        assert!(rt; world.said().is_empty());
    }
    Ok(())
}

/// The answer, how many bytes were said, and how many records there are afterwards, where the call with this number
/// fails.
fn after_fault(alloc: Global, call: u64) -> Option<(Result<(), StopErr>, usize, usize)> {
    let mut world = world_of(alloc, EMPTY, &[call])?;
    let answer = run(alloc, &mut world, &[&[[1, 5]]])?;
    let said = world.said().len();
    Some((answer, said, count(alloc, &mut world)?))
}

#[test]
fn each_call_failing(rt: HostRuntime) -> Result<(), Fail> {
    for call in 1..15 {
        let after = after_fault(rt.alloc(), call).expect(&rt, "memory");
        let fits = match after {
            (Err(StopErr::DiskFault), 0, records) => records == 0,
            (Err(StopErr::OutFault), 0, records) => records == 0,
            (Err(StopErr::DiskFault), 1, records) => records <= 1,
            (Err(StopErr::OutFault), said, records) => 1 <= said && said <= 2 && records == 1,
            _ => false,
        };
        assert!(rt; fits);
    }
    // The first sync
    assert_eq!(rt;
        after_fault(rt.alloc(), 1),
        Some((Err(StopErr::DiskFault), 0, 0))
    );
    Ok(())
}
