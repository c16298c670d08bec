// Commands over a store in memory of which calls fail. That each fault which is counted is the answer is proved: none is
// passed over, or answered as want of memory. Rows alone say that what the first file is refused for doesn't yield to a fault
// at the second, since a shelf counts its faults and doesn't tell them apart.
use crate::store_tests::log_of;
use crate::tests::{command_over, shelf_of};
use dbpl_base::limits::SOURCE_BYTES;
use dbpl_world::{MemoryShelf, MemoryWorld};
use std::alloc::Global;
use std::test::Fail;

/// A command over the store `s`, a database module `d.mod` and a program `p.mod`, and how it ends.
struct Row {
    words: &'static [&'static [u8]],
    log: &'static [u8],
    /// How many bytes the pages have.
    pages: usize,
    /// The calls of the world that fail, and the fetches.
    fails: &'static [u64],
    fetches_fail: &'static [u64],
    code: u8,
    noted: &'static [u8],
}

const CREATE: &[&[u8]] = &[b"create", b"s"];

const RUN: &[&[u8]] = &[b"run", b"s", b"d.mod", b"p.mod"];

const SCHEMA: &[u8] = b"DATABASE MODULE D;
TYPE Sub = RECORD pos, number: CARDINAL END;
  Subs = RELATION pos OF Sub;
VAR r: Subs;
END D.
";

const PROGRAM: &[u8] = b"MODULE P;
FROM D IMPORT Sub, Subs, r;
FROM InOut IMPORT WriteString, WriteLn;
TRANSACTION add;
BEGIN
  r :+ Subs{Sub{1, 5}}
END add;
BEGIN
  WriteString('a'); add; WriteLn
END P.
";

/// Two records of one key in one set
const CLASH: &[u8] = b"MODULE P;
FROM D IMPORT Sub, Subs, r;
FROM InOut IMPORT WriteString, WriteLn;
TRANSACTION add;
BEGIN
  r :+ Subs{Sub{1, 5}, Sub{1, 6}}
END add;
BEGIN
  WriteString('b'); add; WriteLn
END P.
";

/// What the program says
const LINE: &[u8] = b"a\n";

/// The head of a store, and its first gate
const EMPTY: &[u8] = b"\x01DBPL-STORE-0000\0";

/// D.r with another field, as the one record of a log
const OTHER: &[u8] =
    b"\x01DBPL-STORE-0000\x01\x40\0\0\0\x01\0\0\0\x03\0\0\0D.r\x21\0\0\0\x09\x01\0\0\0\x03\0\0\0pos\x08\x02\0\0\0\x03\0\0\0pos\x02\x03\0\0\0qty\x02\x0c\0\0\0\x01\0\0\0\x01\0\0\0\x05\0\0\0\0";

/// The log that the program leaves
const AFTER: &[u8] =
    b"\x01DBPL-STORE-0000\x01\x43\0\0\0\x01\0\0\0\x03\0\0\0D.r\x24\0\0\0\x09\x01\0\0\0\x03\0\0\0pos\x08\x02\0\0\0\x03\0\0\0pos\x02\x06\0\0\0number\x02\x0c\0\0\0\x01\0\0\0\x01\0\0\0\x05\0\0\0\0";

/// A record of one byte, which spells no database
const DAMAGED: &[u8] = b"\x01DBPL-STORE-0000\x01\x01\0\0\0\xff\0";

/// Ten bytes, too few for a head
const TEN: &[u8] = b"\x01DBPL-STOR";

const DISK_FAULT: &[u8] = b"disk fault\n";

const ROWS: &[Row] = &[
    // The first file that can't be read is answered, whatever comes of the second.
    Row {
        words: &[b"run", b"s", b"none.mod", b"p.mod"],
        log: EMPTY,
        pages: 0,
        fails: &[],
        fetches_fail: &[1],
        code: 5,
        noted: b"no file none.mod\n",
    },
    Row {
        words: &[b"run", b"s", b"d.mod", b"none.mod"],
        log: EMPTY,
        pages: 0,
        fails: &[],
        fetches_fail: &[0],
        code: 6,
        noted: b"cannot read a source file\n",
    },
    Row {
        words: RUN,
        log: EMPTY,
        pages: 0,
        fails: &[],
        fetches_fail: &[1],
        code: 6,
        noted: b"cannot read a source file\n",
    },
    // A mount that fails, and each of the two syncs that open a store or begin one.
    Row {
        words: RUN,
        log: EMPTY,
        pages: 0,
        fails: &[0],
        fetches_fail: &[],
        code: 10,
        noted: DISK_FAULT,
    },
    Row {
        words: RUN,
        log: EMPTY,
        pages: 0,
        fails: &[1],
        fetches_fail: &[],
        code: 10,
        noted: DISK_FAULT,
    },
    Row {
        words: RUN,
        log: EMPTY,
        pages: 0,
        fails: &[2],
        fetches_fail: &[],
        code: 10,
        noted: DISK_FAULT,
    },
    Row {
        words: CREATE,
        log: b"",
        pages: 0,
        fails: &[0],
        fetches_fail: &[],
        code: 10,
        noted: DISK_FAULT,
    },
    Row {
        words: CREATE,
        log: b"",
        pages: 0,
        fails: &[1],
        fetches_fail: &[],
        code: 10,
        noted: DISK_FAULT,
    },
    Row {
        words: CREATE,
        log: EMPTY,
        pages: 0,
        fails: &[2],
        fetches_fail: &[],
        code: 10,
        noted: DISK_FAULT,
    },
    // A sync that fails comes before what the store is.
    Row {
        words: RUN,
        log: TEN,
        pages: 0,
        fails: &[1],
        fetches_fail: &[],
        code: 10,
        noted: DISK_FAULT,
    },
    Row {
        words: RUN,
        log: TEN,
        pages: 0,
        fails: &[],
        fetches_fail: &[],
        code: 7,
        noted: b"not a store\n",
    },
    Row {
        words: RUN,
        log: OTHER,
        pages: 0,
        fails: &[2],
        fetches_fail: &[],
        code: 10,
        noted: DISK_FAULT,
    },
    Row {
        words: RUN,
        log: OTHER,
        pages: 0,
        fails: &[],
        fetches_fail: &[],
        code: 9,
        noted: b"D.r has another type in the store\n",
    },
    // A record that spells no database, and files of something else.
    Row {
        words: RUN,
        log: DAMAGED,
        pages: 0,
        fails: &[],
        fetches_fail: &[],
        code: 8,
        noted: b"store damaged at page 0\n",
    },
    Row {
        words: CREATE,
        log: TEN,
        pages: 5_000,
        fails: &[],
        fetches_fail: &[],
        code: 15,
        noted: b"files hold something else\n",
    },
    Row {
        words: RUN,
        log: TEN,
        pages: 5_000,
        fails: &[],
        fetches_fail: &[],
        code: 7,
        noted: b"not a store\n",
    },
    // A report that can't be noted changes no status.
    Row {
        words: &[b"create"],
        log: EMPTY,
        pages: 0,
        fails: &[0],
        fetches_fail: &[],
        code: 2,
        noted: b"",
    },
    Row {
        words: &[b"run", b"-", b"d.mod", b"p.mod"],
        log: EMPTY,
        pages: 0,
        fails: &[0],
        fetches_fail: &[],
        code: 7,
        noted: b"",
    },
    Row {
        words: RUN,
        log: EMPTY,
        pages: 0,
        fails: &[0, 1],
        fetches_fail: &[],
        code: 10,
        noted: b"",
    },
];

/// A world with this store `s`, of which these calls fail.
fn world_of(alloc: Global, log: &[u8], pages: usize, fails: &[u64]) -> Result<MemoryWorld, Fail> {
    let zeros = vec![in alloc; 0; pages]?;
    let mut world = MemoryWorld::make(alloc, b"", fails, 40_000)?;
    world.put_store(alloc, "s", log, zeros.as_slice())?;
    Ok(world)
}

/// A shelf with both files, of which these fetches fail.
fn shelf(alloc: Global, fetches_fail: &[u64]) -> Result<MemoryShelf, Fail> {
    shelf_of(
        alloc,
        &[(b"d.mod", SCHEMA), (b"p.mod", PROGRAM)],
        fetches_fail,
    )
}

#[test]
fn commands_with_faults(rt: HostRuntime) -> Result<(), Fail> {
    let alloc = rt.alloc();
    for row in ROWS {
        let mut shelf = shelf(alloc, row.fetches_fail)?;
        let mut world = world_of(alloc, row.log, row.pages, row.fails)?;
        let status = command_over(alloc, row.words, &mut shelf, &mut world)?;
        assert_eq!(rt; status.code(), row.code);
        assert_eq!(rt; world.noted(), row.noted);
        assert!(rt; world.said().is_empty());
    }
    Ok(())
}

/// A file past the limit is answered before the next one is fetched.
#[test]
fn a_long_file_and_a_fault(rt: HostRuntime) -> Result<(), Fail> {
    let alloc = rt.alloc();
    let long = vec![in alloc; b' '; SOURCE_BYTES as usize + 1]?;
    let files: &[(&[u8], &[u8])] = &[(b"d.mod", long.as_slice()), (b"p.mod", PROGRAM)];
    let mut shelf = shelf_of(alloc, files, &[1])?;
    let mut world = world_of(alloc, EMPTY, 0, &[])?;
    let status = command_over(alloc, RUN, &mut shelf, &mut world)?;
    assert_eq!(rt; status.code(), 17);
    assert_eq!(rt; world.noted(), b"file too long d.mod\n".as_slice());
    Ok(())
}

/// The log of the store `s` is this one.
fn has_log(alloc: Global, world: &mut MemoryWorld, log: &[u8]) -> bool {
    match log_of(alloc, world) {
        Some(bytes) => bytes.as_slice() == log,
        None => false,
    }
}

/// Each call of a run fails in its turn: a fault of the disk or of the output is answered as such, and never as want of
/// memory. Behind the last call nothing fails. Over the store that a fault left the same program then runs to its end.
#[test]
fn each_call_fails_in_its_turn(rt: HostRuntime) -> Result<(), Fail> {
    let alloc = rt.alloc();
    let mut ended = false;
    for call in 0u64..40 {
        let mut shelf = shelf(alloc, &[])?;
        let mut world = world_of(alloc, EMPTY, 0, &[call])?;
        let code = command_over(alloc, RUN, &mut shelf, &mut world)?.code();
        let said = world.said().len();
        assert!(rt; LINE.starts_with(world.said()));
        if code == 0 {
            ended = true;
            assert_eq!(rt; said, LINE.len());
        } else {
            assert!(rt; !ended && (code == 10 || code == 12));
            let again = command_over(alloc, RUN, &mut shelf, &mut world)?;
            assert_eq!(rt; again.code(), 0);
            assert_eq!(rt; world.said().len(), said + LINE.len());
            assert!(rt; world.said().ends_with(LINE));
            assert!(rt; has_log(alloc, &mut world, AFTER));
        }
    }
    assert!(rt; ended);
    Ok(())
}

/// A command over the files `d.mod`, `p.mod` and `clash.mod`, and how it ends.
struct Step {
    words: &'static [&'static [u8]],
    code: u8,
}

const STEPS: &[Step] = &[
    Step {
        words: CREATE,
        code: 0,
    },
    Step {
        words: CREATE,
        code: 15,
    },
    Step {
        words: &[b"run", b"s", b"d.mod", b"clash.mod"],
        code: 1,
    },
    Step {
        words: &[b"run", b"damaged", b"d.mod", b"p.mod"],
        code: 8,
    },
    Step {
        words: &[b"create", b"damaged"],
        code: 15,
    },
    Step {
        words: &[b"run", b"foreign", b"d.mod", b"p.mod"],
        code: 7,
    },
    Step {
        words: &[b"create", b"foreign"],
        code: 15,
    },
    Step {
        words: &[b"run", b"other", b"d.mod", b"p.mod"],
        code: 9,
    },
    Step {
        words: RUN,
        code: 0,
    },
];

/// What all these steps note
const NOTED: &[u8] = b"store exists
trap 9 at 1:6:8
store damaged at page 0
store exists
not a store
files hold something else
D.r has another type in the store
";

/// A world over which all steps were done, of which these calls fail, with its shelf.
fn stepped(alloc: Global, fails: &[u64]) -> Result<(MemoryShelf, MemoryWorld, bool), Fail> {
    let zeros = vec![in alloc; 0; 5_000]?;
    let mut world = MemoryWorld::make(alloc, b"", fails, 40_000)?;
    world.put_store(alloc, "damaged", DAMAGED, b"")?;
    world.put_store(alloc, "foreign", TEN, zeros.as_slice())?;
    world.put_store(alloc, "other", OTHER, b"")?;
    let files: &[(&[u8], &[u8])] = &[
        (b"d.mod", SCHEMA),
        (b"p.mod", PROGRAM),
        (b"clash.mod", CLASH),
    ];
    let mut shelf = shelf_of(alloc, files, &[])?;
    let mut as_told = true;
    for step in STEPS {
        let status = command_over(alloc, step.words, &mut shelf, &mut world)?;
        as_told = as_told && status.code() == step.code;
    }
    Ok((shelf, world, as_told))
}

/// Commands one behind another over one world, and behind them a run of which a sync fails, and one more.
#[test]
fn commands_over_one_world(rt: HostRuntime) -> Result<(), Fail> {
    let alloc = rt.alloc();
    let (_, world, as_told) = stepped(alloc, &[])?;
    assert!(rt; as_told);
    assert_eq!(rt; world.noted(), NOTED);
    assert_eq!(rt; world.said(), b"ba\n".as_slice());

    // The mount is the next call, and the first sync the one behind it.
    let (mut shelf, mut world, as_told) = stepped(alloc, &[world.calls().wrapping_add(1)])?;
    assert!(rt; as_told);
    let failed = command_over(alloc, RUN, &mut shelf, &mut world)?;
    assert_eq!(rt; failed.code(), 10);
    assert!(rt; world.noted().ends_with(DISK_FAULT));
    assert_eq!(rt; world.said(), b"ba\n".as_slice());
    let again = command_over(alloc, RUN, &mut shelf, &mut world)?;
    assert_eq!(rt; again.code(), 0);
    assert_eq!(rt; world.said(), b"ba\na\n".as_slice());
    assert!(rt; has_log(alloc, &mut world, AFTER));
    Ok(())
}
