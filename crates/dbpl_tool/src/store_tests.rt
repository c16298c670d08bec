// Worked commands over a store in memory: each with its status, what it said and noted, and the log that it left.
use crate::tests::{command_over, shelf_of};
use dbpl_world::{MemoryWorld, Part, World};
use std::alloc::Global;
use std::test::Fail;

/// A command over the store `s`, a database module `d.mod` and a program `p.mod`, and what it comes to.
struct Row {
    words: &'static [&'static [u8]],
    schema: &'static [u8],
    program: &'static [u8],
    log: &'static [u8],
    code: u8,
    said: &'static [u8],
    noted: &'static [u8],
    log_after: &'static [u8],
}

const CREATE: &[&[u8]] = &[b"create", b"s"];

const RUN: &[&[u8]] = &[b"run", b"s", b"d.mod", b"p.mod"];

/// D.r: RELATION pos OF RECORD pos, qty: CARDINAL END
const SUBS: &[u8] = b"DATABASE MODULE D;
TYPE Sub = RECORD pos, qty: CARDINAL END;
  Subs = RELATION pos OF Sub;
VAR r: Subs;
END D.
";

/// The same relation with another field
const OTHER_SUBS: &[u8] = b"DATABASE MODULE D;
TYPE Sub = RECORD pos, number: CARDINAL END;
  Subs = RELATION pos OF Sub;
VAR r: Subs;
END D.
";

const ONE_FIVE: &[u8] = b"MODULE P;
FROM D IMPORT Sub, Subs, r;
FROM InOut IMPORT WriteString, WriteLn;
TRANSACTION add;
BEGIN
  r :+ Subs{Sub{1, 5}}
END add;
BEGIN
  WriteString('a'); add; WriteString('b'); WriteLn
END P.
";

/// Another record, and then one under a key that (1, 5) has
const ONE_SIX: &[u8] = b"MODULE P;
FROM D IMPORT Sub, Subs, r;
FROM InOut IMPORT WriteString, WriteLn;
TRANSACTION add;
BEGIN
  r :+ Subs{Sub{2, 2}};
  r :+ Subs{Sub{1, 6}}
END add;
BEGIN
  WriteString('a'); add; WriteString('b'); WriteLn
END P.
";

/// Two records of one key in one set
const TWO_OF_ONE_KEY: &[u8] = b"MODULE P;
FROM D IMPORT Sub, Subs, r;
FROM InOut IMPORT WriteString, WriteLn;
TRANSACTION add;
BEGIN
  r :+ Subs{Sub{1, 5}, Sub{1, 6}}
END add;
BEGIN
  WriteString('a'); add; WriteString('b'); WriteLn
END P.
";

/// The head of a store, and its first gate
const EMPTY: &[u8] = b"\x01DBPL-STORE-0000\0";

/// D.r with the record (1, 5), as the one record of a log
const KEPT: &[u8] =
    b"\x01DBPL-STORE-0000\x01\x40\0\0\0\x01\0\0\0\x03\0\0\0D.r\x21\0\0\0\x09\x01\0\0\0\x03\0\0\0pos\x08\x02\0\0\0\x03\0\0\0pos\x02\x03\0\0\0qty\x02\x0c\0\0\0\x01\0\0\0\x01\0\0\0\x05\0\0\0\0";

const ROWS: &[Row] = &[
    // An empty store is made where there is none.
    Row {
        words: CREATE,
        schema: SUBS,
        program: ONE_FIVE,
        log: b"",
        code: 0,
        said: b"",
        noted: b"",
        log_after: EMPTY,
    },
    Row {
        words: CREATE,
        schema: SUBS,
        program: ONE_FIVE,
        log: KEPT,
        code: 15,
        said: b"",
        noted: b"store exists\n",
        log_after: KEPT,
    },
    // A record is put into an empty store, and once more into the one that has it.
    Row {
        words: RUN,
        schema: SUBS,
        program: ONE_FIVE,
        log: EMPTY,
        code: 0,
        said: b"ab\n",
        noted: b"",
        log_after: KEPT,
    },
    Row {
        words: RUN,
        schema: SUBS,
        program: ONE_FIVE,
        log: KEPT,
        code: 0,
        said: b"ab\n",
        noted: b"",
        log_after: KEPT,
    },
    // A trap leaves nothing of its transaction.
    Row {
        words: RUN,
        schema: SUBS,
        program: ONE_SIX,
        log: KEPT,
        code: 1,
        said: b"a",
        noted: b"trap 9 at 1:7:5\n",
        log_after: KEPT,
    },
    Row {
        words: RUN,
        schema: SUBS,
        program: TWO_OF_ONE_KEY,
        log: EMPTY,
        code: 1,
        said: b"a",
        noted: b"trap 9 at 1:6:8\n",
        log_after: EMPTY,
    },
    // What can't be run over is refused, and stays as it is.
    Row {
        words: RUN,
        schema: OTHER_SUBS,
        program: ONE_FIVE,
        log: KEPT,
        code: 9,
        said: b"",
        noted: b"D.r has another type in the store\n",
        log_after: KEPT,
    },
    Row {
        words: &[b"run", b"-", b"d.mod", b"p.mod"],
        schema: SUBS,
        program: ONE_FIVE,
        log: EMPTY,
        code: 7,
        said: b"",
        noted: b"not a store\n",
        log_after: EMPTY,
    },
    // The texts come before the store.
    Row {
        words: RUN,
        schema: SUBS,
        program: b"MODULE P; END",
        log: b"",
        code: 3,
        said: b"",
        noted: b"refused L2 at 1:1:14\n",
        log_after: b"",
    },
    // Words without a reading
    Row {
        words: &[b"create", b"s", b"t"],
        schema: SUBS,
        program: ONE_FIVE,
        log: b"",
        code: 2,
        said: b"",
        noted: b"usage: dbpl MODE WORDS [--steps N]\n",
        log_after: b"",
    },
];

/// A world with this log as that of the store `s`, or without a store where it is empty.
fn world_of(alloc: Global, log: &[u8]) -> Result<MemoryWorld, Fail> {
    let mut world = MemoryWorld::make(alloc, b"", &[], 10_000)?;
    if !log.is_empty() {
        world.put_store(alloc, "s", log, b"")?;
    }
    Ok(world)
}

/// The log of the store `s` as a read gives it. Nothing where it can't be read.
pub fn log_of(alloc: Global, world: &mut MemoryWorld) -> Option<Vec<u8>> {
    let Ok(mut bytes) = vec![in alloc; 0; 200] else {
        return None;
    };
    match world.mount(alloc, "s") {
        Ok(()) => {
            let count = world.read_at(Part::Log, 0, &mut bytes).ok()?;
            bytes.truncate(count);
            Some(bytes)
        }
        Err(_) => None,
    }
}

#[test]
fn commands_over_a_store(rt: HostRuntime) -> Result<(), Fail> {
    let alloc = rt.alloc();
    for row in ROWS {
        let files: &[(&[u8], &[u8])] = &[(b"d.mod", row.schema), (b"p.mod", row.program)];
        let mut shelf = shelf_of(alloc, files, &[])?;
        let mut world = world_of(alloc, row.log)?;
        let status = command_over(alloc, row.words, &mut shelf, &mut world)?;
        assert_eq!(rt; status.code(), row.code);
        assert_eq!(rt; world.said(), row.said);
        assert_eq!(rt; world.noted(), row.noted);
        let log = log_of(alloc, &mut world).expect(&rt, "the log");
        assert!(rt; log.as_slice() == row.log_after);
    }
    Ok(())
}
