// Worked commands over a world and a shelf in memory: each with its status, what it said and what it noted.
ghost use Rattle.std.specs.Prelude.{◌≡◌, ◌<◌};

use crate::dbpl;
use dbpl_base::limits::SOURCE_BYTES;
use dbpl_base::{List, Name, Status, Steps, name_of};
use dbpl_world::{MemoryShelf, MemoryWorld};
use std::alloc::Global;
use std::marker::Brand;
use std::sync::ledger::{Blank, Ledger};
use std::test::Fail;

/// A command over one file, `hello.mod`, and what it comes to.
struct Row {
    words: &'static [&'static [u8]],
    text: &'static [u8],
    /// The calls of the world that fail, and the fetches.
    fails: &'static [u64],
    fetches_fail: &'static [u64],
    code: u8,
    said: &'static [u8],
    noted: &'static [u8],
}

const RUN: &[&[u8]] = &[b"run", b"-", b"hello.mod"];

const HELLO: &[u8] =
    b"MODULE Hello;\nFROM InOut IMPORT WriteString, WriteLn;\nBEGIN\n  WriteString(\"Hello\"); WriteLn;\n  WriteString('it \"works\"'); WriteLn\nEND Hello.\n";

const BOTH_LINES: &[u8] = b"Hello\nit \"works\"\n";

const ANOTHER_FORM: &[u8] = b"refused L9 at 0:1:1\n";

const USAGE: &[u8] = b"usage: dbpl MODE WORDS [--steps N]\n";

const ROWS: &[Row] = &[
    // Both lines.
    Row {
        words: RUN,
        text: HELLO,
        fails: &[],
        fetches_fail: &[],
        code: 0,
        said: BOTH_LINES,
        noted: b"",
    },
    // What stands in a string from its first byte 0 on isn't printed.
    Row {
        words: RUN,
        text: b"MODULE Zero; FROM InOut IMPORT WriteString, WriteLn; BEGIN WriteString('ab\0c'); WriteString('') END Zero.",
        fails: &[],
        fetches_fail: &[],
        code: 0,
        said: b"ab",
        noted: b"",
    },
    // The third print fails.
    Row {
        words: RUN,
        text: HELLO,
        fails: &[2],
        fetches_fail: &[],
        code: 12,
        said: b"He",
        noted: b"output fault\n",
    },
    // The last print fails.
    Row {
        words: RUN,
        text: HELLO,
        fails: &[16],
        fetches_fail: &[],
        code: 12,
        said: b"Hello\nit \"works\"",
        noted: b"output fault\n",
    },
    // The report can't be noted, and the status stands.
    Row {
        words: RUN,
        text: b"",
        fails: &[0],
        fetches_fail: &[],
        code: 3,
        said: b"",
        noted: b"",
    },
    // Comments stand between tokens.
    Row {
        words: RUN,
        text: b"MODULE M; (* (* *) *) FROM InOut IMPORT WriteString, WriteLn; BEGIN (**) WriteLn END M.",
        fails: &[],
        fetches_fail: &[],
        code: 0,
        said: b"\n",
        noted: b"",
    },
    // A comment that doesn't close.
    Row {
        words: RUN,
        text: b"MODULE M; (* a (* b (* c *) *)",
        fails: &[],
        fetches_fail: &[],
        code: 3,
        said: b"",
        noted: b"refused L1 at 0:1:11\n",
    },
    // No tokens but the end, and one too many.
    Row {
        words: RUN,
        text: b"",
        fails: &[],
        fetches_fail: &[],
        code: 3,
        said: b"",
        noted: b"refused L2 at 0:1:1\n",
    },
    Row {
        words: RUN,
        text: b"MODULE M; FROM InOut IMPORT WriteString, WriteLn; BEGIN WriteLn END M. x",
        fails: &[],
        fetches_fail: &[],
        code: 3,
        said: b"",
        noted: b"refused L2 at 0:1:72\n",
    },
    // A phrase too many inside others.
    Row {
        words: RUN,
        text: b"MODULE M; BEGIN x := ((((((((((((((((((((((((((((((((((((((((((((((((((((((((((((((((",
        fails: &[],
        fetches_fail: &[],
        code: 3,
        said: b"",
        noted: b"refused L3 at 0:1:85\n",
    },
    // Modules of another form.
    Row {
        words: RUN,
        text: b"MODULE M; BEGIN END M.",
        fails: &[],
        fetches_fail: &[],
        code: 3,
        said: b"",
        noted: ANOTHER_FORM,
    },
    Row {
        words: RUN,
        text: b"MODULE M; FROM InOut IMPORT WriteString, WriteLn; BEGIN WriteLn END N.",
        fails: &[],
        fetches_fail: &[],
        code: 3,
        said: b"",
        noted: ANOTHER_FORM,
    },
    // A file that isn't there, and a shelf that fails.
    Row {
        words: &[b"run", b"-", b"none.mod"],
        text: HELLO,
        fails: &[],
        fetches_fail: &[],
        code: 5,
        said: b"",
        noted: b"no file none.mod\n",
    },
    Row {
        words: RUN,
        text: HELLO,
        fails: &[],
        fetches_fail: &[0],
        code: 6,
        said: b"",
        noted: b"cannot read a source file\n",
    },
    // Words without a reading.
    Row {
        words: &[],
        text: HELLO,
        fails: &[],
        fetches_fail: &[],
        code: 2,
        said: b"",
        noted: USAGE,
    },
    Row {
        words: &[b"run"],
        text: HELLO,
        fails: &[],
        fetches_fail: &[],
        code: 2,
        said: b"",
        noted: USAGE,
    },
    Row {
        words: &[b"run", b"-", b"hello.mod", b"hello.mod", b"hello.mod"],
        text: HELLO,
        fails: &[],
        fetches_fail: &[],
        code: 2,
        said: b"",
        noted: USAGE,
    },
    Row {
        words: &[b"build", b"-", b"hello.mod"],
        text: HELLO,
        fails: &[],
        fetches_fail: &[],
        code: 2,
        said: b"",
        noted: USAGE,
    },
    Row {
        words: &[b"run", b"store", b"hello.mod"],
        text: HELLO,
        fails: &[],
        fetches_fail: &[],
        code: 2,
        said: b"",
        noted: USAGE,
    },
    Row {
        words: &[b"run", b"-", b"hello\xFF"],
        text: HELLO,
        fails: &[],
        fetches_fail: &[],
        code: 2,
        said: b"",
        noted: USAGE,
    },
];

#[test]
fn commands(rt: HostRuntime) -> Result<(), Fail> {
    for row in ROWS {
        let (status, world) = command(
            rt.alloc(),
            row.words,
            row.text,
            row.fails,
            row.fetches_fail,
        )?;
        assert_eq!(rt; status.code(), row.code);
        assert_eq!(rt; world.said(), row.said);
        assert_eq!(rt; world.noted(), row.noted);
    }
    Ok(())
}

#[test]
fn a_file_past_the_limit(rt: HostRuntime) -> Result<(), Fail> {
    let mut text = Vec::from_slice(rt.alloc(), HELLO)?;
    for _ in 0..SOURCE_BYTES {
        if text.len() < SOURCE_BYTES as usize {
            text.push(b' ')?;
        }
    }
    let (status, world) = command(rt.alloc(), RUN, text.as_slice(), &[], &[])?;
    assert_eq!(rt; status, Status::Done);
    assert_eq!(rt; world.said(), BOTH_LINES);
    text.push(b' ')?;
    let (status, world) = command(rt.alloc(), RUN, text.as_slice(), &[], &[])?;
    assert_eq!(rt; status.code(), 17);
    assert_eq!(rt; world.noted(), b"file too long hello.mod\n".as_slice());
    assert_eq!(rt; world.said(), b"".as_slice());
    Ok(())
}

/// The command over a shelf with that text as `hello.mod` alone, and a world without stores.
fn command(
    alloc: Global,
    words: &[&[u8]],
    text: &[u8],
    fails: &[u64],
    fetches_fail: &[u64],
) -> Result<(Status, MemoryWorld), Fail> {
    let mut shelf = shelf_of(alloc, &[(b"hello.mod", text)], fetches_fail)?;
    let mut world = MemoryWorld::make(alloc, b"", fails, 1_000_000)?;
    let status = command_over(alloc, words, &mut shelf, &mut world)?;
    Ok((status, world))
}

/// A shelf with files of these names and texts.
pub fn shelf_of(
    alloc: Global,
    texts: &[(&[u8], &[u8])],
    fetches_fail: &[u64],
) -> Result<MemoryShelf, Fail> {
    let mut files = Vec::new(alloc);
    for (name, text) in texts {
        files.push((Vec::from_slice(alloc, name)?, Vec::from_slice(alloc, text)?))?;
    }
    Ok(MemoryShelf::make(alloc, files.as_slice(), fetches_fail)?)
}

/// The command with these words.
pub fn command_over(
    alloc: Global,
    words: &[&[u8]],
    shelf: &mut MemoryShelf,
    world: &mut MemoryWorld,
) -> Result<Status, Fail> {
    let mut names = List::new(alloc);
    for word in words {
        names.push(name_of(alloc, word)?)?;
    }
    Ok(counted::<Brand>(alloc, names.as_slice(), shelf, world, Blank::new(1)))
}

fn counted<L: Ledger>(
    alloc: Global,
    words: &[Name],
    shelf: &mut MemoryShelf,
    world: &mut MemoryWorld,
    blank: Blank,
) -> Status
    requires name { blank.name ≡ L.name }
    requires parts { blank.parts ≡ L.parts }
    requires some { 0 < L.parts }
{
    let mut steps = Steps::<L>::new(blank);
    dbpl(alloc, words, shelf, world, &mut steps)
}
