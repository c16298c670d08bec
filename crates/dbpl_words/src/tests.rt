// The report of each status in a world in memory, and words with and without a reading.
use crate::{Request, note_report, request};
use dbpl_base::{List, Name, Place, Status, name_of};
use dbpl_world::MemoryWorld;
use std::alloc::Global;
use std::test::Fail;

const PLACE: Place = Place {
    unit: 1,
    line: 20,
    col: 300,
};

#[test]
fn plain_reports(rt: HostRuntime) -> Result<(), Fail> {
    let alloc = rt.alloc();
    let usage = b"usage: dbpl MODE WORDS [--steps N]\n";
    assert!(rt; has_report(alloc, Status::Done, b"")?);
    assert!(rt; has_report(alloc, Status::BadWords, usage)?);
    assert!(rt; has_report(alloc, Status::SourceFault, b"cannot read a source file\n")?);
    assert!(rt; has_report(alloc, Status::NotStore, b"not a store\n")?);
    assert!(rt; has_report(alloc, Status::DiskFault, b"disk fault\n")?);
    assert!(rt; has_report(alloc, Status::InFault, b"input fault\n")?);
    assert!(rt; has_report(alloc, Status::OutFault, b"output fault\n")?);
    assert!(rt; has_report(alloc, Status::StoreFull, b"store full\n")?);
    assert!(rt; has_report(alloc, Status::Memory, b"out of memory\n")?);
    assert!(rt; has_report(alloc, Status::Exists, b"store exists\n")?);
    assert!(rt; has_report(alloc, Status::Foreign, b"files hold something else\n")?);
    Ok(())
}

#[test]
fn reports_with_a_number(rt: HostRuntime) -> Result<(), Fail> {
    let alloc = rt.alloc();
    let place = PLACE;
    let trap = Status::Trapped { kind: 7, place };
    assert!(rt; has_report(alloc, trap, b"trap 7 at 1:20:300\n")?);
    let statics = Status::Refused { place, rule: 100 };
    assert!(rt; has_report(alloc, statics, b"refused S100 at 1:20:300\n")?);
    let language = Status::Refused { place, rule: 101 };
    assert!(rt; has_report(alloc, language, b"refused L1 at 1:20:300\n")?);
    let stopped = Status::Stopped(1_000_000_000_000);
    assert!(rt;
        has_report(
            alloc,
            stopped,
            b"stopped after 1000000000000 instructions\n"
        )?
    );
    assert!(rt; has_report(alloc, Status::Damaged(0), b"store damaged at page 0\n")?);
    let address = Status::Unsafe(4_294_967_295);
    assert!(rt; has_report(alloc, address, b"unsafe at address 4294967295\n")?);
    Ok(())
}

#[test]
fn reports_with_a_name(rt: HostRuntime) -> Result<(), Fail> {
    let alloc = rt.alloc();
    let absent = Status::Absent(name_of(alloc, b"a.mod")?);
    assert!(rt; has_report(alloc, absent, b"no file a.mod\n")?);
    let differs = Status::SchemaDiffers(name_of(alloc, b"r")?);
    assert!(rt; has_report(alloc, differs, b"r has another type in the store\n")?);
    let none = Status::NoRelation(name_of(alloc, b"r")?);
    assert!(rt; has_report(alloc, none, b"no relation r\n")?);
    let long = Status::TooLong(name_of(alloc, b"a.mod")?);
    assert!(rt; has_report(alloc, long, b"file too long a.mod\n")?);
    let missing = Status::LinkMissing(name_of(alloc, b"M")?);
    assert!(rt; has_report(alloc, missing, b"link: M missing\n")?);
    let twice = Status::LinkTwice(name_of(alloc, b"M")?);
    assert!(rt; has_report(alloc, twice, b"link: M twice\n")?);
    let interface = Status::LinkInterface(name_of(alloc, b"M")?);
    assert!(rt; has_report(alloc, interface, b"link: M differs\n")?);
    let file = name_of(alloc, b"m.obj")?;
    let malformed = Status::Malformed { file, at: 17 };
    assert!(rt; has_report(alloc, malformed, b"m.obj is malformed at 17\n")?);
    Ok(())
}

/// Whether the report of this status, noted in a world without faults, is that line.
fn has_report(alloc: Global, status: Status, line: &[u8]) -> Result<bool, Fail> {
    let mut world = MemoryWorld::make(alloc, b"", &[], 10_000)?;
    note_report(&status, &mut world)?;
    Ok(world.noted() == line)
}

const READINGS: &[(&[&[u8]], Option<Request<'static>>)] = &[
    (&[b"run", b"-", b"a.mod"], Some(Request::RunAlone("a.mod"))),
    (&[b"create", b"s"], Some(Request::Create("s"))),
    (
        &[b"run", b"s", b"d.mod", b"m.mod"],
        Some(Request::Run {
            store: "s",
            data: "d.mod",
            program: "m.mod",
        }),
    ),
    (
        &[b"run", b"-", b"d.mod", b"m.mod"],
        Some(Request::Run {
            store: "-",
            data: "d.mod",
            program: "m.mod",
        }),
    ),
    (&[], None),
    (&[b"run"], None),
    (&[b"run", b"s", b"a.mod"], None),
    (&[b"create"], None),
    (&[b"create", b"s", b"t"], None),
    (&[b"create", b"s\xFF"], None),
    (&[b"run", b"s", b"d.mod", b"m.mod\xFF"], None),
    (&[b"run", b"s", b"d.mod", b"m.mod", b"n.mod"], None),
    (&[b"build", b"-", b"a.mod"], None),
];

#[test]
fn readings(rt: HostRuntime) -> Result<(), Fail> {
    for (words, reading) in READINGS {
        let words = names(rt.alloc(), words)?;
        assert_eq!(rt; request(words.as_slice()), *reading);
    }
    Ok(())
}

fn names(alloc: Global, words: &[&[u8]]) -> Result<List<Name>, Fail> {
    let mut names = List::new(alloc);
    for word in words {
        names.push(name_of(alloc, word)?)?;
    }
    Ok(names)
}
