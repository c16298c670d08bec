// The report of a status, noted in pieces without taking memory.
ghost use Rattle.std.specs.Prelude.{◌≡◌, ◌++◌, [], ◌∷◌, ℕ, codes, decimal, map, take, IsTrue, OnErr, OnOk};
ghost use Rattle.dbpl_base.specs.Report.{place_text, report};
ghost use Rattle.dbpl_world.specs.Counts.{OnlyNoteFaults, Rose};
ghost use Rattle.dbpl_world.specs.History.{Noted, more};

use crate::noting::note_pieces;
use dbpl_base::{Name, Place, Status};
use dbpl_world::{Failed, World, note_all};
use itoa::Buffer;

/// Notes the report of this status. After an error a front of it is noted.
pub fn note_report<W: World>(status: &Status, world: &mut W) -> Result<(), Failed>
    ensures ok { IsTrue W.tells → OnOk result (W.history world.new ≡ more (W.history world.old) (map Noted (report status.now))) }
    ensures err { IsTrue W.tells → OnErr result ((n : ℕ) × (W.history world.new ≡ more (W.history world.old) (map Noted (take n (report status.now))))) }
    ensures done { status.now ≡ Status.Done → world.new ≡ world.old }
    ensures same { W.mounted world.new ≡ W.mounted world.old }
    ensures counts { OnlyNoteFaults (W.counts world.old) (W.counts world.new) }
    ensures cause { OnErr result (Rose (W.counts world.old).note_faults (W.counts world.new).note_faults) }
{
    match status {
        Status::Done => Ok(()),
        Status::Trapped { kind, place } => note_place(world, b"trap ", u16::from(*kind), *place),
        Status::BadWords => note_all(world, b"usage: dbpl MODE WORDS [--steps N]\n"),
        Status::Refused { place, rule } => note_refusal(world, *place, *rule),
        Status::Stopped(count) => note_number(world, b"stopped after ", *count, b" instructions\n"),
        Status::Absent(name) => note_name(world, b"no file ", name, b"\n"),
        Status::SourceFault => note_all(world, b"cannot read a source file\n"),
        Status::NotStore => note_all(world, b"not a store\n"),
        Status::Damaged(page) => {
            note_number(world, b"store damaged at page ", u64::from(*page), b"\n")
        }
        Status::SchemaDiffers(name) => {
            note_name(world, b"", name, b" has another type in the store\n")
        }
        Status::DiskFault => note_all(world, b"disk fault\n"),
        Status::InFault => note_all(world, b"input fault\n"),
        Status::OutFault => note_all(world, b"output fault\n"),
        Status::StoreFull => note_all(world, b"store full\n"),
        Status::Memory => note_all(world, b"out of memory\n"),
        Status::Exists => note_all(world, b"store exists\n"),
        Status::Foreign => note_all(world, b"files hold something else\n"),
        Status::NoRelation(name) => note_name(world, b"no relation ", name, b"\n"),
        Status::TooLong(name) => note_name(world, b"file too long ", name, b"\n"),
        Status::LinkMissing(name) => note_name(world, b"link: ", name, b" missing\n"),
        Status::LinkTwice(name) => note_name(world, b"link: ", name, b" twice\n"),
        Status::LinkInterface(name) => note_name(world, b"link: ", name, b" differs\n"),
        Status::Malformed { file, at } => note_malformed(world, file, *at),
        Status::Unsafe(address) => {
            note_number(world, b"unsafe at address ", u64::from(*address), b"\n")
        }
    }
}

/// Notes a name, with these bytes before and behind it.
fn note_name<W: World>(
    world: &mut W,
    before: &[u8],
    name: &Name,
    behind: &[u8],
) -> Result<(), Failed>
    ensures ok { IsTrue W.tells → OnOk result (W.history world.new ≡ more (W.history world.old) (map Noted (before.now ++ name.now ++ behind.now))) }
    ensures err { IsTrue W.tells → OnErr result ((n : ℕ) × (W.history world.new ≡ more (W.history world.old) (map Noted (take n (before.now ++ name.now ++ behind.now))))) }
    ensures same { W.mounted world.new ≡ W.mounted world.old }
    ensures counts { OnlyNoteFaults (W.counts world.old) (W.counts world.new) }
    ensures cause { OnErr result (Rose (W.counts world.old).note_faults (W.counts world.new).note_faults) }
{
    note_pieces(world, &[before, name.as_bytes(), behind])
}

/// Notes a number, with these bytes before and behind it.
fn note_number<W: World>(
    world: &mut W,
    before: &[u8],
    number: u64,
    behind: &[u8],
) -> Result<(), Failed>
    ensures ok { IsTrue W.tells → OnOk result (W.history world.new ≡ more (W.history world.old) (map Noted (before.now ++ decimal number ++ behind.now))) }
    ensures err { IsTrue W.tells → OnErr result ((n : ℕ) × (W.history world.new ≡ more (W.history world.old) (map Noted (take n (before.now ++ decimal number ++ behind.now))))) }
    ensures same { W.mounted world.new ≡ W.mounted world.old }
    ensures counts { OnlyNoteFaults (W.counts world.old) (W.counts world.new) }
    ensures cause { OnErr result (Rose (W.counts world.old).note_faults (W.counts world.new).note_faults) }
{
    note_pieces(
        world,
        &[before, Buffer::new().format(number).as_bytes(), behind],
    )
}

/// Notes that this file of code is malformed at this offset.
fn note_malformed<W: World>(world: &mut W, file: &Name, at: u64) -> Result<(), Failed>
    ensures ok { IsTrue W.tells → OnOk result (W.history world.new ≡ more (W.history world.old) (map Noted (report (Status.Malformed file.now at)))) }
    ensures err { IsTrue W.tells → OnErr result ((n : ℕ) × (W.history world.new ≡ more (W.history world.old) (map Noted (take n (report (Status.Malformed file.now at)))))) }
    ensures same { W.mounted world.new ≡ W.mounted world.old }
    ensures counts { OnlyNoteFaults (W.counts world.old) (W.counts world.new) }
    ensures cause { OnErr result (Rose (W.counts world.old).note_faults (W.counts world.new).note_faults) }
{
    note_pieces(
        world,
        &[
            file.as_bytes(),
            b" is malformed at ",
            Buffer::new().format(at).as_bytes(),
            b"\n",
        ],
    )
}

/// Notes that a program was refused, with the letter and the number under which users know the rule.
fn note_refusal<W: World>(world: &mut W, place: Place, rule: u16) -> Result<(), Failed>
    ensures ok { IsTrue W.tells → OnOk result (W.history world.new ≡ more (W.history world.old) (map Noted (report (Status.Refused place rule)))) }
    ensures err { IsTrue W.tells → OnErr result ((n : ℕ) × (W.history world.new ≡ more (W.history world.old) (map Noted (take n (report (Status.Refused place rule)))))) }
    ensures same { W.mounted world.new ≡ W.mounted world.old }
    ensures counts { OnlyNoteFaults (W.counts world.old) (W.counts world.new) }
    ensures cause { OnErr result (Rose (W.counts world.old).note_faults (W.counts world.new).note_faults) }
{
    if rule > 100 {
        note_place(world, b"refused L", rule - 100, place)
    } else {
        note_place(world, b"refused S", rule, place)
    }
}

/// Notes what happened, its number, and the place of the phrase.
fn note_place<W: World>(world: &mut W, what: &[u8], number: u16, place: Place) -> Result<(), Failed>
    ensures ok { IsTrue W.tells → OnOk result (W.history world.new ≡ more (W.history world.old) (map Noted (what.now ++ decimal number ++ codes " at " ++ place_text place ++ 10 ∷ []))) }
    ensures err { IsTrue W.tells → OnErr result ((n : ℕ) × (W.history world.new ≡ more (W.history world.old) (map Noted (take n (what.now ++ decimal number ++ codes " at " ++ place_text place ++ 10 ∷ []))))) }
    ensures same { W.mounted world.new ≡ W.mounted world.old }
    ensures counts { OnlyNoteFaults (W.counts world.old) (W.counts world.new) }
    ensures cause { OnErr result (Rose (W.counts world.old).note_faults (W.counts world.new).note_faults) }
{
    let (mut numbers, mut units, mut lines, mut columns) = (
        Buffer::new(),
        Buffer::new(),
        Buffer::new(),
        Buffer::new(),
    );
    note_pieces(
        world,
        &[
            what,
            numbers.format(number).as_bytes(),
            b" at ",
            units.format(place.unit).as_bytes(),
            b":",
            lines.format(place.line).as_bytes(),
            b":",
            columns.format(place.col).as_bytes(),
            b"\n",
        ],
    )
}
