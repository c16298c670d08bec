//! Questions about whole commands, over a world and a shelf in memory. The answer is the code of each command, and behind
//! the codes what they said and what they noted.
ghost use Rattle.std.specs.Prelude.{◌≡◌, ◌<◌};

use crate::answer::Answer;
use crate::failure::Failure;
use crate::parts::Parts;
use dbpl_base::{List, Name, Status, Steps, name_of};
use dbpl_tool::dbpl;
use dbpl_world::{MemoryShelf, MemoryWorld};
use std::alloc::Global;
use std::marker::Brand;
use std::sync::ledger::{Blank, Ledger};

/// What the calls of a row may cost.
const ROOM: u64 = 4_000_000;

/// One command: the name of the one file, its text, and the words.
pub(crate) fn command(alloc: Global, parts: &Parts) -> Result<Answer, Failure> {
    let file = (
        Vec::from_slice(alloc, parts.get(0)?)?,
        Vec::from_slice(alloc, parts.get(1)?)?,
    );
    let mut shelf = MemoryShelf::make(alloc, &[file], &[])?;
    let mut world = MemoryWorld::make(alloc, b"", &[], ROOM)?;
    let words = words_of(alloc, parts.from(2))?;
    let status = run(alloc, words.as_slice(), &mut shelf, &mut world);
    answer_of(Vec::from_slice(alloc, &[status.code()])?, &world)
}

/// A store that is made, and then each program run over it: a database module, and the programs in their order.
pub(crate) fn runs(alloc: Global, parts: &Parts) -> Result<Answer, Failure> {
    let mut world = MemoryWorld::make(alloc, b"", &[], ROOM)?;
    let mut codes = Vec::new(alloc);
    codes.push(created(alloc, &mut world)?.code())?;
    for program in parts.from(1) {
        codes.push(run_over(alloc, b"s", parts.get(0)?, program.as_slice(), &mut world)?.code())?;
    }
    answer_of(codes, &world)
}

/// A store that is there, and then each program run over it: the store's name, its log, a database module, and the
/// programs in their order.
pub(crate) fn runs_over(alloc: Global, parts: &Parts) -> Result<Answer, Failure> {
    let mut world = MemoryWorld::make(alloc, b"", &[], ROOM)?;
    world.put_store(alloc, parts.text(0)?, parts.get(1)?, b"")?;
    let mut codes = Vec::new(alloc);
    for program in parts.from(3) {
        let status = run_over(
            alloc,
            parts.get(0)?,
            parts.get(2)?,
            program.as_slice(),
            &mut world,
        )?;
        codes.push(status.code())?;
    }
    answer_of(codes, &world)
}

/// Makes a store.
fn created(alloc: Global, world: &mut MemoryWorld) -> Result<Status, Failure> {
    let mut shelf = MemoryShelf::make(alloc, &[], &[])?;
    let mut words = List::new(alloc);
    words.push(name_of(alloc, b"create")?)?;
    words.push(name_of(alloc, b"s")?)?;
    Ok(run(alloc, words.as_slice(), &mut shelf, world))
}

/// Runs a program over the store of this name.
fn run_over(
    alloc: Global,
    store: &[u8],
    schema: &[u8],
    program: &[u8],
    world: &mut MemoryWorld,
) -> Result<Status, Failure> {
    let files = [
        (
            Vec::from_slice(alloc, b"d.mod")?,
            Vec::from_slice(alloc, schema)?,
        ),
        (
            Vec::from_slice(alloc, b"p.mod")?,
            Vec::from_slice(alloc, program)?,
        ),
    ];
    let mut shelf = MemoryShelf::make(alloc, &files, &[])?;
    let mut words = List::new(alloc);
    for word in [b"run".as_slice(), store, b"d.mod", b"p.mod"] {
        words.push(name_of(alloc, word)?)?;
    }
    Ok(run(alloc, words.as_slice(), &mut shelf, world))
}

fn words_of(alloc: Global, words: &[Vec<u8>]) -> Result<List<Name>, Failure> {
    let mut names = List::new(alloc);
    for word in words {
        names.push(name_of(alloc, word.as_slice())?)?;
    }
    Ok(names)
}

/// The codes, and behind them what was said and noted.
fn answer_of(codes: Vec<u8>, world: &MemoryWorld) -> Result<Answer, Failure> {
    let mut bytes = codes;
    bytes.extend_from_slice(world.said())?;
    bytes.extend_from_slice(world.noted())?;
    Ok(Answer::Bytes(bytes))
}

fn run(alloc: Global, words: &[Name], shelf: &mut MemoryShelf, world: &mut MemoryWorld) -> Status {
    counted::<Brand>(alloc, words, shelf, world, Blank::new(1))
}

/// The command with these words, with a counter that nobody reads.
fn counted<L: Ledger>(
    alloc: Global,
    words: &[Name],
    shelf: &mut MemoryShelf,
    world: &mut MemoryWorld,
    blank: Blank,
) -> Status
    requires name { blank.name ≡ L.name }
    requires parts { blank.parts ≡ L.parts }
    requires some { 0 < L.parts }
{
    let mut steps = Steps::<L>::new(blank);
    dbpl(alloc, words, shelf, world, &mut steps)
}
