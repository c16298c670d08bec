//! The texts of source files.
ghost use Rattle.std.specs.Prelude.{◌≡◌, ◌⊎◌, ◌≤◌, length, map, Err, IfErr, IfOk};
ghost use Rattle.std.specs.List.{All};
ghost use Rattle.dbpl_promise.specs.Stages.{Stops};
ghost use Rattle.dbpl_promise.specs.Work.{IsOver, Work};
ghost use Rattle.dbpl_sources.specs.Fetching.{all_fetched, fetched};

use dbpl_base::limits::SOURCE_BYTES;
use dbpl_base::{Status, name_of};
use dbpl_world::{Shelf, ShelfErr};
use std::alloc::Global;

/// The text of that file, or the answer that it has none, of `SOURCE_BYTES` bytes at most.
pub fn source<S: Shelf>(alloc: Global, shelf: &mut S, file: &str) -> Result<Vec<u8>, Status>
    ensures found { (work : Work) → IsOver S.Shelf shelf.old shelf.new work →
        IfOk result (λ text. (fetched file.now).passes work text.items) }
    ensures within { IfOk result (λ text. length text.items ≤ SOURCE_BYTES) }
    ensures err { (work : Work) → IsOver S.Shelf shelf.old shelf.new work →
        IfErr result (Stops (fetched file.now) work) }
    ensures files { S.files shelf.new ≡ S.files shelf.old }
    ensures fine { (result ≡ Err Status.SourceFault) ⊎ (S.shelf_faults shelf.new ≡ S.shelf_faults shelf.old) }
    ensures faults { S.shelf_faults shelf.old ≤ S.shelf_faults shelf.new }
{
    let mut text = Vec::new(alloc);
    match shelf.fetch(alloc, file, SOURCE_BYTES, &mut text) {
        Ok(true) => Ok(text),
        Ok(false) => Err(Status::Absent(name_of(alloc, file.as_bytes())?)),
        Err(ShelfErr::TooLong) => Err(Status::TooLong(name_of(alloc, file.as_bytes())?)),
        Err(ShelfErr::Failed) => Err(Status::SourceFault),
        Err(ShelfErr::Memory) => Err(Status::Memory),
    }
}

/// The texts of these files, fetched in their order, or the answer of the first that can't be read.
pub fn sources<S: Shelf>(
    alloc: Global,
    shelf: &mut S,
    files: &[&str],
) -> Result<Vec<Vec<u8>>, Status>
    ensures found { (work : Work) → IsOver S.Shelf shelf.old shelf.new work →
        IfOk result (λ texts.
        (all_fetched (map (λ file. file.now) files.now)).passes work (map (λ text. text.items) texts.items)) }
    ensures count { IfOk result (λ texts. length texts.items ≡ length files.now) }
    ensures within { IfOk result (λ texts. All (λ text. length text.items ≤ SOURCE_BYTES) texts.items) }
    ensures err { (work : Work) → IsOver S.Shelf shelf.old shelf.new work →
        IfErr result (Stops (all_fetched (map (λ file. file.now) files.now)) work) }
    ensures files { S.files shelf.new ≡ S.files shelf.old }
    ensures fine { (result ≡ Err Status.SourceFault) ⊎ (S.shelf_faults shelf.new ≡ S.shelf_faults shelf.old) }
    ensures faults { S.shelf_faults shelf.old ≤ S.shelf_faults shelf.new }
{
    let mut texts = Vec::new(alloc);
    for file in files {
        let text = source(alloc, shelf, file)?;
        let Ok(()) = texts.push(text) else {
            return Err(Status::Memory);
        };
    }
    Ok(texts)
}
