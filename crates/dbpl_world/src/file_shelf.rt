// A shelf of files. It tells no contents: what the disk gives is outside every contract.
ghost use Rattle.std.specs.Prelude.{◌≡◌, ◌≢◌, ◌≤◌, true, None, length};
ghost use Rattle.dbpl_world.specs.Counts.{Rose};

use crate::counts::raised;
use crate::{Shelf, ShelfErr};
use std::alloc::{AllocGlobal, Global};
use std::fs::File;
use std::io::{ErrorKind, Read};
use std::rt::Files;

#[derive(Drop)]
pub struct FileShelf<R> {
    rt: R,
    faults: u64,
}

impl<R: Files> FileShelf<R> {
    pub fn new(rt: R) -> FileShelf<R>
        ensures { ⟦<FileShelf<R> as Shelf>⟧.shelf_faults result ≡ 0 }
    {
        FileShelf { rt, faults: 0 }
    }

    /// Counts a fetch that failed.
    fn failed(&mut self) -> ShelfErr
        ensures answer { result ≡ ShelfErr.Failed }
        ensures later { self.old.faults ≤ self.new.faults }
        ensures cause { Rose self.old.faults self.new.faults }
    {
        self.faults = raised(self.faults);
        ShelfErr::Failed
    }
}

impl<R: Files> Shelf for FileShelf<R> {
    ghost files = { λ _. None };

    ghost shelf_faults = { λ shelf. shelf.faults };

    fn fetch(
        &mut self,
        alloc: Global,
        name: &str,
        limit: u32,
        into: &mut Vec<u8>,
    ) -> Result<bool, ShelfErr> {
        let file = match File::open(&self.rt, name) {
            Ok(file) => file,
            Err(error) if error.kind() == ErrorKind::NotFound => return Ok(false),
            Err(_) => return Err(self.failed()),
        };
        let mut bytes = Vec::new(alloc);
        match file.take(limit as u64 + 1).read_to_end(&mut bytes) {
            Ok(_) if bytes.len() <= limit as usize => {
                *into = bytes;
                Ok(true)
            }
            Ok(_) => Err(ShelfErr::TooLong),
            Err(error) if error.kind() == ErrorKind::OutOfMemory => Err(ShelfErr::Memory),
            Err(_) => Err(self.failed()),
        }
    }
}
