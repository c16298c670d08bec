// A shelf in memory. It tells its files, and fails at the calls that it is told to fail at.
ghost use Rattle.std.specs.Prelude.{◌≡◌, ◌≢◌, ◌+◌, ◌-◌, ◌^◌, ◌≤◌, ◌↔◌, min, map, length, true, Some, option_map, IfOk, Contains};
ghost use Rattle.dbpl_world.specs.Counts.{Rose};
ghost use Rattle.dbpl_world.specs.Files.{Fetches, entries, file_of};

use crate::counts::raised;
use crate::{NoMemory, Shelf, ShelfErr};
use std::alloc::Global;

#[derive(Debug, Drop)]
pub struct MemoryShelf {
    files: Vec<(Vec<u8>, Vec<u8>)>,
    fails: Vec<u64>,
    calls: u64,
    faults: u64,
}

impl MemoryShelf {
    ghost use Rattle.dbpl_world.specs.InShelf.{files_in, shelf_rule};

    /// A shelf with these files, the name of each first. The fetches with the numbers in `fails` fail.
    pub fn make(
        alloc: Global,
        files: &[(Vec<u8>, Vec<u8>)],
        fails: &[u64],
    ) -> Result<MemoryShelf, NoMemory>
        ensures files { IfOk result (λ shelf. files_in shelf ≡ entries files.now) }
        ensures rule { IfOk result (λ shelf. shelf_rule shelf ≡ record { fails = fails.now; calls = 0; faults = 0 }) }
    {
        let mut copies = Vec::new(alloc);
        for (name, bytes) in files {
            copies.push((
                name.as_slice().to_vec(alloc)?,
                bytes.as_slice().to_vec(alloc)?,
            ))?;
        }
        Ok(MemoryShelf {
            files: copies,
            fails: fails.to_vec(alloc)?,
            calls: 0,
            faults: 0,
        })
    }
}

impl Shelf for MemoryShelf {
    ghost use Rattle.dbpl_world.specs.InShelf.{files_in, shelf_rule, after_fetch};

    ghost files = { λ shelf. Some (files_in shelf) };

    ghost shelf_faults = { λ shelf. shelf.faults };

    fn fetch(
        &mut self,
        alloc: Global,
        name: &str,
        limit: u32,
        into: &mut Vec<u8>,
    ) -> Result<bool, ShelfErr>
        ensures answer { Fetches (Some (files_in self.old)) name.now limit result into.new.items }
        ensures within { result ≡ Ok true → length into.new.items ≤ limit }
        ensures kept { result ≢ Ok true → into.new.items ≡ into.old.items }
        ensures files { files_in self.new ≡ files_in self.old }

        // It fails exactly at the listed calls.
        ensures exact { (result ≡ Err ShelfErr.Failed) ↔ Contains (shelf_rule self.old).fails (shelf_rule self.old).calls }
        ensures later { (shelf_rule self.old).faults ≤ (shelf_rule self.new).faults }
        ensures cause { result ≡ Err ShelfErr.Failed → Rose (shelf_rule self.old).faults (shelf_rule self.new).faults }
        ensures counted { shelf_rule self.new ≡ after_fetch result (shelf_rule self.old) }
    {
        let fails = self.fails.contains(&self.calls);
        self.calls = raised(self.calls);
        if fails {
            self.faults = raised(self.faults);
            return Err(ShelfErr::Failed);
        }
        let Some(bytes) = find(self.files.as_slice(), name.as_bytes()) else {
            return Ok(false);
        };
        if bytes.len() > limit as usize {
            return Err(ShelfErr::TooLong);
        }
        let Ok(copy) = bytes.to_vec(alloc) else {
            return Err(ShelfErr::Memory);
        };
        *into = copy;
        Ok(true)
    }
}

/// The bytes of the first file of that name.
fn find<'a>(files: &'a [(Vec<u8>, Vec<u8>)], name: &[u8]) -> Option<&'a [u8]>
    ensures { option_map (λ bytes. bytes.now) result ≡ file_of (entries files.now) name.now }
{
    for (known, bytes) in files {
        if known.as_slice() == name {
            return Some(bytes.as_slice());
        }
    }
    None
}
