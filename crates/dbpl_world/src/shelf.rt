// Where program texts come from.
ghost use Rattle.std.specs.Prelude.{◌≡◌, ◌≢◌, ◌≤◌, ℕ, length, true, Option};
ghost use Rattle.dbpl_world.specs.Counts.{Rose};
ghost use Rattle.dbpl_world.specs.Files.{Files, Fetches};

use crate::ShelfErr;
use std::alloc::Global;

pub trait Shelf {
    /// The files, where this shelf tells them.
    ghost files: { Self → Option Files };

    /// How often a fetch has failed.
    ghost shelf_faults: { Self → ℕ };

    /// Puts the bytes of the file of that name for those of `into`, and answers whether there is such a file.
    fn fetch(
        &mut self,
        alloc: Global,
        name: &str,
        limit: u32,
        into: &mut Vec<u8>,
    ) -> Result<bool, ShelfErr>
        ensures answer { Fetches (files self.old) name.now limit result into.new.items }
        ensures within { result ≡ Ok true → length into.new.items ≤ limit }
        ensures kept { result ≢ Ok true → into.new.items ≡ into.old.items }
        ensures files { files self.new ≡ files self.old }
        ensures fine { result ≢ Err ShelfErr.Failed → shelf_faults self.new ≡ shelf_faults self.old }
        ensures later { shelf_faults self.old ≤ shelf_faults self.new }
        ensures cause { result ≡ Err ShelfErr.Failed → Rose (shelf_faults self.old) (shelf_faults self.new) };
}
