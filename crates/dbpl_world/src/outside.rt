// What a database meets outside: the input, what is said and noted, and the two parts of a store.
ghost use Rattle.std.specs.Prelude.{◌≡◌, ℕ, ◌+◌, ◌-◌, ◌^◌, ◌<◌, ◌≤◌, ◌⊎◌, ◌↔◌, min, Bool, List, [], ◌∷◌, map, length, take, drop, Option, Some, IsTrue, IsSome, IfOk, OnOk, OnErr};
ghost use Rattle.dbpl_world.specs.Images.{IsSmeared};
ghost use Rattle.dbpl_world.specs.History.{History, Mounted, Took, Said, Noted, Wrote, Smeared, Synced, AllReadAnImage, part_of, more, now};
ghost use Rattle.dbpl_world.specs.Counts.{Counts, Rose, OnlyTakeFaults, OnlySayFaults, OnlyNoteFaults, OnlyDiskFaults, OnlyReads};

use crate::{Failed, MountErr, Part};
use std::alloc::Global;

pub trait World {
    /// Whether worlds of this type tell what has happened.
    ghost tells: { Bool };

    /// All that has happened, where it is told.
    ghost history: { Self → History };

    /// The name of the mounted store, which each world tells.
    ghost mounted: { Self → Option (List ℕ) };

    ghost counts: { Self → Counts };

    /// Picks the store of that name. Of all calls it alone takes memory.
    fn mount(&mut self, alloc: Global, name: &str) -> Result<(), MountErr>
        ensures ok { OnOk result (mounted self.new ≡ Some name.now) }
        ensures told { IsTrue tells → OnOk result (history self.new ≡ more (history self.old) (Mounted name.now ∷ [])) }

        ensures err { OnErr result (mounted self.new ≡ mounted self.old) }
        ensures unchanged { IsTrue tells → OnErr result (history self.new ≡ history self.old) }
        ensures memory { result ≡ Err MountErr.Memory → counts self.new ≡ counts self.old }

        ensures counts { OnlyDiskFaults (counts self.old) (counts self.new) }
        ensures fine { OnOk result ((counts self.new).disk_faults ≡ (counts self.old).disk_faults) }
        ensures cause { result ≡ Err MountErr.Failed → Rose (counts self.old).disk_faults (counts self.new).disk_faults };

    /// Takes the next bytes of the input.
    fn take(&mut self, room: &mut [u8]) -> Result<usize, Failed>
        ensures count { IfOk result (λ n. n ≤ length room.old) }
        ensures ok { IsTrue tells → IfOk result (λ n. history self.new ≡ more (history self.old) (Took n ∷ [])) }
        ensures bytes { IsTrue tells → IfOk result (λ n. take n room.new ≡ take n (now (history self.old)).input) }
        ensures end { IsTrue tells → IfOk result (λ n. 0 < length room.old → (n ≡ 0) ↔ ((now (history self.old)).input ≡ [])) }

        // One that failed has taken some front of the input, perhaps none.
        ensures err { IsTrue tells → OnErr result ((history self.new ≡ history self.old)
            ⊎ ((n : ℕ) × (history self.new ≡ more (history self.old) (Took n ∷ [])))) }

        ensures same { mounted self.new ≡ mounted self.old }
        ensures counts { OnlyTakeFaults (counts self.old) (counts self.new) }
        ensures cause { OnErr result (Rose (counts self.old).take_faults (counts self.new).take_faults) };

    /// Says some front of the piece, and of a piece that isn't empty at least one byte.
    fn say(&mut self, piece: &[u8]) -> Result<usize, Failed>
        ensures count { IfOk result (λ n. (n ≤ length piece.now) × (0 < length piece.now → 0 < n)) }
        ensures ok { IsTrue tells → IfOk result (λ n. history self.new ≡ more (history self.old) (map Said (take n piece.now))) }
        ensures err { IsTrue tells → OnErr result ((n : ℕ) × (history self.new ≡ more (history self.old) (map Said (take n piece.now)))) }

        ensures same { mounted self.new ≡ mounted self.old }
        ensures counts { OnlySayFaults (counts self.old) (counts self.new) }
        ensures fine { OnOk result ((counts self.new).say_faults ≡ (counts self.old).say_faults) }
        ensures cause { OnErr result (Rose (counts self.old).say_faults (counts self.new).say_faults) };

    /// Writes out what was said and is still kept back. What was said stays said.
    fn flush(&mut self) -> Result<(), Failed>
        ensures unchanged { IsTrue tells → history self.new ≡ history self.old }
        ensures same { mounted self.new ≡ mounted self.old }
        ensures counts { OnlySayFaults (counts self.old) (counts self.new) }
        ensures fine { OnOk result ((counts self.new).say_faults ≡ (counts self.old).say_faults) }
        ensures cause { OnErr result (Rose (counts self.old).say_faults (counts self.new).say_faults) };

    /// Notes some front of the piece, and of a piece that isn't empty at least one byte.
    fn note(&mut self, piece: &[u8]) -> Result<usize, Failed>
        ensures count { IfOk result (λ n. (n ≤ length piece.now) × (0 < length piece.now → 0 < n)) }
        ensures ok { IsTrue tells → IfOk result (λ n. history self.new ≡ more (history self.old) (map Noted (take n piece.now))) }
        ensures err { IsTrue tells → OnErr result ((n : ℕ) × (history self.new ≡ more (history self.old) (map Noted (take n piece.now)))) }

        ensures same { mounted self.new ≡ mounted self.old }
        ensures counts { OnlyNoteFaults (counts self.old) (counts self.new) }
        ensures cause { OnErr result (Rose (counts self.old).note_faults (counts self.new).note_faults) };

    /// How many bytes the part has.
    fn size(&mut self, part: Part) -> Result<u64, Failed>
        requires mounted { IsSome (mounted self.old) }
        ensures limit { IfOk result (λ n. n < 2 ^ 63) }
        ensures ok { IsTrue tells → IfOk result (λ n. n ≡ length (part_of part (now (history self.old)).disk).now) }

        ensures unchanged { IsTrue tells → history self.new ≡ history self.old }
        ensures same { mounted self.new ≡ mounted self.old }
        ensures counts { OnlyDiskFaults (counts self.old) (counts self.new) }
        ensures fine { OnOk result ((counts self.new).disk_faults ≡ (counts self.old).disk_faults) }
        ensures cause { OnErr result (Rose (counts self.old).disk_faults (counts self.new).disk_faults) };

    /// Reads the bytes of the part from that place on, as many as there are up to the room.
    fn read_at(&mut self, part: Part, at: u64, into: &mut [u8]) -> Result<usize, Failed>
        requires mounted { IsSome (mounted self.old) }
        ensures count { IfOk result (λ n. n ≤ length into.old) }
        ensures ok { IsTrue tells → IfOk result (λ n. n ≡ min (length into.old) (length (part_of part (now (history self.old)).disk).now - at)) }
        ensures bytes { IsTrue tells → IfOk result (λ n. take n into.new ≡ take n (drop at (part_of part (now (history self.old)).disk).now)) }

        ensures unchanged { IsTrue tells → history self.new ≡ history self.old }
        ensures same { mounted self.new ≡ mounted self.old }
        ensures counts { OnlyReads part (counts self.old) (counts self.new) }
        ensures fine { OnOk result ((counts self.new).disk_faults ≡ (counts self.old).disk_faults) }
        ensures cause { OnErr result (Rose (counts self.old).disk_faults (counts self.new).disk_faults) };

    /// Writes all the bytes at that place. A write past the end extends the part, with zeros in a gap.
    fn write_at(&mut self, part: Part, at: u64, bytes: &[u8]) -> Result<(), Failed>
        requires mounted { IsSome (mounted self.old) }
        ensures end { OnOk result (at + length bytes.now < 2 ^ 63) }
        ensures ok { IsTrue tells → OnOk result (history self.new ≡ more (history self.old) (Wrote part at bytes.now ∷ [])) }

        // One that failed has written any part of its range, or nothing.
        ensures err { IsTrue tells → OnErr result ((history self.new ≡ history self.old)
            ⊎ ((after : List ℕ) × IsSmeared at (length bytes.now) (part_of part (now (history self.old)).disk).now after
            × (history self.new ≡ more (history self.old) (Smeared part at (length bytes.now) after ∷ [])))) }

        ensures same { mounted self.new ≡ mounted self.old }
        ensures counts { OnlyDiskFaults (counts self.old) (counts self.new) }
        ensures fine { OnOk result ((counts self.new).disk_faults ≡ (counts self.old).disk_faults) }
        ensures cause { OnErr result (Rose (counts self.old).disk_faults (counts self.new).disk_faults) };

    /// After it a stop leaves of the part what a read gives. One that failed changes nothing.
    fn sync(&mut self, part: Part) -> Result<(), Failed>
        requires mounted { IsSome (mounted self.old) }
        ensures ok { IsTrue tells → OnOk result (history self.new ≡ more (history self.old) (Synced part ∷ [])) }
        ensures err { IsTrue tells → OnErr result (history self.new ≡ history self.old) }

        ensures same { mounted self.new ≡ mounted self.old }
        ensures counts { OnlyDiskFaults (counts self.old) (counts self.new) }
        ensures fine { OnOk result ((counts self.new).disk_faults ≡ (counts self.old).disk_faults) }
        ensures cause { OnErr result (Rose (counts self.old).disk_faults (counts self.new).disk_faults) };

    /// The mounted store is the one that was mounted last.
    ghost mounted_told: { (world : Self) → IsTrue tells → mounted world ≡ (now (history world)).mounted };

    /// What a read gives is always one of the images of each part of each store.
    ghost reads_an_image: { (world : Self) → IsTrue tells → AllReadAnImage (now (history world)) };
}
