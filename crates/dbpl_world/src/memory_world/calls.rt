// The calls of a world in memory. Each is charged first; one that fails changes nothing but its count.
ghost use Rattle.std.specs.Prelude.{◌≡◌, ◌≢◌, ℕ, ◌+◌, ◌-◌, ◌^◌, ◌<◌, ◌≤◌, ◌⊎◌, ◌↔◌, min, Bool, true, List, [], ◌∷◌, ◌++◌, map, length, take, drop, Option, Some, IsTrue, IsSome, IsOk, IfOk, OnOk, OnErr};
ghost use Rattle.dbpl_world.specs.Images.{IsSmeared};
ghost use Rattle.dbpl_world.specs.History.{History, Mounted, Took, Said, Noted, Wrote, Smeared, Synced, by_part, part_of, more, now};
ghost use Rattle.dbpl_world.specs.Counts.{Rose, OnlyTakeFaults, OnlySayFaults, OnlyNoteFaults, OnlyDiskFaults, OnlyReads, take_failed, say_failed, note_failed, disk_failed, part_read, unraised};
ghost use Rattle.dbpl_world.specs.InMemory.{history_of, mounted_in, counts_of, rule_in, room_in, RunsCall};
ghost use Rattle.dbpl_world.specs.Budget.{MustFail, after_call};
ghost use Rattle.std.proofs.Common.{sym};

use super::MemoryWorld;
use crate::counts::raised;
use crate::made_call::{Call, MadeCall};
use crate::part_bytes::{overwrite_part, part_bytes, read_into};
use crate::store_bytes::StoreBytes;
use crate::{Failed, MountErr, Part, World};
use std::alloc::Global;
use std::mem;

impl World for MemoryWorld {
    ghost tells = { true };

    ghost history = { λ world. history_of world };

    ghost mounted = { λ world. mounted_in world };

    ghost counts = { λ world. counts_of world };

    ghost mounted_told = { λ world _. sym world.tied.mounted_is };

    ghost reads_an_image = { λ world _. world.tied.images_are };

    fn mount(&mut self, alloc: Global, name: &str) -> Result<(), MountErr>
        ensures ok { OnOk result (mounted_in self.new ≡ Some name.now) }
        ensures told { OnOk result (history_of self.new ≡ more (history_of self.old) (Mounted name.now ∷ [])) }
        ensures err { OnErr result (mounted_in self.new ≡ mounted_in self.old) }
        ensures unchanged { OnErr result (history_of self.new ≡ history_of self.old) }
        ensures counts { OnlyDiskFaults (counts_of self.old) (counts_of self.new) }

        // It fails exactly where its rule says so. After want of memory all is as before.
        ensures exact { (result ≡ Err MountErr.Failed) ↔ MustFail (rule_in self.old) 0 }
        ensures failed { result ≡ Err MountErr.Failed → counts_of self.new ≡ disk_failed (counts_of self.old) }
        ensures charged { result ≢ Err MountErr.Memory → rule_in self.new ≡ after_call (rule_in self.old) 0 }
        ensures memory { result ≡ Err MountErr.Memory → counts_of self.new ≡ counts_of self.old }
        ensures uncharged { result ≡ Err MountErr.Memory → rule_in self.new ≡ rule_in self.old }
        ensures uncounted { OnOk result (counts_of self.new ≡ counts_of self.old) }
        ensures room { room_in self.new ≡ room_in self.old }
    {
        if !self.budget.allows(0, 0) {
            let number = self.budget.calls;
            let _ = self.budget.charge(0, 0);
            self.counts.disk_faults = raised(self.counts.disk_faults);
            self.record_still(number, Call::Failed);
            return Err(MountErr::Failed);
        }
        let Ok(opened) = self.opened(alloc, name.as_bytes()) else {
            return Err(MountErr::Memory);
        };
        let Ok(()) = self.stores.reserve(1) else {
            return Err(MountErr::Memory);
        };
        let Ok(()) = self.recorded.reserve(self.budget.left + name.len()) else {
            return Err(MountErr::Memory);
        };
        let made = MadeCall {
            number: self.budget.calls,
            call: Call::Mount(name.len()),
        };
        let _ = self.budget.charge(0, 0);
        self.recorded.keep(made, name.as_bytes());
        let known = mem::replace(&mut self.name, Some(opened.name));
        let log = mem::replace(&mut self.log, opened.log);
        let pages = mem::replace(&mut self.pages, opened.pages);
        StoreBytes::set_aside(&mut self.stores, known, log, pages);
        Ok(())
    }

    fn take(&mut self, room: &mut [u8]) -> Result<usize, Failed>
        ensures count { IfOk result (λ n. n ≡ min (length room.old) (length (now (history_of self.old)).input)) }
        ensures ok { IfOk result (λ n. history_of self.new ≡ more (history_of self.old) (Took n ∷ [])) }
        ensures bytes { IfOk result (λ n. take n room.new ≡ take n (now (history_of self.old)).input) }
        ensures same { mounted_in self.new ≡ mounted_in self.old }
        ensures counts { OnlyTakeFaults (counts_of self.old) (counts_of self.new) }
        ensures run { RunsCall self.old self.new 0 unraised take_failed result }
    {
        let number = self.budget.calls;
        if !self.budget.charge(0, 0) {
            self.counts.take_faults = raised(self.counts.take_faults);
            self.record_still(number, Call::Failed);
            return Err(Failed);
        }
        let count = read_into(self.input.as_slice(), self.taken as u64, room);
        self.taken += count;
        let made = MadeCall {
            number,
            call: Call::Take(count),
        };
        self.recorded.keep(made, &[]);
        Ok(count)
    }

    fn say(&mut self, piece: &[u8]) -> Result<usize, Failed>
        ensures count { IfOk result (λ n. n ≡ length piece.now) }
        ensures ok { OnOk result (history_of self.new ≡ more (history_of self.old) (map Said piece.now)) }
        ensures same { mounted_in self.new ≡ mounted_in self.old }
        ensures counts { OnlySayFaults (counts_of self.old) (counts_of self.new) }
        ensures run { RunsCall self.old self.new (length piece.now) unraised say_failed result }
    {
        let number = self.budget.calls;
        if !self.budget.charge(0, piece.len()) {
            self.counts.say_faults = raised(self.counts.say_faults);
            self.record_still(number, Call::Failed);
            return Err(Failed);
        }
        let _ = self.said.extend_from_slice(piece);
        let made = MadeCall {
            number,
            call: Call::Say(piece.len()),
        };
        self.recorded.keep(made, piece);
        Ok(piece.len())
    }

    // Nothing is kept back, so the world stays as it was, and no number is spent.
    fn flush(&mut self) -> Result<(), Failed>
        ensures done { IsOk result }
        ensures still { self.new ≡ self.old }
        ensures unchanged { history_of self.new ≡ history_of self.old }
        ensures same { mounted_in self.new ≡ mounted_in self.old }
        ensures counts { OnlySayFaults (counts_of self.old) (counts_of self.new) }
        ensures uncharged { rule_in self.new ≡ rule_in self.old }
    {
        Ok(())
    }

    fn note(&mut self, piece: &[u8]) -> Result<usize, Failed>
        ensures count { IfOk result (λ n. n ≡ length piece.now) }
        ensures ok { OnOk result (history_of self.new ≡ more (history_of self.old) (map Noted piece.now)) }
        ensures same { mounted_in self.new ≡ mounted_in self.old }
        ensures counts { OnlyNoteFaults (counts_of self.old) (counts_of self.new) }
        ensures run { RunsCall self.old self.new (length piece.now) unraised note_failed result }
    {
        let number = self.budget.calls;
        if !self.budget.charge(0, piece.len()) {
            self.counts.note_faults = raised(self.counts.note_faults);
            self.record_still(number, Call::Failed);
            return Err(Failed);
        }
        let _ = self.noted.extend_from_slice(piece);
        let made = MadeCall {
            number,
            call: Call::Note(piece.len()),
        };
        self.recorded.keep(made, piece);
        Ok(piece.len())
    }

    fn size(&mut self, part: Part) -> Result<u64, Failed>
        requires mounted { IsSome (mounted_in self.old) }
        ensures limit { IfOk result (λ n. n < 2 ^ 63) }
        ensures ok { IfOk result (λ n. n ≡ length (part_of part (now (history_of self.old)).disk).now) }
        ensures unchanged { history_of self.new ≡ history_of self.old }
        ensures same { mounted_in self.new ≡ mounted_in self.old }
        ensures counts { OnlyDiskFaults (counts_of self.old) (counts_of self.new) }
        ensures run { RunsCall self.old self.new 0 unraised disk_failed result }
    {
        let number = self.budget.calls;
        if !self.budget.charge(0, 0) {
            self.counts.disk_faults = raised(self.counts.disk_faults);
            self.record_still(number, Call::Failed);
            return Err(Failed);
        }
        let size = part_bytes(&self.log, &self.pages, part).len() as u64;
        self.record_still(number, Call::Size(part));
        Ok(size)
    }

    fn read_at(&mut self, part: Part, at: u64, into: &mut [u8]) -> Result<usize, Failed>
        requires mounted { IsSome (mounted_in self.old) }
        ensures ok { IfOk result (λ n. n ≡ min (length into.old) (length (part_of part (now (history_of self.old)).disk).now - at)) }
        ensures bytes { IfOk result (λ n. take n into.new ≡ take n (drop at (part_of part (now (history_of self.old)).disk).now)) }
        ensures unchanged { history_of self.new ≡ history_of self.old }
        ensures same { mounted_in self.new ≡ mounted_in self.old }
        ensures counts { OnlyReads part (counts_of self.old) (counts_of self.new) }
        ensures run { RunsCall self.old self.new 0 (part_read part) disk_failed result }
    {
        let number = self.budget.calls;
        if !self.budget.charge(0, 0) {
            self.counts.disk_faults = raised(self.counts.disk_faults);
            self.record_still(number, Call::Failed);
            return Err(Failed);
        }
        let count = read_into(part_bytes(&self.log, &self.pages, part), at, into);
        self.counts.page_reads = page_reads_after(part, self.counts.page_reads);
        self.record_still(number, Call::Read(part, at, count));
        Ok(count)
    }

    fn write_at(&mut self, part: Part, at: u64, bytes: &[u8]) -> Result<(), Failed>
        requires mounted { IsSome (mounted_in self.old) }
        ensures end { OnOk result (at + length bytes.now < 2 ^ 63) }
        ensures ok { OnOk result (history_of self.new ≡ more (history_of self.old) (Wrote part at bytes.now ∷ [])) }
        ensures same { mounted_in self.new ≡ mounted_in self.old }
        ensures counts { OnlyDiskFaults (counts_of self.old) (counts_of self.new) }
        ensures run { RunsCall self.old self.new ((at - length (part_of part (now (history_of self.old)).disk).now) + length bytes.now) unraised disk_failed result }
    {
        let number = self.budget.calls;
        let size = part_bytes(&self.log, &self.pages, part).len();
        let gap = at.saturating_sub(size as u64);
        if !self.budget.charge(gap, bytes.len()) {
            self.counts.disk_faults = raised(self.counts.disk_faults);
            self.record_still(number, Call::Failed);
            return Err(Failed);
        }
        overwrite_part(&mut self.log, &mut self.pages, part, at as usize, bytes);
        let made = MadeCall {
            number,
            call: Call::Write(part, at, bytes.len()),
        };
        self.recorded.keep(made, bytes);
        Ok(())
    }

    fn sync(&mut self, part: Part) -> Result<(), Failed>
        requires mounted { IsSome (mounted_in self.old) }
        ensures ok { OnOk result (history_of self.new ≡ more (history_of self.old) (Synced part ∷ [])) }
        ensures same { mounted_in self.new ≡ mounted_in self.old }
        ensures counts { OnlyDiskFaults (counts_of self.old) (counts_of self.new) }
        ensures run { RunsCall self.old self.new 0 unraised disk_failed result }
    {
        let number = self.budget.calls;
        if !self.budget.charge(0, 0) {
            self.counts.disk_faults = raised(self.counts.disk_faults);
            self.record_still(number, Call::Failed);
            return Err(Failed);
        }
        let made = MadeCall {
            number,
            call: Call::Sync(part),
        };
        self.recorded.keep(made, &[]);
        Ok(())
    }
}

/// The count of page reads after a read of that part.
fn page_reads_after(part: Part, count: u64) -> u64
    ensures { result ≡ by_part part count (min (count + 1) (2 ^ 64 - 1)) }
{
    match part {
        Part::Log => count,
        Part::Pages => raised(count),
    }
}
