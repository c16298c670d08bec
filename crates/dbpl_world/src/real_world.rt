// The world of a process: standard input, output and error, and the two files of a store. It tells nothing: what the
// system does is outside every contract. Its counts and limits are proved, and that no said byte is lost on the way out.
ghost use Rattle.std.specs.Prelude.{◌≡◌, ◌+◌, ◌^◌, ◌<◌, ◌≤◌, false, [], ◌++◌, None, Some, Err, option_map, IsSome, IfOk, OnOk, OnErr, length, take};
ghost use Rattle.dbpl_world.specs.Counts.{Counts, Rose, OnlyTakeFaults, OnlySayFaults, OnlyNoteFaults, OnlyDiskFaults};
ghost use Rattle.dbpl_world.specs.Kept.{kept_in};
ghost use Rattle.std.specs.Io.KnownBytes.{Appends};
ghost use Rattle.dbpl_world.specs.Unheard.{silence, unheard};

use crate::counts::raised;
use crate::kept_output::{KeptOutput, write_some};
use crate::store_files::StoreFiles;
use crate::store_paths::store_paths;
use crate::{Counts, Failed, MountErr, Part, World};
use std::alloc::Global;
use std::fs::File;
use std::io::{ErrorKind, Read, Write};
use std::rt::Files;

/// What is said is kept back until an array is full, or another call but `say`, `size` and `read_at` comes.
#[derive(Drop)]
pub struct RealWorld<R, I, O, E> {
    rt: R,
    input: I,
    output: KeptOutput<O>,
    errors: E,
    store: Option<StoreFiles>,
    counts: Counts,
}

impl<R: Files<File = File>, I: Read, O: Write, E: Write> RealWorld<R, I, O, E> {
    /// A world with no store mounted.
    pub fn new(rt: R, input: I, output: O, errors: E) -> Self
        ensures mounted { ⟦<RealWorld<R, I, O, E> as World>⟧.mounted result ≡ None }
        ensures counts { ⟦<RealWorld<R, I, O, E> as World>⟧.counts result ≡ record { take_faults = 0; say_faults = 0; note_faults = 0; disk_faults = 0; page_reads = 0 } }
    {
        RealWorld {
            rt,
            input,
            output: KeptOutput::new(output),
            errors,
            store: None,
            counts: Counts::ZERO,
        }
    }
}

impl<R: Files<File = File>, I: Read, O: Write, E: Write> World for RealWorld<R, I, O, E> {
    ghost tells = { false };

    ghost history = { λ _. silence };

    ghost mounted = { λ world. option_map (λ store. store.name.items) world.store };

    ghost counts = { λ world. world.counts };

    ghost mounted_told = { λ _ told. unheard told };

    ghost reads_an_image = { λ _ told. unheard told };

    fn mount(&mut self, alloc: Global, name: &str) -> Result<(), MountErr>
        ensures none { kept_in self.new.output ≡ [] }
        ensures ok { OnOk result (⟦<RealWorld<R, I, O, E> as World>⟧.mounted self.new ≡ Some name.now) }
        ensures err { OnErr result (⟦<RealWorld<R, I, O, E> as World>⟧.mounted self.new ≡ ⟦<RealWorld<R, I, O, E> as World>⟧.mounted self.old) }
        ensures memory { result ≡ Err MountErr.Memory → self.new.counts ≡ self.old.counts }
        ensures counts { OnlyDiskFaults self.old.counts self.new.counts }
        ensures fine { OnOk result (self.new.counts.disk_faults ≡ self.old.counts.disk_faults) }
        ensures cause { result ≡ Err MountErr.Failed → Rose self.old.counts.disk_faults self.new.counts.disk_faults }
    {
        let _ = self.output.write_out();
        let is_unsure = match &self.store {
            Some(store) if store.name.as_slice() == name.as_bytes() => return Ok(()),
            Some(store) => store.is_unsure(),
            None => false,
        };
        let Ok(paths) = store_paths(alloc, name) else {
            return Err(MountErr::Memory);
        };
        let Ok(bytes) = name.as_bytes().to_vec(alloc) else {
            return Err(MountErr::Memory);
        };
        match StoreFiles::open(&self.rt, bytes, paths, is_unsure) {
            Ok(store) => {
                self.store = Some(store);
                Ok(())
            }
            Err(Failed) => {
                self.counts.disk_faults = raised(self.counts.disk_faults);
                Err(MountErr::Failed)
            }
        }
    }

    fn take(&mut self, room: &mut [u8]) -> Result<usize, Failed>
        ensures none { kept_in self.new.output ≡ [] }
        ensures count { IfOk result (λ n. n ≤ length room.old) }
        ensures same { ⟦<RealWorld<R, I, O, E> as World>⟧.mounted self.new ≡ ⟦<RealWorld<R, I, O, E> as World>⟧.mounted self.old }
        ensures counts { OnlyTakeFaults self.old.counts self.new.counts }
        ensures cause { OnErr result (Rose self.old.counts.take_faults self.new.counts.take_faults) }
    {
        let _ = self.output.write_out();
        counted(
            read_some(&mut self.input, room),
            &mut self.counts.take_faults,
        )
    }

    fn say(&mut self, piece: &[u8]) -> Result<usize, Failed>
        ensures count { IfOk result (λ n. (n ≤ length piece.now) × (0 < length piece.now → 0 < n)) }

        // Each byte said is kept back, behind those before it, which are kept too or written.
        ensures behind { IfOk result (λ n. length (kept_in self.old.output) < 8192 → (kept_in self.new.output ≡ kept_in self.old.output ++ take n piece.now) × (self.new.output.output ≡ self.old.output.output)) }
        ensures full { IfOk result (λ n. length (kept_in self.old.output) ≡ 8192 → (kept_in self.new.output ≡ take n piece.now) × Appends (O.contents self.old.output.output) (O.contents self.new.output.output) (kept_in self.old.output)) }
        ensures same { ⟦<RealWorld<R, I, O, E> as World>⟧.mounted self.new ≡ ⟦<RealWorld<R, I, O, E> as World>⟧.mounted self.old }
        ensures counts { OnlySayFaults self.old.counts self.new.counts }
        ensures fine { OnOk result (self.new.counts.say_faults ≡ self.old.counts.say_faults) }
        ensures cause { OnErr result (Rose self.old.counts.say_faults self.new.counts.say_faults) }
    {
        counted(self.output.keep(piece), &mut self.counts.say_faults)
    }

    fn flush(&mut self) -> Result<(), Failed>
        ensures none { kept_in self.new.output ≡ [] }
        ensures written { OnOk result (Appends (O.contents self.old.output.output) (O.contents self.new.output.output) (kept_in self.old.output)) }
        ensures same { ⟦<RealWorld<R, I, O, E> as World>⟧.mounted self.new ≡ ⟦<RealWorld<R, I, O, E> as World>⟧.mounted self.old }
        ensures counts { OnlySayFaults self.old.counts self.new.counts }
        ensures fine { OnOk result (self.new.counts.say_faults ≡ self.old.counts.say_faults) }
        ensures cause { OnErr result (Rose self.old.counts.say_faults self.new.counts.say_faults) }
    {
        counted(self.output.write_out(), &mut self.counts.say_faults)
    }

    fn note(&mut self, piece: &[u8]) -> Result<usize, Failed>
        ensures none { kept_in self.new.output ≡ [] }
        ensures count { IfOk result (λ n. (n ≤ length piece.now) × (0 < length piece.now → 0 < n)) }
        ensures same { ⟦<RealWorld<R, I, O, E> as World>⟧.mounted self.new ≡ ⟦<RealWorld<R, I, O, E> as World>⟧.mounted self.old }
        ensures counts { OnlyNoteFaults self.old.counts self.new.counts }
        ensures cause { OnErr result (Rose self.old.counts.note_faults self.new.counts.note_faults) }
    {
        let _ = self.output.write_out();
        counted(
            write_some(&mut self.errors, piece),
            &mut self.counts.note_faults,
        )
    }

    fn size(&mut self, part: Part) -> Result<u64, Failed> {
        let size = match &self.store {
            Some(store) => store.size(part),
            None => unreachable!(),
        };
        counted(size, &mut self.counts.disk_faults)
    }

    fn read_at(&mut self, part: Part, at: u64, into: &mut [u8]) -> Result<usize, Failed> {
        let read = match &self.store {
            Some(store) => store.read(part, at, into),
            None => unreachable!(),
        };
        if part == Part::Pages {
            self.counts.page_reads = raised(self.counts.page_reads);
        }
        counted(read, &mut self.counts.disk_faults)
    }

    fn write_at(&mut self, part: Part, at: u64, bytes: &[u8]) -> Result<(), Failed>
        requires mounted { IsSome (⟦<RealWorld<R, I, O, E> as World>⟧.mounted self.old) }
        ensures none { kept_in self.new.output ≡ [] }
        ensures end { OnOk result (at + length bytes.now < 2 ^ 63) }
        ensures same { ⟦<RealWorld<R, I, O, E> as World>⟧.mounted self.new ≡ ⟦<RealWorld<R, I, O, E> as World>⟧.mounted self.old }
        ensures counts { OnlyDiskFaults self.old.counts self.new.counts }
        ensures fine { OnOk result (self.new.counts.disk_faults ≡ self.old.counts.disk_faults) }
        ensures cause { OnErr result (Rose self.old.counts.disk_faults self.new.counts.disk_faults) }
    {
        let _ = self.output.write_out();
        let written = match &mut self.store {
            Some(store) => store.write(&self.rt, part, at, bytes),
            None => unreachable!(),
        };
        counted(written, &mut self.counts.disk_faults)
    }

    fn sync(&mut self, part: Part) -> Result<(), Failed>
        requires mounted { IsSome (⟦<RealWorld<R, I, O, E> as World>⟧.mounted self.old) }
        ensures none { kept_in self.new.output ≡ [] }
        ensures same { ⟦<RealWorld<R, I, O, E> as World>⟧.mounted self.new ≡ ⟦<RealWorld<R, I, O, E> as World>⟧.mounted self.old }
        ensures counts { OnlyDiskFaults self.old.counts self.new.counts }
        ensures fine { OnOk result (self.new.counts.disk_faults ≡ self.old.counts.disk_faults) }
        ensures cause { OnErr result (Rose self.old.counts.disk_faults self.new.counts.disk_faults) }
    {
        let _ = self.output.write_out();
        let synced = match &mut self.store {
            Some(store) => store.sync(&self.rt, part),
            None => unreachable!(),
        };
        counted(synced, &mut self.counts.disk_faults)
    }
}

/// The same outcome, with a fault counted.
fn counted<T: Drop>(outcome: Result<T, Failed>, faults: &mut u64) -> Result<T, Failed>
    ensures same { result ≡ outcome }
    ensures fine { OnOk result (faults.new ≡ faults.old) }
    ensures later { faults.old ≤ faults.new }
    ensures cause { OnErr result (Rose faults.old faults.new) }
{
    if outcome.is_err() {
        *faults = raised(*faults);
    }
    outcome
}

/// Reads some bytes of the input, and none only at its end.
fn read_some<I: Read>(input: &mut I, room: &mut [u8]) -> Result<usize, Failed>
    ensures { IfOk result (λ count. count ≤ length room.old) }
{
    for _ in 0..u64::MAX {
        match input.read(room) {
            Ok(count) => return Ok(count),
            Err(error) if error.kind() == ErrorKind::Interrupted => {}
            Err(_) => return Err(Failed),
        }
    }
    Err(Failed)
}
