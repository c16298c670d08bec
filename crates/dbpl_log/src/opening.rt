// A log opened: made sure of, read, and left as it is.
ghost use Rattle.std.specs.Prelude.{◌≡◌, ◌⊎◌, ◌^◌, ◌<◌, ℕ, List, Some, None, Err, IsTrue, IsSome, IfOk, IfErr, OnOk, vec_len};
ghost use Rattle.dbpl_world.specs.Images.{IsImage};
ghost use Rattle.dbpl_world.specs.Counts.{OnlyDiskFaults};
ghost use Rattle.dbpl_log.specs.Records.{HasHead, records_of};
ghost use Rattle.dbpl_log.specs.Rest.{IsAtRest, records_in};
ghost use Rattle.dbpl_log.specs.Changes.{OnlySyncs, KeepsLog};
ghost use Rattle.dbpl_log.specs.Worlds.{DiskFailed, DiskHeld, Meanwhile, disk_of, log_of, synced_of};
ghost use Rattle.dbpl_log.specs.declared.open_err.OpenErr.TheVariants as errors;

use crate::head::has_head;
use crate::reading::read_records;
use crate::syncs::sync_both;
use crate::{OpenErr, Opened};
use dbpl_world::{Part, World};
use std::alloc::Global;

/// Opens the log of the mounted store. It writes nothing: what a stop has left is made sure of, and read.
pub fn open<W: World>(alloc: Global, world: &mut W) -> Result<Opened, OpenErr>
    requires mounted { IsSome (W.mounted world.old) }
    ensures records { IsTrue W.tells →
        IfOk result (λ opened. records_of (log_of W.World world.old) ≡ Some (records_in opened)) }
    ensures at_rest { IsTrue W.tells →
        IfOk result (λ opened. IsAtRest (disk_of W.World world.new) opened.log (records_in opened)) }
    ensures stood { IsTrue W.tells → (records : List (List ℕ)) →
        ((log : List ℕ) → IsImage (disk_of W.World world.old).log log → records_of log ≡ Some records) →
        IfOk result (λ opened. records_in opened ≡ records) }
    ensures synced { IsTrue W.tells → OnOk result (disk_of W.World world.new ≡ synced_of W.World world.old) }
    ensures only_syncs { IsTrue W.tells → Meanwhile W.World OnlySyncs world.old world.new }
    ensures moments { IsTrue W.tells → Meanwhile W.World KeepsLog world.old world.new }

    // Each refusal comes exactly where it says, but for faults and want of memory, and once both parts are synced.
    ensures settled { IsTrue W.tells → (result ≡ Err errors.NotStore) ⊎ (result ≡ Err errors.Damaged) →
        disk_of W.World world.new ≡ synced_of W.World world.old }
    ensures not_store { IsTrue W.tells → result ≡ Err errors.NotStore →
        HasHead (log_of W.World world.old) → ⊥ }
    ensures not_store_where { IsTrue W.tells → (HasHead (log_of W.World world.old) → ⊥) →
        (result ≡ Err errors.NotStore) ⊎ (result ≡ Err errors.Disk) }
    ensures damaged { IsTrue W.tells → result ≡ Err errors.Damaged →
        HasHead (log_of W.World world.old) × (records_of (log_of W.World world.old) ≡ None) }
    ensures damaged_where { IsTrue W.tells → HasHead (log_of W.World world.old) →
        records_of (log_of W.World world.old) ≡ None →
        (result ≡ Err errors.Damaged) ⊎ ((result ≡ Err errors.Disk) ⊎ (result ≡ Err errors.Memory)) }

    ensures same { W.mounted world.new ≡ W.mounted world.old }
    ensures counts { OnlyDiskFaults (W.counts world.old) (W.counts world.new) }
    ensures fine { (result ≡ Err errors.Disk) ⊎ DiskHeld W.World world.old world.new }
    ensures cause { result ≡ Err errors.Disk → DiskFailed W.World world.old world.new }
{
    sync_both(world)?;
    if !has_head(world)? {
        return Err(OpenErr::NotStore);
    }
    let log = read_log(alloc, world)?;
    match read_records(alloc, &log)? {
        Some(opened) => Ok(opened),
        None => Err(OpenErr::Damaged),
    }
}

/// All bytes of the log.
fn read_log<W: World>(alloc: Global, world: &mut W) -> Result<Vec<u8>, OpenErr>
    requires mounted { IsSome (W.mounted world.old) }
    ensures bytes { IsTrue W.tells → IfOk result (λ log. log.items ≡ log_of W.World world.old) }
    ensures limit { IfOk result (λ log. vec_len log < 2 ^ 63) }
    ensures errors { IfErr result (λ e. (e ≡ errors.Disk) ⊎ (e ≡ errors.Memory)) }
    ensures unchanged { IsTrue W.tells → W.history world.new ≡ W.history world.old }
    ensures same { W.mounted world.new ≡ W.mounted world.old }
    ensures counts { OnlyDiskFaults (W.counts world.old) (W.counts world.new) }
    ensures fine { (result ≡ Err errors.Disk) ⊎ DiskHeld W.World world.old world.new }
    ensures cause { result ≡ Err errors.Disk → DiskFailed W.World world.old world.new }
{
    let size = world.size(Part::Log)?;
    let mut log = vec![in alloc; 0; size as usize]?;
    let count = world.read_at(Part::Log, 0, &mut log)?;
    log.truncate(count);
    Ok(log)
}
