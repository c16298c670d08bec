// A new store: the head is written behind a shut gate, which is opened last.
ghost use Rattle.std.specs.Prelude.{◌≡◌, ◌⊎◌, ℕ, Bool, List, ◌∷◌, [], drop, Err, IsTrue, IsSome, OnOk, OnErr};
ghost use Rattle.dbpl_world.specs.Images.{IsImage, settled};
ghost use Rattle.dbpl_world.specs.Counts.{OnlyDiskFaults};
ghost use Rattle.dbpl_log.specs.Records.{HasHead};
ghost use Rattle.dbpl_log.specs.Rest.{HasOnly};
ghost use Rattle.dbpl_log.specs.Beginning.{MayBegin, IsBegun, IsForeign, IsFree, begun};
ghost use Rattle.dbpl_log.specs.Changes.{LeavesLog, ChangesLog, WritesLog, KeepsLog};
ghost use Rattle.dbpl_log.specs.Worlds.{DiskFailed, DiskHeld, Meanwhile, disk_of, log_of, pages_of, synced_of};
ghost use Rattle.dbpl_log.specs.declared.create_err.CreateErr.TheVariants as errors;

use crate::CreateErr;
use crate::head::{begins_shut, has_head};
use crate::syncs::sync_both;
use dbpl_base::limits::PAGE_BYTES;
use dbpl_world::{Failed, Part, World, write_and_sync};

/// What is longer is no unfinished store.
const LONGEST_UNKNOWN: u64 = PAGE_BYTES as u64;

/// Makes a store without records. After a stop within it, it may be called again.
pub fn create<W: World>(world: &mut W) -> Result<(), CreateErr>
    requires mounted { IsSome (W.mounted world.old) }
    // The caller says by a test which records count as none.
    ensures moments { IsTrue W.tells → (are_none : List (List ℕ) → Bool) → IsTrue (are_none []) →
        ((log : List ℕ) → IsImage (disk_of W.World world.old).log log → MayBegin are_none log) →
        Meanwhile W.World (LeavesLog (IsBegun are_none)) world.old world.new }
    ensures made { IsTrue W.tells → OnOk result (HasOnly (disk_of W.World world.new) []) }
    ensures bytes { IsTrue W.tells → OnOk result (log_of W.World world.new ≡ begun (log_of W.World world.old)) }
    ensures writes { IsTrue W.tells → Meanwhile W.World WritesLog world.old world.new }
    ensures pages { IsTrue W.tells →
        OnOk result ((disk_of W.World world.new).pages ≡ settled (pages_of W.World world.old)) }

    // Each refusal comes exactly where it says, but for faults. What isn't free is left as it was, whatever the answer.
    ensures free { IsTrue W.tells → OnOk result (IsFree (disk_of W.World world.old)) }
    ensures exists { IsTrue W.tells → result ≡ Err errors.Exists → HasHead (log_of W.World world.old) }
    ensures exists_where { IsTrue W.tells → HasHead (log_of W.World world.old) →
        (result ≡ Err errors.Exists) ⊎ (result ≡ Err errors.Disk) }
    ensures foreign { IsTrue W.tells → result ≡ Err errors.Foreign → IsForeign (disk_of W.World world.old) }
    ensures foreign_where { IsTrue W.tells → IsForeign (disk_of W.World world.old) →
        (result ≡ Err errors.Foreign) ⊎ (result ≡ Err errors.Disk) }
    ensures refused { IsTrue W.tells → (result ≡ Err errors.Exists) ⊎ (result ≡ Err errors.Foreign) →
        Meanwhile W.World KeepsLog world.old world.new }
    // Before it is refused both parts are synced.
    ensures settled { IsTrue W.tells → (result ≡ Err errors.Exists) ⊎ (result ≡ Err errors.Foreign) →
        disk_of W.World world.new ≡ synced_of W.World world.old }
    ensures kept { IsTrue W.tells → (IsFree (disk_of W.World world.old) → ⊥) →
        Meanwhile W.World KeepsLog world.old world.new }

    ensures same { W.mounted world.new ≡ W.mounted world.old }
    ensures counts { OnlyDiskFaults (W.counts world.old) (W.counts world.new) }
    ensures fine { (result ≡ Err errors.Disk) ⊎ DiskHeld W.World world.old world.new }
    ensures cause { result ≡ Err errors.Disk → DiskFailed W.World world.old world.new }
{
    sync_both(world)?;
    check_free(world)?;
    shut_head(world)?;
    write_and_sync(world, Part::Log, 1, b"DBPL-STORE-0000\0")?;
    write_and_sync(world, Part::Log, 0, &[1])?;
    Ok(())
}

/// Refuses what isn't free for a new store.
fn check_free<W: World>(world: &mut W) -> Result<(), CreateErr>
    requires mounted { IsSome (W.mounted world.old) }
    ensures free { IsTrue W.tells → OnOk result (IsFree (disk_of W.World world.old)) }
    ensures exists { IsTrue W.tells → result ≡ Err errors.Exists → HasHead (log_of W.World world.old) }
    ensures foreign { IsTrue W.tells → result ≡ Err errors.Foreign → IsForeign (disk_of W.World world.old) }
    ensures unchanged { IsTrue W.tells → W.history world.new ≡ W.history world.old }
    ensures same { W.mounted world.new ≡ W.mounted world.old }
    ensures counts { OnlyDiskFaults (W.counts world.old) (W.counts world.new) }
    ensures fine { (result ≡ Err errors.Disk) ⊎ DiskHeld W.World world.old world.new }
    ensures cause { result ≡ Err errors.Disk → DiskFailed W.World world.old world.new }
{
    if has_head(world)? {
        return Err(CreateErr::Exists);
    }
    if world.size(Part::Log)? > LONGEST_UNKNOWN {
        return Err(CreateErr::Foreign);
    }
    if world.size(Part::Pages)? > LONGEST_UNKNOWN {
        return Err(CreateErr::Foreign);
    }
    Ok(())
}

/// Shuts the gate of the head, unless it is shut for sure. Over a gate that is, a write cut short could open it.
fn shut_head<W: World>(world: &mut W) -> Result<(), Failed>
    requires mounted { IsSome (W.mounted world.old) }
    ensures shut { IsTrue W.tells → (log : List ℕ) → (disk_of W.World world.old).log ≡ settled log →
        OnOk result ((disk_of W.World world.new).log ≡ settled (0 ∷ drop 1 log)) }
    ensures moments { IsTrue W.tells → (are_none : List (List ℕ) → Bool) → (log : List ℕ) →
        (disk_of W.World world.old).log ≡ settled log → MayBegin are_none log →
        Meanwhile W.World (LeavesLog (IsBegun are_none)) world.old world.new }
    ensures only_log { IsTrue W.tells → Meanwhile W.World ChangesLog world.old world.new }
    ensures same { W.mounted world.new ≡ W.mounted world.old }
    ensures counts { OnlyDiskFaults (W.counts world.old) (W.counts world.new) }
    ensures fine { OnOk result (DiskHeld W.World world.old world.new) }
    ensures cause { OnErr result (DiskFailed W.World world.old world.new) }
{
    if begins_shut(world)? {
        return Ok(());
    }
    write_and_sync(world, Part::Log, 0, &[0])?;
    Ok(())
}
