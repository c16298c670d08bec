//! A new store.
ghost use Rattle.std.specs.Prelude.{◌≡◌, ◌⊎◌, ℕ, Err, IsSome, IsTrue, List, OnOk};
ghost use Rattle.dbpl_log.specs.Beginning.{IsForeign, IsFree, begun};
ghost use Rattle.dbpl_log.specs.Changes.{WritesLog};
ghost use Rattle.dbpl_log.specs.Records.{HasHead};
ghost use Rattle.dbpl_log.specs.Worlds.{DiskFailed, DiskHeld, Meanwhile, disk_of, log_of, pages_of, synced_of};
ghost use Rattle.dbpl_log.specs.declared.create_err.CreateErr.TheVariants as errors;
ghost use Rattle.dbpl_store.specs.Beginning.{LeavesBegun, MayBecomeEmpty, StandsEmpty};
ghost use Rattle.dbpl_store.specs.Stands.{LeavesOld};
ghost use Rattle.dbpl_world.specs.Counts.{OnlyDiskFaults};
ghost use Rattle.dbpl_world.specs.History.{now};
ghost use Rattle.dbpl_world.specs.Images.{IsImage, settled};

use dbpl_log::CreateErr;
use dbpl_world::World;

/// Makes an empty store of the mounted one. It takes no memory.
pub fn create<W: World>(world: &mut W) -> Result<(), CreateErr>
    requires mounted { IsSome (W.mounted world.old) }
    ensures moments { IsTrue W.tells →
        ((log pages : List ℕ) → IsImage (disk_of W.World world.old).log log →
        IsImage (disk_of W.World world.old).pages pages → MayBecomeEmpty log pages) →
        Meanwhile W.World LeavesBegun world.old world.new }
    ensures made { IsTrue W.tells → OnOk result (StandsEmpty (now (W.history world.new))) }
    ensures bytes { IsTrue W.tells → OnOk result (log_of W.World world.new ≡ begun (log_of W.World world.old)) }
    ensures pages { IsTrue W.tells →
        OnOk result ((disk_of W.World world.new).pages ≡ settled (pages_of W.World world.old)) }
    ensures writes { IsTrue W.tells → Meanwhile W.World WritesLog world.old world.new }

    // Each refusal comes exactly where it says, but for faults, and leaves all as it was. So does any answer over what
    // isn't free.
    ensures free { IsTrue W.tells → OnOk result (IsFree (disk_of W.World world.old)) }
    ensures exists { IsTrue W.tells → result ≡ Err errors.Exists → HasHead (log_of W.World world.old) }
    ensures exists_where { IsTrue W.tells → HasHead (log_of W.World world.old) →
        (result ≡ Err errors.Exists) ⊎ (result ≡ Err errors.Disk) }
    ensures foreign { IsTrue W.tells → result ≡ Err errors.Foreign → IsForeign (disk_of W.World world.old) }
    ensures foreign_where { IsTrue W.tells → IsForeign (disk_of W.World world.old) →
        (result ≡ Err errors.Foreign) ⊎ (result ≡ Err errors.Disk) }
    ensures refused { IsTrue W.tells → (result ≡ Err errors.Exists) ⊎ (result ≡ Err errors.Foreign) →
        Meanwhile W.World LeavesOld world.old world.new }
    // Before it is refused both parts are synced.
    ensures settled { IsTrue W.tells → (result ≡ Err errors.Exists) ⊎ (result ≡ Err errors.Foreign) →
        disk_of W.World world.new ≡ synced_of W.World world.old }
    ensures kept { IsTrue W.tells → (IsFree (disk_of W.World world.old) → ⊥) →
        Meanwhile W.World LeavesOld world.old world.new }

    ensures same { W.mounted world.new ≡ W.mounted world.old }
    ensures counts { OnlyDiskFaults (W.counts world.old) (W.counts world.new) }
    ensures fine { (result ≡ Err errors.Disk) ⊎ DiskHeld W.World world.old world.new }
    ensures cause { result ≡ Err errors.Disk → DiskFailed W.World world.old world.new }
{
    dbpl_log::create(world)
}
