// Both parts made sure of, before anything is read or written.
ghost use Rattle.std.specs.Prelude.{◌≡◌, ◌∷◌, [], IsTrue, IsSome, OnOk, OnErr};
ghost use Rattle.dbpl_world.specs.History.{Synced, more};
ghost use Rattle.dbpl_world.specs.declared.part.Part.TheVariants.{Log, Pages};
ghost use Rattle.dbpl_world.specs.Counts.{OnlyDiskFaults};
ghost use Rattle.dbpl_log.specs.Changes.{OnlySyncs, KeepsLog};
ghost use Rattle.dbpl_log.specs.Worlds.{DiskFailed, DiskHeld, Meanwhile};

use dbpl_world::{Failed, Part, World};

pub(crate) fn sync_both<W: World>(world: &mut W) -> Result<(), Failed>
    requires mounted { IsSome (W.mounted world.old) }
    ensures ok { IsTrue W.tells →
        OnOk result (W.history world.new ≡ more (W.history world.old) (Synced Log ∷ Synced Pages ∷ [])) }
    ensures moments { IsTrue W.tells → Meanwhile W.World KeepsLog world.old world.new }
    ensures only_syncs { IsTrue W.tells → Meanwhile W.World OnlySyncs world.old world.new }
    ensures same { W.mounted world.new ≡ W.mounted world.old }
    ensures counts { OnlyDiskFaults (W.counts world.old) (W.counts world.new) }
    ensures fine { OnOk result (DiskHeld W.World world.old world.new) }
    ensures cause { OnErr result (DiskFailed W.World world.old world.new) }
{
    world.sync(Part::Log)?;
    world.sync(Part::Pages)?;
    Ok(())
}
