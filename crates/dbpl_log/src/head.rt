// The first bytes of a log.
ghost use Rattle.std.specs.Prelude.{◌≡◌, ◌↔◌, ◌∷◌, drop, IsTrue, IsSome, IfOk, OnErr, OnOk};
ghost use Rattle.dbpl_world.specs.Counts.{OnlyDiskFaults};
ghost use Rattle.dbpl_log.specs.Records.{HasHead};
ghost use Rattle.dbpl_log.specs.Worlds.{DiskFailed, DiskHeld, log_of};

use dbpl_world::{Failed, Part, World};

/// Whether the log begins with an open head.
pub(crate) fn has_head<W: World>(world: &mut W) -> Result<bool, Failed>
    requires mounted { IsSome (W.mounted world.old) }
    ensures ok { IsTrue W.tells → IfOk result (λ found. IsTrue found ↔ HasHead (log_of W.World world.old)) }
    ensures unchanged { IsTrue W.tells → W.history world.new ≡ W.history world.old }
    ensures same { W.mounted world.new ≡ W.mounted world.old }
    ensures counts { OnlyDiskFaults (W.counts world.old) (W.counts world.new) }
    ensures fine { OnOk result (DiskHeld W.World world.old world.new) }
    ensures cause { OnErr result (DiskFailed W.World world.old world.new) }
{
    let mut head = [0; 16];
    let count = world.read_at(Part::Log, 0, &mut head)?;
    Ok(count == 16 && head == *b"\x01DBPL-STORE-0000")
}

/// Whether the log begins with a shut gate that was written as 0.
pub(crate) fn begins_shut<W: World>(world: &mut W) -> Result<bool, Failed>
    requires mounted { IsSome (W.mounted world.old) }
    ensures ok { IsTrue W.tells →
        IfOk result (λ shut. IsTrue shut ↔ (log_of W.World world.old ≡ 0 ∷ drop 1 (log_of W.World world.old))) }
    ensures unchanged { IsTrue W.tells → W.history world.new ≡ W.history world.old }
    ensures same { W.mounted world.new ≡ W.mounted world.old }
    ensures counts { OnlyDiskFaults (W.counts world.old) (W.counts world.new) }
    ensures fine { OnOk result (DiskHeld W.World world.old world.new) }
    ensures cause { OnErr result (DiskFailed W.World world.old world.new) }
{
    let mut gate = [1];
    let count = world.read_at(Part::Log, 0, &mut gate)?;
    Ok(count == 1 && gate[0] == 0)
}
