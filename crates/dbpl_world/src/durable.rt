// A write that is on the disk when it is done.
ghost use Rattle.std.specs.Prelude.{◌≡◌, ◌+◌, ◌^◌, ◌<◌, List, ℕ, [], ◌∷◌, length, IsTrue, IsSome, OnOk, OnErr};
ghost use Rattle.dbpl_world.specs.Images.{IsImage, written};
ghost use Rattle.dbpl_world.specs.History.{Wrote, Synced, part_of, more, now};
ghost use Rattle.dbpl_world.specs.Moments.{EachMoment};
ghost use Rattle.dbpl_world.specs.Writing.{IsWriting};
ghost use Rattle.dbpl_world.specs.Counts.{Rose, OnlyDiskFaults};

use crate::{Failed, Part, World};

/// Writes these bytes at that place of the part, and syncs it. After it a stop leaves them.
pub fn write_and_sync<W: World>(
    world: &mut W,
    part: Part,
    at: u64,
    bytes: &[u8],
) -> Result<(), Failed>
    requires mounted { IsSome (W.mounted world.old) }
    ensures end { OnOk result (at + length bytes.now < 2 ^ 63) }
    ensures ok { IsTrue W.tells → OnOk result (W.history world.new ≡ more (W.history world.old) (Wrote part at bytes.now ∷ Synced part ∷ [])) }
    ensures images { IsTrue W.tells → OnOk result ((left : List ℕ) → IsImage (part_of part (now (W.history world.new)).disk) left → left ≡ written (part_of part (now (W.history world.old)).disk).now at bytes.now) }
    ensures moments { IsTrue W.tells → EachMoment (IsWriting part at bytes.now (now (W.history world.old))) (W.history world.old) (W.history world.new) }
    ensures same { W.mounted world.new ≡ W.mounted world.old }
    ensures counts { OnlyDiskFaults (W.counts world.old) (W.counts world.new) }
    ensures fine { OnOk result ((W.counts world.new).disk_faults ≡ (W.counts world.old).disk_faults) }
    ensures cause { OnErr result (Rose (W.counts world.old).disk_faults (W.counts world.new).disk_faults) }
{
    world.write_at(part, at, bytes)?;
    world.sync(part)?;
    Ok(())
}
