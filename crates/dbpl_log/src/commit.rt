// One more record, in two steps: all of it behind a shut gate, and then the gate.
ghost use Rattle.std.specs.Prelude.{◌≡◌, ℕ, ◌+◌, ◌^◌, ◌<◌, List, ◌∷◌, [], ◌++◌, length, IsTrue, IsSome, OnOk, OnErr};
ghost use Rattle.dbpl_world.specs.Images.{settled};
ghost use Rattle.dbpl_world.specs.History.{more};
ghost use Rattle.dbpl_world.specs.Counts.{OnlyDiskFaults};
ghost use Rattle.dbpl_log.specs.Changes.{LeavesLog, ChangesLog, HasFront, HasEither, with_record, staging};
ghost use Rattle.dbpl_log.specs.Rest.{IsAtRest, length_of};
ghost use Rattle.dbpl_log.specs.Worlds.{DiskFailed, DiskHeld, Meanwhile, disk_of, log_of};

use crate::Log;
use dbpl_world::{Failed, Part, World, write_and_sync};

impl Log {
    /// Adds a record behind the others. After a failure the log has it or not, and has to be opened again.
    pub fn commit<W: World>(&mut self, world: &mut W, added: &[u8]) -> Result<(), Failed>
        requires mounted { IsSome (W.mounted world.old) }
        requires short { length added.now < 2 ^ 32 }
        ensures moments { IsTrue W.tells →
            (records : List (List ℕ)) → IsAtRest (disk_of W.World world.old) self.old records →
            Meanwhile W.World (LeavesLog (HasEither records added.now)) world.old world.new }
        ensures committed { IsTrue W.tells →
            (records : List (List ℕ)) → IsAtRest (disk_of W.World world.old) self.old records →
            OnOk result (IsAtRest (disk_of W.World world.new) self.new (records ++ added.now ∷ [])) }
        ensures bytes { IsTrue W.tells →
            (records : List (List ℕ)) → IsAtRest (disk_of W.World world.old) self.old records →
            OnOk result (log_of W.World world.new
            ≡ with_record self.old.gate added.now (log_of W.World world.old)) }
        ensures only_log { IsTrue W.tells → Meanwhile W.World ChangesLog world.old world.new }
        ensures length { OnOk result (length_of self.new ≡ length_of self.old + 5 + length added.now) }
        ensures kept { OnErr result (self.new ≡ self.old) }
        ensures same { W.mounted world.new ≡ W.mounted world.old }
        ensures counts { OnlyDiskFaults (W.counts world.old) (W.counts world.new) }
        ensures fine { OnOk result (DiskHeld W.World world.old world.new) }
        ensures cause { OnErr result (DiskFailed W.World world.old world.new) }
    {
        stage(world, self.gate, added)?;
        write_and_sync(world, Part::Log, self.gate, &[1])?;
        self.gate += 5 + added.len() as u64;
        Ok(())
    }
}

/// Puts a record and the next gate, shut, behind the gate at that place.
fn stage<W: World>(world: &mut W, gate: u64, added: &[u8]) -> Result<(), Failed>
    requires mounted { IsSome (W.mounted world.old) }
    requires room { gate < 2 ^ 63 }
    requires short { length added.now < 2 ^ 32 }
    ensures end { OnOk result (gate + 6 + length added.now < 2 ^ 63) }
    ensures ok { IsTrue W.tells →
        OnOk result (W.history world.new ≡ more (W.history world.old) (staging gate added.now)) }
    ensures moments { IsTrue W.tells → (front rest : List ℕ) →
        (disk_of W.World world.old).log ≡ settled (front ++ rest) → length front ≡ gate + 1 →
        Meanwhile W.World (LeavesLog (HasFront front)) world.old world.new }
    ensures only_log { IsTrue W.tells → Meanwhile W.World ChangesLog world.old world.new }
    ensures same { W.mounted world.new ≡ W.mounted world.old }
    ensures counts { OnlyDiskFaults (W.counts world.old) (W.counts world.new) }
    ensures fine { OnOk result (DiskHeld W.World world.old world.new) }
    ensures cause { OnErr result (DiskFailed W.World world.old world.new) }
{
    let field = (added.len() as u32).to_le_bytes();
    world.write_at(Part::Log, gate + 1, &field)?;
    world.write_at(Part::Log, gate + 5, added)?;
    world.write_at(Part::Log, gate + 5 + added.len() as u64, &[0])?;
    world.sync(Part::Log)?;
    Ok(())
}
