//! A commit: the log gets the database as one more record.
ghost use Rattle.std.specs.Prelude.{◌≡◌, ◌+◌, false, IsTrue, IsSome, length, OnErr, OnOk};
ghost use Rattle.dbpl_database.specs.Spelling.{database_bytes};
ghost use Rattle.dbpl_log.specs.Changes.{ChangesLog, with_record};
ghost use Rattle.dbpl_log.specs.Worlds.{DiskFailed, DiskHeld, Meanwhile, log_of};
ghost use Rattle.dbpl_store.specs.Stands.{IsEither, LeavesDatabase};
ghost use Rattle.dbpl_store.specs.Stores.{IsOpen, bound_in, committed_of, database_in, gate_in, is_running, length_in};
ghost use Rattle.dbpl_world.specs.Counts.{OnlyDiskFaults};
ghost use Rattle.dbpl_world.specs.History.{now};

use crate::Store;
use dbpl_world::{Failed, World};

impl Store {
    /// Ends the running transaction: the database is kept. Nothing is written where it is the one that is kept already.
    /// It takes no memory.
    pub fn commit<W: World>(&mut self, world: &mut W) -> Result<(), Failed>
        requires mounted { IsSome (W.mounted world.old) }
        requires running { IsTrue (is_running self.old) }
        ensures moments { IsTrue W.tells → IsOpen (now (W.history world.old)) self.old →
            Meanwhile W.World (LeavesDatabase (IsEither (committed_of self.old) (database_in self.old)))
            world.old world.new }
        ensures open { IsTrue W.tells → IsOpen (now (W.history world.old)) self.old →
            OnOk result (IsOpen (now (W.history world.new)) self.new) }
        ensures committed { OnOk result (committed_of self.new ≡ database_in self.old) }
        ensures bytes { IsTrue W.tells → IsOpen (now (W.history world.old)) self.old →
            (database_in self.old ≡ committed_of self.old → ⊥) →
            OnOk result (log_of W.World world.new
            ≡ with_record (gate_in self.old) (database_bytes (database_in self.old)) (log_of W.World world.old)) }
        ensures length { (database_in self.old ≡ committed_of self.old → ⊥) →
            OnOk result (length_in self.new
            ≡ length_in self.old + 5 + length (database_bytes (database_in self.old))) }
        ensures only_log { IsTrue W.tells → Meanwhile W.World ChangesLog world.old world.new }
        ensures kept { OnErr result (committed_of self.new ≡ committed_of self.old) }
        ensures log_kept { OnErr result (self.new.log ≡ self.old.log) }
        ensures database { database_in self.new ≡ database_in self.old }
        ensures ended { is_running self.new ≡ false }
        ensures bound { bound_in self.new ≡ bound_in self.old }
        ensures idle { database_in self.old ≡ committed_of self.old → (world.new ≡ world.old) }
        ensures idle_length { database_in self.old ≡ committed_of self.old →
            length_in self.new ≡ length_in self.old }
        ensures same { W.mounted world.new ≡ W.mounted world.old }
        ensures counts { OnlyDiskFaults (W.counts world.old) (W.counts world.new) }
        ensures fine { OnOk result (DiskHeld W.World world.old world.new) }
        ensures cause { OnErr result (DiskFailed W.World world.old world.new) }
    {
        self.running = false;
        let Some(changed) = self.changed.take() else {
            return Ok(());
        };
        if changed.as_slice() == self.stored.as_slice() {
            return Ok(());
        }
        match self.log.commit(world, changed.as_slice()) {
            Ok(()) => {
                self.stored = changed;
                Ok(())
            }
            Err(failed) => {
                self.changed = Some(changed);
                Err(failed)
            }
        }
    }
}
