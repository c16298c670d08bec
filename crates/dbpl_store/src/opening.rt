//! A store is opened: its log is read, and the newest record is its database.
ghost use Rattle.std.specs.Prelude.{◌≡◌, ◌⊎◌, [], Err, IfErr, IfOk, IsSome, IsTrue, List, None, OnOk, Some, ℕ, false};
ghost use Rattle.dbpl_log.specs.Changes.{OnlySyncs};
ghost use Rattle.dbpl_log.specs.Records.{HasHead};
ghost use Rattle.dbpl_log.specs.Rest.{records_in};
ghost use Rattle.dbpl_log.specs.Worlds.{DiskFailed, DiskHeld, Meanwhile, disk_of, log_of, pages_of, synced_of};
ghost use Rattle.dbpl_store.specs.Errors.{of_log};
ghost use Rattle.dbpl_store.specs.Stands.{LeavesOld, newest as newest_of, stands};
ghost use Rattle.dbpl_store.specs.Stores.{IsOpen, bound_in, committed_of, database_in, is_running};
ghost use Rattle.dbpl_store.specs.declared.store_err.StoreErr.TheVariants as errors;
ghost use Rattle.dbpl_value.specs.declared.bound.Bound.{Bound};
ghost use Rattle.dbpl_world.specs.Counts.{OnlyDiskFaults};
ghost use Rattle.dbpl_world.specs.History.{now};
ghost use Rattle.dbpl_world.specs.Images.{IsImage};

use crate::newest::newest;
use crate::spelled::spelled;
use crate::{Store, StoreErr};
use dbpl_base::Memory;
use dbpl_codec::ReadErr;
use dbpl_log::{OpenErr, Opened};
use dbpl_world::World;
use std::alloc::Global;

/// Opens the mounted store. Both parts are synced first, so that what a read gives is what a stop leaves.
pub fn open<W: World>(alloc: Global, world: &mut W) -> Result<Store, StoreErr>
    requires mounted { IsSome (W.mounted world.old) }
    ensures stood { IsTrue W.tells → (database : List Bound) →
        ((log pages : List ℕ) → IsImage (disk_of W.World world.old).log log →
        IsImage (disk_of W.World world.old).pages pages → stands log pages ≡ Some database) →
        IfOk result (λ store. committed_of store ≡ database) }
    ensures read { IsTrue W.tells → IfOk result (λ store.
        stands (log_of W.World world.old) (pages_of W.World world.old) ≡ Some (committed_of store)) }
    ensures open { IsTrue W.tells → IfOk result (IsOpen (now (W.history world.new))) }
    ensures database { IfOk result (λ store. database_in store ≡ committed_of store) }
    ensures still { IfOk result (λ store. (is_running store ≡ false) × (bound_in store ≡ None)) }
    ensures synced { IsTrue W.tells → OnOk result (disk_of W.World world.new ≡ synced_of W.World world.old) }
    ensures only_syncs { IsTrue W.tells → Meanwhile W.World OnlySyncs world.old world.new }
    ensures moments { IsTrue W.tells → Meanwhile W.World LeavesOld world.old world.new }

    // Each refusal comes exactly where it says, but for faults and want of memory, and once both parts are synced.
    ensures settled { IsTrue W.tells →
        (result ≡ Err errors.NotStore) ⊎ ((page : ℕ) × (result ≡ Err (errors.Damaged page))) →
        disk_of W.World world.new ≡ synced_of W.World world.old }
    ensures not_store { IsTrue W.tells → result ≡ Err errors.NotStore →
        HasHead (log_of W.World world.old) → ⊥ }
    ensures not_store_where { IsTrue W.tells → (HasHead (log_of W.World world.old) → ⊥) →
        (result ≡ Err errors.NotStore) ⊎ (result ≡ Err errors.Disk) }
    ensures damaged { IsTrue W.tells → (page : ℕ) → result ≡ Err (errors.Damaged page) → (page ≡ 0)
        × HasHead (log_of W.World world.old)
        × (stands (log_of W.World world.old) (pages_of W.World world.old) ≡ None) }
    ensures damaged_where { IsTrue W.tells → HasHead (log_of W.World world.old) →
        stands (log_of W.World world.old) (pages_of W.World world.old) ≡ None →
        (result ≡ Err (errors.Damaged 0)) ⊎ ((result ≡ Err errors.Disk) ⊎ (result ≡ Err errors.Memory)) }

    ensures same { W.mounted world.new ≡ W.mounted world.old }
    ensures counts { OnlyDiskFaults (W.counts world.old) (W.counts world.new) }
    ensures fine { (result ≡ Err errors.Disk) ⊎ DiskHeld W.World world.old world.new }
    ensures cause { result ≡ Err errors.Disk → DiskFailed W.World world.old world.new }
{
    match dbpl_log::open(alloc, world) {
        Ok(opened) => store_of(alloc, opened),
        Err(err) => Err(store_err(err)),
    }
}

fn store_err(err: OpenErr) -> StoreErr
    ensures { result ≡ of_log err }
{
    match err {
        OpenErr::NotStore => StoreErr::NotStore,
        OpenErr::Disk => StoreErr::Disk,
        OpenErr::Damaged => StoreErr::Damaged(0),
        OpenErr::Memory => StoreErr::Memory,
    }
}

/// The store of a log with these records.
fn store_of(alloc: Global, opened: Opened) -> Result<Store, StoreErr>
    ensures log { IfOk result (λ store. store.log ≡ opened.log) }
    ensures newest { IfOk result (λ store. newest_of [] (records_in opened) ≡ Some (committed_of store)) }
    ensures database { IfOk result (λ store. database_in store ≡ committed_of store) }
    ensures still { IfOk result (λ store. (is_running store ≡ false) × (bound_in store ≡ None)) }
    ensures damaged { IfErr result (λ e.
        (e ≡ errors.Memory) ⊎ ((e ≡ errors.Damaged 0) × (newest_of [] (records_in opened) ≡ None))) }
{
    let Opened { log, records } = opened;
    let database = match newest(alloc, records.as_slice()) {
        Ok(database) => database,
        Err(ReadErr::Malformed) => return Err(StoreErr::Damaged(0)),
        Err(ReadErr::Memory) => return Err(StoreErr::Memory),
    };
    let Ok(stored) = spelled(alloc, database.as_slice()) else {
        return Err(StoreErr::Memory);
    };
    Ok(Store {
        log,
        stored,
        database,
        changed: None,
        bound: None,
        running: false,
    })
}
