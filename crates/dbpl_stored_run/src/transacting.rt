//! The transaction of a program, over an open store.
ghost use Rattle.std.specs.Prelude.{◌≡◌, ◌≢◌, ◌⊎◌, [], ◌∷◌, false, true, Err, IsSome, IsTrue, Ok, OnOk};
ghost use Rattle.dbpl_stored_program.specs.Meaning.{Ended, Trapped, with_named};
ghost use Rattle.dbpl_stored_program.specs.Programs.{is_small_program};
ghost use Rattle.dbpl_core.specs.Events.{Commit, last};
ghost use Rattle.dbpl_stored_program.specs.Whole.{transacted_by};
ghost use Rattle.dbpl_stored_program.specs.declared.action.Action.TheVariants.{Transact};
ghost use Rattle.dbpl_core.specs.declared.trap.Trap.{Trap as AnyTrap};
ghost use Rattle.dbpl_log.specs.Changes.{ChangesLog};
ghost use Rattle.dbpl_log.specs.Worlds.{DiskFailed, DiskHeld, Meanwhile};
ghost use Rattle.dbpl_store.specs.Stands.{IsEither, LeavesDatabase};
ghost use Rattle.dbpl_store.specs.Stores.{IsBoundTo, IsOpen, bound_in, committed_of, database_in, is_running};
ghost use Rattle.dbpl_stored_run.specs.Between.{Between, SayFailed};
ghost use Rattle.dbpl_stored_run.specs.Headline.{HasMade, HasMadeSome, LeavesTied};
ghost use Rattle.dbpl_stored_run.specs.Leaving.{ChangesStore, OnlyRunFaults};
ghost use Rattle.dbpl_stored_run.specs.Statements.{events_from, standing_from};
ghost use Rattle.dbpl_value.specs.declared.value.Value.{Value};
ghost use Rattle.dbpl_world.specs.History.{now};

use crate::body_err::BodyErr;
use crate::printing::write_out;
use dbpl_store::Store;
use dbpl_stored_program::{RunErr, StoredProgram, transacted};
use dbpl_world::{Failed, World};
use std::alloc::Global;

/// Calls the transaction. Where one of its statements traps, nothing is committed.
pub(crate) fn transact<W: World>(
    alloc: Global,
    program: &StoredProgram,
    store: &mut Store,
    world: &mut W,
) -> Result<(), BodyErr>
    requires mounted { IsSome (W.mounted world.old) }
    requires small { IsTrue (is_small_program program.now) }
    requires still { is_running store.old ≡ false }
    requires bound { IsBoundTo program.now.relation store.old }
    ensures moments { IsTrue W.tells → IsOpen (now (W.history world.old)) store.old →
        Meanwhile W.World (LeavesTied (events_from program.now (Transact ∷ []) store.old) (committed_of store.old))
        world.old world.new }
    ensures made { IsTrue W.tells → IsOpen (now (W.history world.old)) store.old →
        OnOk result (Between W.World
        (HasMade (events_from program.now (Transact ∷ []) store.old) (committed_of store.old)) world.old world.new) }
    ensures ended { OnOk result (standing_from program.now (Transact ∷ []) store.old ≡ Ended) }
    ensures trapped { (trap : AnyTrap) → result ≡ Err (BodyErr.Trapped trap) →
        standing_from program.now (Transact ∷ []) store.old ≡ Trapped trap }
    ensures made_trapped { IsTrue W.tells → IsOpen (now (W.history world.old)) store.old → (trap : AnyTrap) →
        result ≡ Err (BodyErr.Trapped trap) →
        Between W.World (HasMade (events_from program.now (Transact ∷ []) store.old) (committed_of store.old))
        world.old world.new }
    ensures at_rest { IsTrue W.tells → IsOpen (now (W.history world.old)) store.old → result ≢ Err BodyErr.DiskFault →
        Between W.World (HasMadeSome (events_from program.now (Transact ∷ []) store.old) (committed_of store.old))
        world.old world.new }

    // The store after it.
    ensures opened { IsTrue W.tells → IsOpen (now (W.history world.old)) store.old →
        OnOk result (IsOpen (now (W.history world.new)) store.new) }
    ensures committed { OnOk result (committed_of store.new
        ≡ last (events_from program.now (Transact ∷ []) store.old) (committed_of store.old)) }
    ensures database { OnOk result (database_in store.new
        ≡ last (events_from program.now (Transact ∷ []) store.old) (database_in store.old)) }
    ensures bound { OnOk result (IsBoundTo program.now.relation store.new) }
    ensures still { OnOk result (is_running store.new ≡ false) }

    ensures unwritten { IsTrue W.tells → result ≡ Err BodyErr.OutFault → W.history world.new ≡ W.history world.old }
    ensures only { IsTrue W.tells → Meanwhile W.World ChangesStore world.old world.new }
    ensures same { W.mounted world.new ≡ W.mounted world.old }
    ensures counts { OnlyRunFaults (W.counts world.old) (W.counts world.new) }
    ensures disk_fault { result ≡ Err BodyErr.DiskFault → DiskFailed W.World world.old world.new }
    ensures disk_fault_where { (result ≡ Err BodyErr.DiskFault) ⊎ DiskHeld W.World world.old world.new }
    ensures out_fault { result ≡ Err BodyErr.OutFault → SayFailed W.World world.old world.new }
    ensures out_fault_where { (result ≡ Err BodyErr.OutFault)
        ⊎ ((W.counts world.new).say_faults ≡ (W.counts world.old).say_faults) }
{
    change(alloc, program, store)?;
    commit(store, world)
}

/// Commits what the transaction made, once all that was printed is written out. Where that fails nothing is committed.
fn commit<W: World>(store: &mut Store, world: &mut W) -> Result<(), BodyErr>
    requires mounted { IsSome (W.mounted world.old) }
    requires running { IsTrue (is_running store.old) }
    ensures moments { IsTrue W.tells → IsOpen (now (W.history world.old)) store.old →
        Meanwhile W.World (LeavesDatabase (IsEither (committed_of store.old) (database_in store.old)))
        world.old world.new }
    ensures open { IsTrue W.tells → IsOpen (now (W.history world.old)) store.old →
        OnOk result (IsOpen (now (W.history world.new)) store.new) }
    ensures committed { OnOk result (committed_of store.new ≡ database_in store.old) }
    ensures unwritten { IsTrue W.tells → result ≡ Err BodyErr.OutFault → W.history world.new ≡ W.history world.old }
    ensures only_log { IsTrue W.tells → Meanwhile W.World ChangesLog world.old world.new }
    ensures database { database_in store.new ≡ database_in store.old }
    ensures ended { OnOk result (is_running store.new ≡ false) }
    ensures bound { bound_in store.new ≡ bound_in store.old }
    ensures same { W.mounted world.new ≡ W.mounted world.old }
    ensures counts { OnlyRunFaults (W.counts world.old) (W.counts world.new) }
    ensures at_rest { IsTrue W.tells → IsOpen (now (W.history world.old)) store.old → result ≢ Err BodyErr.DiskFault →
        Between W.World (HasMadeSome (Commit (database_in store.old) ∷ []) (committed_of store.old))
        world.old world.new }
    ensures untrapped { (trap : AnyTrap) → result ≢ Err (BodyErr.Trapped trap) }
    ensures disk_fault { result ≡ Err BodyErr.DiskFault → DiskFailed W.World world.old world.new }
    ensures disk_fault_where { (result ≡ Err BodyErr.DiskFault) ⊎ DiskHeld W.World world.old world.new }
    ensures out_fault { result ≡ Err BodyErr.OutFault → SayFailed W.World world.old world.new }
    ensures out_fault_where { (result ≡ Err BodyErr.OutFault)
        ⊎ ((W.counts world.new).say_faults ≡ (W.counts world.old).say_faults) }
{
    write_out(world)?;
    match store.commit(world) {
        Ok(()) => Ok(()),
        Err(Failed) => Err(BodyErr::DiskFault),
    }
}

/// Begins the transaction, and does its statements in memory.
fn change(alloc: Global, program: &StoredProgram, store: &mut Store) -> Result<(), RunErr>
    requires small { IsTrue (is_small_program program.now) }
    requires still { is_running store.old ≡ false }
    requires bound { IsBoundTo program.now.relation store.old }
    ensures ok { OnOk result ((relation : Value) × (transacted_by program.now (database_in store.old) ≡ Ok relation)
        × (database_in store.new ≡ with_named program.now.relation.name relation (database_in store.old))) }
    ensures trap { (trap : AnyTrap) → result ≡ Err (RunErr.Trap trap) →
        transacted_by program.now (database_in store.old) ≡ Err trap }
    ensures bound { OnOk result (IsBoundTo program.now.relation store.new) }
    ensures running { is_running store.new ≡ true }
    ensures committed { committed_of store.new ≡ committed_of store.old }
    ensures log { store.new.log ≡ store.old.log }
{
    store.begin();
    let after = transacted(alloc, program, store.whole())?;
    store.replace_all(alloc, after)?;
    Ok(())
}
