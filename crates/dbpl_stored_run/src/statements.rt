//! The statements of a program's body, one after another, over an open store.
ghost use Rattle.std.specs.Prelude.{◌≡◌, ◌≢◌, ◌⊎◌, [], ◌∷◌, false, Err, IsSome, IsTrue, OnOk};
ghost use Rattle.dbpl_core.specs.Events.{last};
ghost use Rattle.dbpl_stored_program.specs.Meaning.{Ended, Trapped};
ghost use Rattle.dbpl_stored_program.specs.Programs.{is_small_program};
ghost use Rattle.dbpl_core.specs.declared.trap.Trap.{Trap as AnyTrap};
ghost use Rattle.dbpl_log.specs.Worlds.{DiskFailed, DiskHeld, Meanwhile};
ghost use Rattle.dbpl_store.specs.Stores.{IsBoundTo, IsOpen, committed_of, database_in, is_running};
ghost use Rattle.dbpl_stored_run.specs.Between.{Between, SayFailed};
ghost use Rattle.dbpl_stored_run.specs.Headline.{HasMade, HasMadeSome, LeavesTied};
ghost use Rattle.dbpl_stored_run.specs.Leaving.{ChangesStore, OnlyRunFaults};
ghost use Rattle.dbpl_stored_run.specs.Statements.{events_from, standing_from};
ghost use Rattle.dbpl_world.specs.History.{now};

use crate::body_err::BodyErr;
use crate::printing::{print, written_out};
use crate::transacting::transact;
use dbpl_store::Store;
use dbpl_stored_program::{Action, StoredProgram, before_zero};
use dbpl_world::World;
use std::alloc::Global;

/// Does the statements of the body up to its end, or up to the first trap, fault or want of memory. Where it ends or
/// traps, all that it printed is written out.
pub(crate) fn run_body<W: World>(
    alloc: Global,
    program: &StoredProgram,
    store: &mut Store,
    world: &mut W,
) -> Result<(), BodyErr>
    requires mounted { IsSome (W.mounted world.old) }
    requires small { IsTrue (is_small_program program.now) }
    requires still { is_running store.old ≡ false }
    requires bound { IsBoundTo program.now.relation store.old }
    ensures moments { IsTrue W.tells → IsOpen (now (W.history world.old)) store.old →
        Meanwhile W.World (LeavesTied (events_from program.now program.now.body store.old) (committed_of store.old))
        world.old world.new }
    ensures made { IsTrue W.tells → IsOpen (now (W.history world.old)) store.old →
        OnOk result (Between W.World
        (HasMade (events_from program.now program.now.body store.old) (committed_of store.old)) world.old world.new) }
    ensures ended { OnOk result (standing_from program.now program.now.body store.old ≡ Ended) }
    ensures trapped { (trap : AnyTrap) → result ≡ Err (BodyErr.Trapped trap) →
        standing_from program.now program.now.body store.old ≡ Trapped trap }
    ensures made_trapped { IsTrue W.tells → IsOpen (now (W.history world.old)) store.old → (trap : AnyTrap) →
        result ≡ Err (BodyErr.Trapped trap) →
        Between W.World (HasMade (events_from program.now program.now.body store.old) (committed_of store.old))
        world.old world.new }
    ensures at_rest { IsTrue W.tells → IsOpen (now (W.history world.old)) store.old → result ≢ Err BodyErr.DiskFault →
        Between W.World (HasMadeSome (events_from program.now program.now.body store.old) (committed_of store.old))
        world.old world.new }
    ensures only { IsTrue W.tells → Meanwhile W.World ChangesStore world.old world.new }
    ensures same { W.mounted world.new ≡ W.mounted world.old }
    ensures counts { OnlyRunFaults (W.counts world.old) (W.counts world.new) }
    ensures disk_fault { result ≡ Err BodyErr.DiskFault → DiskFailed W.World world.old world.new }
    ensures disk_fault_where { (result ≡ Err BodyErr.DiskFault) ⊎ DiskHeld W.World world.old world.new }
    ensures out_fault { result ≡ Err BodyErr.OutFault → SayFailed W.World world.old world.new }
    ensures out_fault_where { (result ≡ Err BodyErr.OutFault)
        ⊎ ((W.counts world.new).say_faults ≡ (W.counts world.old).say_faults) }
{
    let went = act_all(alloc, program, store, world);
    written_out(went, world)
}

/// Does one statement after another.
fn act_all<W: World>(
    alloc: Global,
    program: &StoredProgram,
    store: &mut Store,
    world: &mut W,
) -> Result<(), BodyErr>
    requires mounted { IsSome (W.mounted world.old) }
    requires small { IsTrue (is_small_program program.now) }
    requires still { is_running store.old ≡ false }
    requires bound { IsBoundTo program.now.relation store.old }
    ensures moments { IsTrue W.tells → IsOpen (now (W.history world.old)) store.old →
        Meanwhile W.World (LeavesTied (events_from program.now program.now.body store.old) (committed_of store.old))
        world.old world.new }
    ensures made { IsTrue W.tells → IsOpen (now (W.history world.old)) store.old →
        OnOk result (Between W.World
        (HasMade (events_from program.now program.now.body store.old) (committed_of store.old)) world.old world.new) }
    ensures ended { OnOk result (standing_from program.now program.now.body store.old ≡ Ended) }
    ensures trapped { (trap : AnyTrap) → result ≡ Err (BodyErr.Trapped trap) →
        standing_from program.now program.now.body store.old ≡ Trapped trap }
    ensures made_trapped { IsTrue W.tells → IsOpen (now (W.history world.old)) store.old → (trap : AnyTrap) →
        result ≡ Err (BodyErr.Trapped trap) →
        Between W.World (HasMade (events_from program.now program.now.body store.old) (committed_of store.old))
        world.old world.new }
    ensures at_rest { IsTrue W.tells → IsOpen (now (W.history world.old)) store.old → result ≢ Err BodyErr.DiskFault →
        Between W.World (HasMadeSome (events_from program.now program.now.body store.old) (committed_of store.old))
        world.old world.new }
    ensures only { IsTrue W.tells → Meanwhile W.World ChangesStore world.old world.new }
    ensures same { W.mounted world.new ≡ W.mounted world.old }
    ensures counts { OnlyRunFaults (W.counts world.old) (W.counts world.new) }
    ensures disk_fault { result ≡ Err BodyErr.DiskFault → DiskFailed W.World world.old world.new }
    ensures disk_fault_where { (result ≡ Err BodyErr.DiskFault) ⊎ DiskHeld W.World world.old world.new }
    ensures out_fault { result ≡ Err BodyErr.OutFault → SayFailed W.World world.old world.new }
    ensures out_fault_where { (result ≡ Err BodyErr.OutFault)
        ⊎ ((W.counts world.new).say_faults ≡ (W.counts world.old).say_faults) }
{
    for action in program.body.as_slice() {
        act(alloc, program, action, store, world)?;
    }
    Ok(())
}

/// Does one statement.
fn act<W: World>(
    alloc: Global,
    program: &StoredProgram,
    action: &Action,
    store: &mut Store,
    world: &mut W,
) -> Result<(), BodyErr>
    requires mounted { IsSome (W.mounted world.old) }
    requires small { IsTrue (is_small_program program.now) }
    requires still { is_running store.old ≡ false }
    requires bound { IsBoundTo program.now.relation store.old }
    ensures moments { IsTrue W.tells → IsOpen (now (W.history world.old)) store.old →
        Meanwhile W.World (LeavesTied (events_from program.now (action.now ∷ []) store.old) (committed_of store.old))
        world.old world.new }
    ensures made { IsTrue W.tells → IsOpen (now (W.history world.old)) store.old →
        OnOk result (Between W.World
        (HasMade (events_from program.now (action.now ∷ []) store.old) (committed_of store.old)) world.old world.new) }
    ensures ended { OnOk result (standing_from program.now (action.now ∷ []) store.old ≡ Ended) }
    ensures trapped { (trap : AnyTrap) → result ≡ Err (BodyErr.Trapped trap) →
        standing_from program.now (action.now ∷ []) store.old ≡ Trapped trap }
    ensures made_trapped { IsTrue W.tells → IsOpen (now (W.history world.old)) store.old → (trap : AnyTrap) →
        result ≡ Err (BodyErr.Trapped trap) →
        Between W.World (HasMade (events_from program.now (action.now ∷ []) store.old) (committed_of store.old))
        world.old world.new }
    ensures at_rest { IsTrue W.tells → IsOpen (now (W.history world.old)) store.old → result ≢ Err BodyErr.DiskFault →
        Between W.World (HasMadeSome (events_from program.now (action.now ∷ []) store.old) (committed_of store.old))
        world.old world.new }

    // The store after it.
    ensures opened { IsTrue W.tells → IsOpen (now (W.history world.old)) store.old →
        OnOk result (IsOpen (now (W.history world.new)) store.new) }
    ensures committed { OnOk result (committed_of store.new
        ≡ last (events_from program.now (action.now ∷ []) store.old) (committed_of store.old)) }
    ensures database { OnOk result (database_in store.new
        ≡ last (events_from program.now (action.now ∷ []) store.old) (database_in store.old)) }
    ensures bound { OnOk result (IsBoundTo program.now.relation store.new) }
    ensures still { OnOk result (is_running store.new ≡ false) }

    ensures only { IsTrue W.tells → Meanwhile W.World ChangesStore world.old world.new }
    ensures same { W.mounted world.new ≡ W.mounted world.old }
    ensures counts { OnlyRunFaults (W.counts world.old) (W.counts world.new) }
    ensures disk_fault { result ≡ Err BodyErr.DiskFault → DiskFailed W.World world.old world.new }
    ensures disk_fault_where { (result ≡ Err BodyErr.DiskFault) ⊎ DiskHeld W.World world.old world.new }
    ensures out_fault { result ≡ Err BodyErr.OutFault → SayFailed W.World world.old world.new }
    ensures out_fault_where { (result ≡ Err BodyErr.OutFault)
        ⊎ ((W.counts world.new).say_faults ≡ (W.counts world.old).say_faults) }
{
    match action {
        Action::Transact => transact(alloc, program, store, world),
        Action::WriteLn => print(world, b"\n"),
        Action::WriteString(text) => print(world, before_zero(text.as_bytes())),
    }
}
