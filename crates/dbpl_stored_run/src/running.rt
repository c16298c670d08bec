//! A run of a program over the mounted store.
ghost use Rattle.std.specs.Prelude.{◌≡◌, ◌≢◌, ◌⊎◌, ℕ, Err, IfErr, IsSome, IsTrue, List, None, OnOk};
ghost use Rattle.dbpl_stored_program.specs.Meaning.{Ended, Trapped};
ghost use Rattle.dbpl_stored_program.specs.Programs.{is_small_program};
ghost use Rattle.dbpl_stored_program.specs.Whole.{events_of, whole_run};
ghost use Rattle.dbpl_core.specs.declared.trap.Trap.{Trap as AnyTrap};
ghost use Rattle.dbpl_value.specs.Binding.{Binds, Differs};
ghost use Rattle.dbpl_log.specs.Records.{HasHead};
ghost use Rattle.dbpl_log.specs.Worlds.{DiskFailed, DiskHeld, Meanwhile, disk_of, log_of, pages_of, synced_of};
ghost use Rattle.dbpl_store.specs.Stands.{LeavesOld, stands};
ghost use Rattle.dbpl_stored_run.specs.Between.{Between, SayFailed, input_of};
ghost use Rattle.dbpl_stored_run.specs.Answers.{HasOther, HasRun, IsDue, IsRefusal, ReadsAs};
ghost use Rattle.dbpl_stored_run.specs.Headline.{HasMade, HasMadeSome, LeavesTied, StandsFor};
ghost use Rattle.dbpl_stored_run.specs.Leaving.{ChangesStore, OnlyRunFaults};
ghost use Rattle.dbpl_stored_run.specs.declared.stop_err.StopErr.TheVariants as errors;
ghost use Rattle.dbpl_value.specs.declared.bound.Bound.{Bound};
ghost use Rattle.dbpl_world.specs.History.{now};
ghost use Rattle.dbpl_world.specs.Images.{settled};

use crate::StopErr;
use crate::statements::run_body;
use dbpl_store::open;
use dbpl_stored_program::StoredProgram;
use dbpl_world::World;
use std::alloc::Global;

/// Opens the mounted store, binds the program's relation variable, and does the statements of its body. Where it traps
/// the store is let go of, with nothing of the transaction.
pub fn run_stored<W: World>(
    alloc: Global,
    program: &StoredProgram,
    world: &mut W,
) -> Result<(), StopErr>
    requires mounted { IsSome (W.mounted world.old) }
    requires small { IsTrue (is_small_program program.now) }

    // THE HEADLINE: at every moment some prefix of the program's events has as its prints the bytes said, and as its
    // last commit what a stop then leaves. A run that ends or traps has made them all.
    ensures headline { IsTrue W.tells → (database bound : List Bound) →
        StandsFor database (now (W.history world.old)) → Binds program.now.relation database bound →
        Meanwhile W.World (LeavesTied (events_of program.now bound (input_of W.World world.old)) database)
        world.old world.new }
    ensures whole { IsTrue W.tells → (database bound : List Bound) → ReadsAs database (now (W.history world.old)) →
        Binds program.now.relation database bound →
        OnOk result (Between W.World (HasMade (events_of program.now bound (input_of W.World world.old)) database)
        world.old world.new) }
    ensures whole_trapped { IsTrue W.tells → (database bound : List Bound) →
        ReadsAs database (now (W.history world.old)) → Binds program.now.relation database bound → (trap : AnyTrap) →
        result ≡ Err (errors.Trapped trap) →
        Between W.World (HasMade (events_of program.now bound (input_of W.World world.old)) database)
        world.old world.new }
    ensures complete { IsTrue W.tells → (database bound : List Bound) → ReadsAs database (now (W.history world.old)) →
        Binds program.now.relation database bound → (DiskFailed W.World world.old world.new → ⊥) →
        (SayFailed W.World world.old world.new → ⊥) →
        IsDue (whole_run program.now bound (input_of W.World world.old)).stands result }

    // When each answer comes.
    ensures ended { OnOk result (HasRun program.now Ended W.tells (W.history world.old) (W.history world.new)) }
    ensures trapped { (trap : AnyTrap) → result ≡ Err (errors.Trapped trap) →
        HasRun program.now (Trapped trap) W.tells (W.history world.old) (W.history world.new) }
    ensures not_store { IsTrue W.tells → result ≡ Err errors.NotStore → HasHead (log_of W.World world.old) → ⊥ }
    ensures not_store_where { IsTrue W.tells → (HasHead (log_of W.World world.old) → ⊥) →
        (result ≡ Err errors.NotStore) ⊎ (result ≡ Err errors.DiskFault) }
    ensures damaged { IsTrue W.tells → (page : ℕ) → result ≡ Err (errors.Damaged page) →
        (page ≡ 0) × HasHead (log_of W.World world.old)
        × (stands (log_of W.World world.old) (pages_of W.World world.old) ≡ None) }
    ensures damaged_where { IsTrue W.tells → HasHead (log_of W.World world.old) →
        stands (log_of W.World world.old) (pages_of W.World world.old) ≡ None →
        (result ≡ Err (errors.Damaged 0)) ⊎ ((result ≡ Err errors.DiskFault) ⊎ (result ≡ Err errors.Memory)) }
    ensures differs { result ≡ Err errors.SchemaDiffers → HasOther program.now.relation W.tells (W.history world.old) }
    ensures differs_where { IsTrue W.tells → (database : List Bound) → ReadsAs database (now (W.history world.old)) →
        Differs program.now.relation database →
        (result ≡ Err errors.SchemaDiffers) ⊎ ((result ≡ Err errors.DiskFault) ⊎ (result ≡ Err errors.Memory)) }
    ensures disk_fault { result ≡ Err errors.DiskFault → DiskFailed W.World world.old world.new }
    ensures disk_fault_where { (result ≡ Err errors.DiskFault) ⊎ DiskHeld W.World world.old world.new }
    ensures out_fault { result ≡ Err errors.OutFault → SayFailed W.World world.old world.new }
    ensures out_fault_where { (result ≡ Err errors.OutFault)
        ⊎ ((W.counts world.new).say_faults ≡ (W.counts world.old).say_faults) }

    // Unless the disk failed no transaction is half there: one prefix of the events was made, and what a stop leaves is
    // of that one.
    ensures at_rest { IsTrue W.tells → (database bound : List Bound) → StandsFor database (now (W.history world.old)) →
        Binds program.now.relation database bound → result ≢ Err errors.DiskFault →
        Between W.World (HasMadeSome (events_of program.now bound (input_of W.World world.old)) database)
        world.old world.new }

    // A run that ends or traps has synced the pages, with the bytes that stood there.
    ensures pages { IsTrue W.tells →
        OnOk result ((disk_of W.World world.new).pages ≡ settled (pages_of W.World world.old)) }
    ensures pages_trapped { IsTrue W.tells → (trap : AnyTrap) → result ≡ Err (errors.Trapped trap) →
        (disk_of W.World world.new).pages ≡ settled (pages_of W.World world.old) }

    // What is left as it was. A refusal comes once both parts are synced.
    ensures settled { IsTrue W.tells →
        IfErr result (λ why. IsRefusal why → disk_of W.World world.new ≡ synced_of W.World world.old) }
    ensures refused { IsTrue W.tells →
        IfErr result (λ why. IsRefusal why → Meanwhile W.World LeavesOld world.old world.new) }
    ensures unbound { IsTrue W.tells →
        ((database bound : List Bound) → ReadsAs database (now (W.history world.old)) →
        Binds program.now.relation database bound → ⊥) → Meanwhile W.World LeavesOld world.old world.new }
    ensures only { IsTrue W.tells → Meanwhile W.World ChangesStore world.old world.new }
    ensures same { W.mounted world.new ≡ W.mounted world.old }
    ensures counts { OnlyRunFaults (W.counts world.old) (W.counts world.new) }
{
    let mut store = open(alloc, world)?;
    let is_bound = store.bind(alloc, &program.relation)?;
    if !is_bound {
        return Err(StopErr::SchemaDiffers);
    }
    run_body(alloc, program, &mut store, world)?;
    Ok(())
}
