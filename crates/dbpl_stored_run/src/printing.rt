//! What a statement prints: each byte is said by a call of its own, and a world may keep back what was said.
ghost use Rattle.std.specs.Prelude.{◌≡◌, List, map, Err, IfErr, IsTrue, OnErr, OnOk};
ghost use Rattle.dbpl_core.specs.Events.{Out};
ghost use Rattle.dbpl_log.specs.Worlds.{Meanwhile, disk_of};
ghost use Rattle.dbpl_stored_run.specs.Between.{Between, SayFailed};
ghost use Rattle.dbpl_stored_run.specs.Errors.{IsWrittenOut};
ghost use Rattle.dbpl_stored_run.specs.Headline.{HasMade, HasMadeSome, LeavesTied, StandsFor};
ghost use Rattle.dbpl_stored_run.specs.Leaving.{ChangesStore};
ghost use Rattle.dbpl_value.specs.declared.bound.Bound.{Bound};
ghost use Rattle.dbpl_world.specs.Counts.{OnlySayFaults};
ghost use Rattle.dbpl_world.specs.History.{now};

use crate::body_err::BodyErr;
use dbpl_world::{Failed, World, say_all};

/// Says these bytes.
pub(crate) fn print<W: World>(world: &mut W, bytes: &[u8]) -> Result<(), BodyErr>
    ensures moments { IsTrue W.tells → (database : List Bound) → StandsFor database (now (W.history world.old)) →
        Meanwhile W.World (LeavesTied (map Out bytes.now) database) world.old world.new }
    ensures made { IsTrue W.tells → (database : List Bound) → StandsFor database (now (W.history world.old)) →
        OnOk result (Between W.World (HasMade (map Out bytes.now) database) world.old world.new) }
    ensures at_rest { IsTrue W.tells → (database : List Bound) → StandsFor database (now (W.history world.old)) →
        Between W.World (HasMadeSome (map Out bytes.now) database) world.old world.new }
    ensures disk { IsTrue W.tells → disk_of W.World world.new ≡ disk_of W.World world.old }
    ensures only { IsTrue W.tells → Meanwhile W.World ChangesStore world.old world.new }
    ensures same { W.mounted world.new ≡ W.mounted world.old }
    ensures counts { OnlySayFaults (W.counts world.old) (W.counts world.new) }
    ensures fine { OnOk result ((W.counts world.new).say_faults ≡ (W.counts world.old).say_faults) }
    ensures cause { OnErr result (SayFailed W.World world.old world.new) }
    ensures err { IfErr result (λ why. why ≡ BodyErr.OutFault) }
{
    match say_all(world, bytes) {
        Ok(()) => Ok(()),
        Err(Failed) => Err(BodyErr::OutFault),
    }
}

/// Has the world write out all that was printed.
pub(crate) fn write_out<W: World>(world: &mut W) -> Result<(), BodyErr>
    ensures unchanged { IsTrue W.tells → W.history world.new ≡ W.history world.old }
    ensures same { W.mounted world.new ≡ W.mounted world.old }
    ensures counts { OnlySayFaults (W.counts world.old) (W.counts world.new) }
    ensures fine { OnOk result ((W.counts world.new).say_faults ≡ (W.counts world.old).say_faults) }
    ensures cause { OnErr result (SayFailed W.World world.old world.new) }
    ensures err { IfErr result (λ why. why ≡ BodyErr.OutFault) }
{
    match world.flush() {
        Ok(()) => Ok(()),
        Err(Failed) => Err(BodyErr::OutFault),
    }
}

/// How a body went, once all that it printed is written out. Where it stopped by a fault or want of memory that stays
/// the answer, and nothing is written out.
pub(crate) fn written_out<W: World>(went: Result<(), BodyErr>, world: &mut W) -> Result<(), BodyErr>
    ensures unchanged { IsTrue W.tells → W.history world.new ≡ W.history world.old }
    ensures same { W.mounted world.new ≡ W.mounted world.old }
    ensures counts { OnlySayFaults (W.counts world.old) (W.counts world.new) }
    ensures answer { IsWrittenOut went result (W.counts world.old).say_faults (W.counts world.new).say_faults }
    ensures disk_fault { went ≡ Err BodyErr.DiskFault → result ≡ Err BodyErr.DiskFault }
{
    match went {
        Ok(()) | Err(BodyErr::Trapped(_)) => match write_out(world) {
            Ok(()) => went,
            Err(why) => Err(why),
        },
        Err(_) => went,
    }
}
