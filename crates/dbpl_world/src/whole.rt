// Calls of a world made until all bytes are moved.
ghost use Rattle.std.specs.Prelude.{◌≡◌, ℕ, map, take, IsTrue, OnOk, OnErr};
ghost use Rattle.dbpl_world.specs.History.{Said, Noted, more};
ghost use Rattle.dbpl_world.specs.Counts.{Rose, OnlySayFaults, OnlyNoteFaults};

use crate::{Failed, World};

/// Says all the bytes, one call a byte.
pub fn say_all<W: World>(world: &mut W, bytes: &[u8]) -> Result<(), Failed>
    ensures ok { IsTrue W.tells → OnOk result (W.history world.new ≡ more (W.history world.old) (map Said bytes.now)) }
    ensures err { IsTrue W.tells → OnErr result ((n : ℕ) × (W.history world.new ≡ more (W.history world.old) (map Said (take n bytes.now)))) }
    ensures same { W.mounted world.new ≡ W.mounted world.old }
    ensures counts { OnlySayFaults (W.counts world.old) (W.counts world.new) }
    ensures fine { OnOk result ((W.counts world.new).say_faults ≡ (W.counts world.old).say_faults) }
    ensures cause { OnErr result (Rose (W.counts world.old).say_faults (W.counts world.new).say_faults) }
{
    for byte in bytes {
        world.say(&[*byte])?;
    }
    Ok(())
}

/// Notes all the bytes, as many a call as the world takes.
pub fn note_all<W: World>(world: &mut W, bytes: &[u8]) -> Result<(), Failed>
    ensures ok { IsTrue W.tells → OnOk result (W.history world.new ≡ more (W.history world.old) (map Noted bytes.now)) }
    ensures err { IsTrue W.tells → OnErr result ((n : ℕ) × (W.history world.new ≡ more (W.history world.old) (map Noted (take n bytes.now)))) }
    ensures same { W.mounted world.new ≡ W.mounted world.old }
    ensures counts { OnlyNoteFaults (W.counts world.old) (W.counts world.new) }
    ensures cause { OnErr result (Rose (W.counts world.old).note_faults (W.counts world.new).note_faults) }
{
    let mut done = 0;
    while done < bytes.len() {
        done += world.note(&bytes[done..])?;
    }
    Ok(())
}
