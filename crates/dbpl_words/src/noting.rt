// Notes on standard error, piece after piece.
ghost use Rattle.std.specs.Prelude.{◌≡◌, ℕ, map, take, IsTrue, OnErr, OnOk};
ghost use Rattle.std.specs.List.{flat_map};
ghost use Rattle.dbpl_world.specs.Counts.{OnlyNoteFaults, Rose};
ghost use Rattle.dbpl_world.specs.History.{Noted, more};

use dbpl_world::{Failed, World, note_all};

/// Notes the pieces one after another.
pub fn note_pieces<W: World>(world: &mut W, pieces: &[&[u8]]) -> Result<(), Failed>
    ensures ok { IsTrue W.tells → OnOk result (W.history world.new ≡ more (W.history world.old) (map Noted (flat_map (λ piece. piece.now) pieces.now))) }
    ensures err { IsTrue W.tells → OnErr result ((n : ℕ) × (W.history world.new ≡ more (W.history world.old) (map Noted (take n (flat_map (λ piece. piece.now) pieces.now))))) }
    ensures same { W.mounted world.new ≡ W.mounted world.old }
    ensures counts { OnlyNoteFaults (W.counts world.old) (W.counts world.new) }
    ensures cause { OnErr result (Rose (W.counts world.old).note_faults (W.counts world.new).note_faults) }
{
    for piece in pieces {
        note_all(world, piece)?;
    }
    Ok(())
}
