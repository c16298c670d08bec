// Two commands, one behind the other.
ghost use Rattle.dbpl_promise.specs.Work.{IsTold, work_of};
ghost use Rattle.dbpl_tool.specs.Next.{FollowsOn};

use crate::dbpl;
use dbpl_base::{Name, Status, Steps};
use dbpl_world::{Shelf, World};
use std::alloc::Global;
use std::sync::ledger::Ledger;

/// Does what the words ask for, and then what the next words ask for. Where the first command made a store, or ran over it
/// to its end, the headline holds of the second over that store, whatever stood there before.
pub fn one_behind_another<W: World, S: Shelf, L: Ledger>(
    alloc: Global,
    words: &[Name],
    next: &[Name],
    shelf: &mut S,
    world: &mut W,
    steps: &mut Steps<L>,
) -> (Status, Status)
    ensures { let work = work_of S.Shelf W.World shelf.old shelf.new world.old world.new in
        IsTold work → FollowsOn words.now next.now work result.0 result.1 }
{
    let first = dbpl(alloc, words, shelf, world, steps);
    let second = dbpl(alloc, next, shelf, world, steps);
    (first, second)
}
