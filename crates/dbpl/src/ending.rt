// What of the program holds in every world: the words go to the one call, and its status gives the code.
ghost use Rattle.std.specs.Prelude.{◌≡◌, ◌<◌};
ghost use Rattle.dbpl_base.specs.Statuses.{code_of};
ghost use Rattle.dbpl_base.specs.declared.status.Status.{Status as Answer};
ghost use Rattle.dbpl_promise.specs.Work.{work_of};
ghost use Rattle.dbpl_tool.specs.Commands.{AnswersWords};

use dbpl_base::{Name, Steps};
use dbpl_tool::dbpl;
use dbpl_world::{Shelf, World};
use std::alloc::Global;
use std::sync::ledger::{Blank, Ledger};

/// The code with which the program ends after these words. The counter is one that nobody reads.
pub fn code_after<L: Ledger, W: World, S: Shelf>(
    alloc: Global,
    words: &[Name],
    shelf: &mut S,
    world: &mut W,
    blank: Blank,
) -> u8
    requires name { blank.name ≡ L.name }
    requires parts { blank.parts ≡ L.parts }
    requires some { 0 < L.parts }
    // It is the code of the one answer of the top call to these words. Where they ask for nothing, nothing is done.
    ensures { (answer : Answer) × (result ≡ code_of answer)
        × AnswersWords words.now (work_of S.Shelf W.World shelf.old shelf.new world.old world.new) answer }
{
    let mut steps = Steps::<L>::new(blank);
    dbpl(alloc, words, shelf, world, &mut steps).code()
}
