ghost use Rattle.std.specs.Prelude.{◌≡◌};
ghost use Rattle.dbpl_tree.specs.FirstTokens as spec;

use crate::{Aggregate, DesignatorOf, Factor};
use dbpl_base::{Boxed, Place};

/// What a variable ranges over.
#[cycle(phrases)]
#[derive(Debug, Drop)]
pub enum Range {
    Designator(DesignatorOf<Factor>),
    Aggregate(Boxed<Aggregate>),
}

impl Range {
    /// The place of its first token.
    pub fn place(&self) -> Place
        ensures { result ≡ spec.range_place self.now }
    {
        match self {
            Range::Designator(designator) => designator.place(),
            Range::Aggregate(aggregate) => aggregate.get().place(),
        }
    }
}
