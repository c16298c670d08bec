ghost use Rattle.std.specs.Prelude.{◌≡◌};
ghost use Rattle.dbpl_tree.specs.FirstTokens as spec;

use crate::{Element, Qual};
use dbpl_base::{List, Place};

/// `Q { e , .. }`
#[cycle(phrases)]
#[derive(Debug, Drop)]
pub struct Aggregate {
    pub kind: Qual,
    pub elements: List<Element>,
}

impl Aggregate {
    /// The place of its first token, which is its type's.
    pub fn place(&self) -> Place
        ensures { result ≡ spec.aggregate_place self.now }
    {
        self.kind.place()
    }
}
