use crate::Pair;
use dbpl_base::{List, Name, Shared};

/// What a unit shows to others: its name, and the declarations that were made in it, in the order of its text.
#[cycle(declarations)]
#[derive(Drop)]
pub struct Exports {
    pub module: Shared<Name>,
    pub pairs: List<Pair>,
}
