use crate::Pair;

/// A pair as a scope holds it, with the place of the pair that it hides: the latest one of its name before it.
#[derive(Drop)]
pub struct Held {
    pub pair: Pair,
    pub hides: Option<usize>,
}
