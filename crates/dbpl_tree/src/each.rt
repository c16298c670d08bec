use crate::{Ident, Range};
use dbpl_base::Place;

/// `EACH x IN range`
#[cycle(phrases)]
#[derive(Debug, Drop)]
pub struct Each {
    /// Of the word EACH.
    pub place: Place,
    pub variable: Ident,
    pub range: Range,
}
