use crate::Statement;
use dbpl_base::{List, Name};

/// A program module.
#[derive(Debug, PartialEq, Eq, Drop)]
pub struct Program {
    pub name: Name,
    /// In the order of the text.
    pub statements: List<Statement>,
}
