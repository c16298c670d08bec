use crate::DbType;
use dbpl_base::{Name, Shared};

/// A declared variable: its name and its type. Each use of it carries the type, so they share it.
#[derive(Debug, Drop)]
pub struct Variable {
    pub name: Name,
    pub kind: Shared<DbType>,
}
