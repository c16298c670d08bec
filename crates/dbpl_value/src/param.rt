use crate::DbType;
use dbpl_base::{Name, Shared};

/// A parameter: its name, its type, and whether it stands for the argument's variable (VAR) or for its value.
#[derive(Debug, Drop)]
pub struct Param {
    pub name: Name,
    pub kind: Shared<DbType>,
    pub by_ref: bool,
}
