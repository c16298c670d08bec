use crate::{DbType, Param};
use dbpl_base::{List, Name, Shared};

/// The heading of a procedure or a transaction.
#[derive(Debug, Drop)]
pub struct Head {
    pub name: Name,
    pub transaction: bool,
    pub params: List<Param>,
    pub result: Option<Shared<DbType>>,
}
