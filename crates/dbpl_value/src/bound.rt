use crate::{DbType, Value};
use dbpl_base::Name;

/// A relation variable of a database: its name, its type and the relation that it holds.
#[derive(Debug, Drop)]
pub struct Bound {
    pub name: Name,
    pub kind: DbType,
    pub rel: Value,
}
