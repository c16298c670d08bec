use crate::Reference;
use dbpl_base::Shared;
use dbpl_value::{DbType, Value};

/// What a variable, a parameter or a local variable has during a run.
#[derive(Drop)]
pub enum Cell {
    /// A value of this type.
    Holds(Shared<DbType>, Value),
    /// The variable for which a VAR parameter stands.
    Refers(Reference),
}
