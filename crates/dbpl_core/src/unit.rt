use crate::{CoreStmt, Routine};
use dbpl_base::{List, Name, Shared};
use dbpl_value::Variable;

/// A unit of a program: made of a module, with its variables, its routines and its body, each list in the order of the text.
/// Constants and types are no part of it, since each use of one has become a number or a type.
#[derive(Drop)]
pub struct CoreUnit {
    pub name: Shared<Name>,
    /// 0 for a definition module, 1 for an implementation module, 2 for a database module, 3 for a program module.
    pub form: u8,
    pub globals: List<Variable>,
    pub routines: List<Routine>,
    /// The body of the module.
    pub body: List<CoreStmt>,
}
