use crate::CoreStmt;
use dbpl_base::{List, Place, Shared};
use dbpl_value::{Head, Variable};

/// A procedure, a function or a transaction: made of its declaration, with its heading, its local variables, its body and
/// its END in the order of the text.
#[derive(Drop)]
pub struct Routine {
    pub head: Shared<Head>,
    /// The local variables, in the order of their declarations.
    pub locals: List<Variable>,
    pub body: List<CoreStmt>,
    /// Of its END. A function that reaches it without RETURN traps 6 there.
    pub finish: Place,
}
