use crate::{Action, Insertion};
use dbpl_base::List;
use dbpl_value::Field;

/// A program module with one transaction, over the one relation variable of a database module. Names are resolved.
#[derive(Debug, Drop)]
pub struct StoredProgram {
    /// The relation variable: the name under which it is stored, and its type.
    pub relation: Field,
    /// The statements of the transaction.
    pub insertions: List<Insertion>,
    /// The statements of the module's body.
    pub body: List<Action>,
}
