use crate::{CoreArgumentOf, CoreExpr};
use dbpl_base::{List, Name, Place, Shared};
use dbpl_value::Head;

/// A call of a procedure, a function or a transaction, with arguments of the type `E`: the routine and then the arguments.
///
/// It is made of a designator that names a routine. The routine is known by its module, the owner, and by the name that
/// stands in its heading.
#[derive(Drop)]
pub struct CoreCallOf<E> {
    /// Of its first token. Trap 7 comes here where too many calls are open.
    pub place: Place,
    pub owner: Shared<Name>,
    pub head: Shared<Head>,
    /// One for each parameter of the heading, in their order. Each is evaluated and fitted before the next one.
    pub arguments: List<CoreArgumentOf<E>>,
}

/// A call as it stands in a program.
pub type CoreCall = CoreCallOf<CoreExpr>;
