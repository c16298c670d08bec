use crate::{CoreDesignatorOf, CoreExpr};
use dbpl_base::Shared;
use dbpl_value::DbType;

/// The control variable of FOR, made of the name behind the word, with indexes of the type `E`: the variable, its type, and
/// the type in which it is counted.
#[derive(Drop)]
pub struct CoreControlOf<E> {
    /// The variable, and its place: a number of the count that isn't in its type is trap 3 there.
    pub variable: CoreDesignatorOf<E>,
    pub kind: Shared<DbType>,
    /// The type in which the count goes on: INTEGER, CARDINAL or the ordinal type itself where it has no bounds.
    pub host: Shared<DbType>,
}

/// A control variable as it stands in a program.
pub type CoreControl = CoreControlOf<CoreExpr>;
