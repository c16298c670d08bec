use crate::{CoreExpr, CoreStepOf, Root};
use dbpl_base::{List, Place, Shared};
use dbpl_value::DbType;

/// What denotes a variable or a part of one, with indexes of the type `E`: its root and then the steps from there, in the
/// order of the text.
///
/// It is made of a designator that names no routine. Each pair of brackets is a step, `[i][j]` two.
#[derive(Drop)]
pub struct CoreDesignatorOf<E> {
    /// Of its first token.
    pub place: Place,
    pub root: Root,
    /// The type of the root. Each step leads from it to the type of a part.
    pub root_kind: Shared<DbType>,
    /// In the order of the text.
    pub steps: List<CoreStepOf<E>>,
}

/// A designator as it stands in a program.
pub type CoreDesignator = CoreDesignatorOf<CoreExpr>;
