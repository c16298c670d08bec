use crate::{CoreExpr, CoreStmt};
use dbpl_base::{Boxed, List};

/// `IF e THEN s` or `ELSIF e THEN s`, with expressions of the type `E` and statements of the type `S`.
#[derive(Drop)]
pub struct CoreArmOf<E, S> {
    pub condition: Boxed<E>,
    pub statements: List<S>,
}

/// An arm as it stands in a program.
pub type CoreArm = CoreArmOf<CoreExpr, CoreStmt>;
