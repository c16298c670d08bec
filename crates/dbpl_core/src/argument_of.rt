use crate::{CoreDesignatorOf, CoreExpr};

/// An argument of a call, with values of the type `E`: made of an expression in the parentheses, by the parameter for which
/// it stands.
#[derive(Drop)]
pub enum CoreArgumentOf<E> {
    /// For a parameter that stands for a value.
    Value(E),
    /// For a VAR parameter: the variable, or the part of one, that it stands for.
    Variable(CoreDesignatorOf<E>),
}

/// An argument as it stands in a program.
pub type CoreArgument = CoreArgumentOf<CoreExpr>;
