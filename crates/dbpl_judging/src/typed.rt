use crate::Facts;
use dbpl_base::Boxed;
use dbpl_core::CoreExpr;

/// An expression that breaks no rule: what is known of it, and its resolved form.
#[derive(Drop)]
pub struct Typed {
    pub facts: Facts,
    pub tree: Boxed<CoreExpr>,
}
