use crate::{Factor, MultiplyingOperator};
use dbpl_base::{List, Place};

/// `f * g DIV ..`
#[derive(Debug, Drop)]
pub struct TermOf<F> {
    /// Of its first token.
    pub place: Place,
    pub first: F,
    pub others: List<MultipliedOf<F>>,
}

/// `* f`
#[derive(Debug, Drop)]
pub struct MultipliedOf<F> {
    /// Of the operator.
    pub place: Place,
    pub operator: MultiplyingOperator,
    pub factor: F,
}

/// A product.
pub type Term = TermOf<Factor>;

/// A further factor of a product, with its operator.
pub type Multiplied = MultipliedOf<Factor>;
