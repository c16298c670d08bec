use crate::{AddingOperator, Factor, SignOperator, TermOf};
use dbpl_base::{List, Place};

/// `- t + u OR ..`
#[derive(Debug, Drop)]
pub struct SimpleOf<F> {
    /// Of its first token: the sign, where there is one.
    pub place: Place,
    pub sign: Option<SignOperator>,
    pub first: TermOf<F>,
    pub others: List<AddedOf<F>>,
}

/// `+ t`
#[derive(Debug, Drop)]
pub struct AddedOf<F> {
    /// Of the operator.
    pub place: Place,
    pub operator: AddingOperator,
    pub term: TermOf<F>,
}

/// A sum.
pub type Simple = SimpleOf<Factor>;

/// A further term of a sum, with its operator.
pub type Added = AddedOf<Factor>;
