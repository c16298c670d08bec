ghost use Rattle.std.specs.Prelude.{◌≡◌, slice_get};
ghost use Rattle.std.specs.Option.{option_copied};
ghost use Rattle.dbpl_tree.specs.FirstTokens as spec;
ghost use Rattle.dbpl_tree.specs.Plain.{exprs_in};

use crate::{Factor, Relation, SimpleOf};
use dbpl_base::{Boxed, List, Place};

/// An expression with factors of this type: `left`, or `left = right` and its like.
#[derive(Debug, Drop)]
pub struct ExprOf<F> {
    /// Of its first token.
    pub place: Place,
    pub left: SimpleOf<F>,
    pub right: Option<Boxed<ComparedOf<F>>>,
}

/// `= right`, or its like
#[derive(Debug, Drop)]
pub struct ComparedOf<F> {
    /// Of the operator.
    pub place: Place,
    pub relation: Relation,
    pub right: SimpleOf<F>,
}

/// `e , f , ..`
#[derive(Debug, Drop)]
pub struct ExprsOf<F> {
    pub first: Boxed<ExprOf<F>>,
    pub others: List<ExprOf<F>>,
}

impl<F> ExprsOf<F> {
    /// The place of its first token.
    pub fn place(&self) -> Place
        ensures { result ≡ spec.exprs_place self.now }
    {
        self.first.get().place
    }

    /// The expression at this position, counted from 0.
    pub fn get(&self, at: usize) -> Option<&ExprOf<F>>
        ensures { option_copied result ≡ slice_get (exprs_in self.now) at }
    {
        if at == 0 {
            Some(self.first.get())
        } else {
            self.others.get(at - 1)
        }
    }
}

/// An expression.
pub type Expr = ExprOf<Factor>;

/// The right side of a comparison.
pub type Compared = ComparedOf<Factor>;

/// Expressions with commas between them.
pub type Exprs = ExprsOf<Factor>;
