ghost use Rattle.std.specs.Prelude.{◌≡◌};
ghost use Rattle.dbpl_tree.specs.FirstTokens as spec;

use crate::{BoxedExpr, Statement, StatementsOf};
use dbpl_base::{List, Place};

/// A branch of CASE, or nothing.
#[derive(Debug, Drop)]
pub enum CaseOf<S> {
    /// With the place of the token behind it.
    Empty(Place),
    /// `1 , 3 .. 5 : s`: the first label, the others, and the statements
    Labelled(Label, List<Label>, StatementsOf<S>),
}

impl<S> CaseOf<S> {
    /// The place of its first token, or of the one behind it where it is nothing.
    pub fn place(&self) -> Place
        ensures { result ≡ spec.case_place self.now }
    {
        match self {
            CaseOf::Empty(place) => *place,
            CaseOf::Labelled(first, _, _) => first.place(),
        }
    }
}

/// `low`, or `low .. high`
#[derive(Debug, Drop)]
pub struct Label {
    pub low: BoxedExpr,
    pub high: Option<BoxedExpr>,
}

impl Label {
    /// The place of its first token.
    pub fn place(&self) -> Place
        ensures { result ≡ spec.label_place self.now }
    {
        self.low.get().place
    }
}

/// A branch of CASE.
pub type Case = CaseOf<Statement>;
