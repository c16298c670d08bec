ghost use Rattle.std.specs.Prelude.{◌≡◌};
ghost use Rattle.dbpl_tree.specs.FirstTokens as spec;

use crate::{Each, ExprOf, Factor};
use dbpl_base::{Boxed, List, Place};

/// An element of an aggregate.
#[cycle(phrases)]
#[derive(Debug, Drop)]
pub enum Element {
    /// `EACH x IN range : predicate`
    Each(Each, Boxed<ExprOf<Factor>>),
    /// `e`
    Plain(ExprOf<Factor>),
    /// `target OF EACH x IN range , EACH .. : predicate`
    Of(Boxed<ExprOf<Factor>>, Each, List<Each>, Boxed<ExprOf<Factor>>),
}

impl Element {
    /// The place of its first token.
    pub fn place(&self) -> Place
        ensures { result ≡ spec.element_place self.now }
    {
        match self {
            Element::Each(each, _) => each.place,
            Element::Plain(expr) => expr.place,
            Element::Of(target, _, _, _) => target.get().place,
        }
    }
}
