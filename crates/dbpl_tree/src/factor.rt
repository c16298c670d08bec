ghost use Rattle.std.specs.Prelude.{◌≡◌};
ghost use Rattle.dbpl_tree.specs.FirstTokens as spec;

use crate::{Aggregate, ArgumentsOf, DesignatorOf, ExprOf, Ident, NotOperator, Quantifier, Range};
use dbpl_base::{Boxed, Name, Place};

/// A factor. Each place is that of its first token.
#[cycle(phrases)]
#[derive(Debug, Drop)]
pub enum Factor {
    /// The number, or 4,294,967,296 where that is less.
    Number(Place, u64),
    /// A character by its code: the code, or 4,294,967,296 where that is less.
    CharCode(Place, u64),
    /// A string without its quotes.
    Text(Place, Name),
    Aggregate(Boxed<Aggregate>),
    /// `x . f [ i ]`, with its arguments where it is a call.
    Designator(DesignatorOf<Factor>, Option<Boxed<ArgumentsOf<Factor>>>),
    /// `( e )`
    Parenthesized(Place, Boxed<ExprOf<Factor>>),
    /// `NOT f`
    Not(Place, NotOperator, Boxed<Factor>),
    /// `SOME x IN range ( e )`
    Quantified(Place, Quantifier, Ident, Boxed<Range>, Boxed<ExprOf<Factor>>),
}

impl Factor {
    /// The place of its first token.
    pub fn place(&self) -> Place
        ensures { result ≡ spec.factor_place self.now }
    {
        match self {
            Factor::Number(place, _)
            | Factor::CharCode(place, _)
            | Factor::Text(place, _)
            | Factor::Parenthesized(place, _)
            | Factor::Not(place, _, _)
            | Factor::Quantified(place, _, _, _, _) => *place,
            Factor::Aggregate(aggregate) => aggregate.get().place(),
            Factor::Designator(designator, _) => designator.place(),
        }
    }
}
