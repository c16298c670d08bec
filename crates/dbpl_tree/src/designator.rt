ghost use Rattle.std.specs.Prelude.{◌≡◌, slice_get};
ghost use Rattle.std.specs.Option.{option_copied};
ghost use Rattle.dbpl_tree.specs.FirstTokens as spec;
ghost use Rattle.dbpl_tree.specs.Plain.{arguments_in};

use crate::{ExprOf, ExprsOf, Factor, Ident};
use dbpl_base::{List, Place};

/// `x . f [ i , j ] ..`
#[derive(Debug, Drop)]
pub struct DesignatorOf<F> {
    pub head: Ident,
    pub parts: List<PartOf<F>>,
}

impl<F> DesignatorOf<F> {
    /// The place of its first token.
    pub fn place(&self) -> Place
        ensures { result ≡ spec.designator_place self.now }
    {
        self.head.place
    }
}

/// A further part of a designator.
#[derive(Debug, Drop)]
pub enum PartOf<F> {
    /// `. f`
    Field(Ident),
    /// `[ i , j ]`, with the place of `[`
    Subscripts(Place, ExprsOf<F>),
}

/// `( a , b )`
#[derive(Debug, Drop)]
pub struct ArgumentsOf<F> {
    /// Of `(`.
    pub place: Place,
    pub exprs: Option<ExprsOf<F>>,
}

impl<F> ArgumentsOf<F> {
    /// The expression at this position, counted from 0.
    pub fn get(&self, at: usize) -> Option<&ExprOf<F>>
        ensures { option_copied result ≡ slice_get (arguments_in self.now) at }
    {
        match &self.exprs {
            Some(exprs) => exprs.get(at),
            None => None,
        }
    }
}

/// What denotes a variable, a routine or a part of one.
pub type Designator = DesignatorOf<Factor>;

/// A further part of a designator.
pub type Part = PartOf<Factor>;

/// What stands in the parentheses of a call.
pub type Arguments = ArgumentsOf<Factor>;
