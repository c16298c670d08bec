ghost use Rattle.std.specs.Prelude.{◌≡◌};
ghost use Rattle.dbpl_tree.specs.FirstTokens as spec;

use crate::Statement;
use dbpl_base::{Boxed, List, Place};

/// `s ; t ; ..`
#[derive(Debug, Drop)]
pub struct StatementsOf<S> {
    pub first: Boxed<S>,
    pub others: List<S>,
}

impl StatementsOf<Statement> {
    /// The place of the first statement's.
    pub fn place(&self) -> Place
        ensures { result ≡ spec.statements_place self.now }
    {
        self.first.get().place()
    }
}

/// Statements with semicolons between them.
pub type Statements = StatementsOf<Statement>;
