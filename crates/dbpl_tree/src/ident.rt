ghost use Rattle.std.specs.Prelude.{◌≡◌};
ghost use Rattle.dbpl_tree.specs.FirstTokens as spec;

use dbpl_base::{List, Name, Place};

/// A name in the text, with the place where it stands.
#[derive(Debug, PartialEq, Eq, Drop)]
pub struct Ident {
    pub place: Place,
    pub name: Name,
}

/// `a , b , ..`
#[derive(Debug, PartialEq, Eq, Drop)]
pub struct Idents {
    pub first: Ident,
    pub others: List<Ident>,
}

impl Idents {
    /// The place of its first token.
    pub fn place(&self) -> Place
        ensures { result ≡ spec.idents_place self.now }
    {
        self.first.place
    }
}

/// `x` or `M . x`
#[derive(Debug, PartialEq, Eq, Drop)]
pub struct Qual {
    pub first: Ident,
    pub second: Option<Ident>,
}

impl Qual {
    /// The place of its first token.
    pub fn place(&self) -> Place
        ensures { result ≡ spec.qual_place self.now }
    {
        self.first.place
    }
}
