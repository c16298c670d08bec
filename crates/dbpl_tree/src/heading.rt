ghost use Rattle.std.specs.Prelude.{◌≡◌};
ghost use Rattle.dbpl_tree.specs.FirstTokens as spec;

use crate::{Ident, Idents, Qual};
use dbpl_base::{List, Place};

/// `PROCEDURE p ( parameters ) : Q`
#[derive(Debug, PartialEq, Eq, Drop)]
pub struct Heading {
    /// Of its first token.
    pub place: Place,
    pub word: RoutineWord,
    pub name: Ident,
    pub signature: Option<Signature>,
}

/// The word that a heading begins with.
#[derive(Clone, Copy, Debug, PartialEq, Eq)]
pub enum RoutineWord {
    Procedure,
    Transaction,
}

/// `( parameters ) : Q`
#[derive(Debug, PartialEq, Eq, Drop)]
pub struct Signature {
    pub params: Params,
    pub result: Option<Qual>,
}

impl Signature {
    /// The place of its first token.
    pub fn place(&self) -> Place
        ensures { result ≡ spec.signature_place self.now }
    {
        self.params.place
    }
}

/// `( section ; .. )`
#[derive(Debug, PartialEq, Eq, Drop)]
pub struct Params {
    /// Of `(`.
    pub place: Place,
    pub sections: List<Section>,
}

/// `VAR a , b : Q`
#[derive(Debug, PartialEq, Eq, Drop)]
pub struct Section {
    /// Of its first token.
    pub place: Place,
    /// Whether the word VAR stands there.
    pub by_reference: bool,
    pub names: Idents,
    pub kind: Qual,
}
