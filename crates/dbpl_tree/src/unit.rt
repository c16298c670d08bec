ghost use Rattle.std.specs.Prelude.{◌≡◌};
ghost use Rattle.dbpl_tree.specs.FirstTokens as spec;

use crate::{Common, Decl, DefinitionItem, Ident, Idents, Statements};
use dbpl_base::{List, Place};

/// THE tree of one text.
#[derive(Debug, Drop)]
pub enum Unit {
    Program(Program),
    /// `IMPLEMENTATION MODULE ..`, with the place of the first word
    Implementation(Place, Program),
    Definition(DefinitionUnit),
    Data(DataUnit),
}

impl Unit {
    /// The place of its first token.
    pub fn place(&self) -> Place
        ensures { result ≡ spec.unit_place self.now }
    {
        match self {
            Unit::Program(program) => program.place,
            Unit::Implementation(place, _) => *place,
            Unit::Definition(definition) => definition.place,
            Unit::Data(data) => data.place,
        }
    }
}

/// `MODULE m ; imports declarations BEGIN body END m .`
#[derive(Debug, Drop)]
pub struct Program {
    /// Of the word MODULE.
    pub place: Place,
    pub name: Ident,
    pub imports: List<Import>,
    pub declarations: List<Decl>,
    pub body: Option<Statements>,
    pub end_name: Ident,
}

/// `DEFINITION MODULE m ; imports items END m .`
#[derive(Debug, Drop)]
pub struct DefinitionUnit {
    /// Of its first token.
    pub place: Place,
    pub name: Ident,
    pub imports: List<Import>,
    pub items: List<DefinitionItem>,
    pub end_name: Ident,
}

/// `DATABASE MODULE m ; imports items END m .`
#[derive(Debug, Drop)]
pub struct DataUnit {
    /// Of its first token.
    pub place: Place,
    pub name: Ident,
    pub imports: List<Import>,
    pub items: List<Common>,
    pub end_name: Ident,
}

/// What a module takes from others. Each place is that of the first token.
#[derive(Debug, PartialEq, Eq, Drop)]
pub enum Import {
    /// `IMPORT M , N ;`
    Whole(Place, Idents),
    /// `FROM M IMPORT a , b ;`
    From(Place, Ident, Idents),
}

impl Import {
    /// The place of its first token.
    pub fn place(&self) -> Place
        ensures { result ≡ spec.import_place self.now }
    {
        match self {
            Import::Whole(place, _) | Import::From(place, _, _) => *place,
        }
    }
}
