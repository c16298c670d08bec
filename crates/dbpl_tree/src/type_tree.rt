ghost use Rattle.std.specs.Prelude.{◌≡◌};
ghost use Rattle.dbpl_tree.specs.FirstTokens as spec;

use crate::{BoxedExpr, Idents, Qual};
use dbpl_base::{Boxed, List, Place};

/// A type as it is written. Each place is that of its first token.
#[cycle(types)]
#[derive(Debug, Drop)]
pub enum TypeTree {
    Named(Qual),
    /// `( red , blue )`
    Enumeration(Place, Idents),
    /// `[ low .. high ]`
    Subrange(Place, BoxedExpr, BoxedExpr),
    /// `ARRAY index , .. OF element`: the first index type, the others, and the type of the elements
    Array(Place, Boxed<TypeTree>, List<TypeTree>, Boxed<TypeTree>),
    /// `RECORD fields ; .. END`
    Record(Place, FieldsOf<TypeTree>, List<FieldsOf<TypeTree>>),
    /// `RELATION a , b OF Q`
    Relation(Place, Idents, Qual),
}

impl TypeTree {
    /// The place of its first token.
    pub fn place(&self) -> Place
        ensures { result ≡ spec.type_place self.now }
    {
        match self {
            TypeTree::Named(qual) => qual.place(),
            TypeTree::Enumeration(place, _)
            | TypeTree::Subrange(place, _, _)
            | TypeTree::Array(place, _, _, _)
            | TypeTree::Record(place, _, _)
            | TypeTree::Relation(place, _, _) => *place,
        }
    }
}

/// The fields of one type in a record, or nothing.
#[derive(Debug, Drop)]
pub enum FieldsOf<T> {
    /// With the place of the token behind it.
    Empty(Place),
    /// `a , b : type`
    Fields(Idents, Boxed<T>),
}

impl<T> FieldsOf<T> {
    /// The place of its first token, or of the one behind it where it is nothing.
    pub fn place(&self) -> Place
        ensures { result ≡ spec.fields_place self.now }
    {
        match self {
            FieldsOf::Empty(place) => *place,
            FieldsOf::Fields(names, _) => names.place(),
        }
    }
}

/// The fields of one type.
pub type Fields = FieldsOf<TypeTree>;
