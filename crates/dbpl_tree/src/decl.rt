ghost use Rattle.std.specs.Prelude.{◌≡◌};
ghost use Rattle.dbpl_tree.specs.FirstTokens as spec;

use crate::{
    Aggregate, BoxedExpr, Expr, Heading, Ident, Idents, Params, Qual, Statements, TypeTree,
};
use dbpl_base::{Boxed, List, Place};

/// Constants, types or variables. Each place is that of the first token.
#[derive(Debug, Drop)]
pub enum PlainDecl {
    /// `CONST a = 1 ; ..`
    Const(Place, List<ConstDecl>),
    /// `TYPE T = type ; ..`
    Type(Place, List<TypeDecl>),
    /// `VAR a , b : type ; ..`
    Var(Place, List<VarDecl>),
}

impl PlainDecl {
    /// The place of its first token.
    pub fn place(&self) -> Place
        ensures { result ≡ spec.plain_place self.now }
    {
        match self {
            PlainDecl::Const(place, _) | PlainDecl::Type(place, _) | PlainDecl::Var(place, _) =>
                *place,
        }
    }
}

/// `a = e ;`
#[derive(Debug, Drop)]
pub struct ConstDecl {
    pub name: Ident,
    pub value: Expr,
}

impl ConstDecl {
    /// The place of its first token.
    pub fn place(&self) -> Place
        ensures { result ≡ spec.const_place self.now }
    {
        self.name.place
    }
}

/// `T = type ;`
#[derive(Debug, Drop)]
pub struct TypeDecl {
    pub name: Ident,
    pub kind: TypeTree,
}

impl TypeDecl {
    /// The place of its first token.
    pub fn place(&self) -> Place
        ensures { result ≡ spec.type_decl_place self.now }
    {
        self.name.place
    }
}

/// `a , b : type ;`
#[derive(Debug, Drop)]
pub struct VarDecl {
    pub names: Idents,
    pub kind: TypeTree,
}

impl VarDecl {
    /// The place of its first token.
    pub fn place(&self) -> Place
        ensures { result ≡ spec.var_place self.now }
    {
        self.names.place()
    }
}

/// What every kind of module may declare.
#[derive(Debug, Drop)]
pub enum Common {
    Plain(PlainDecl),
    /// `SELECTOR s ( parameters ) FOR x IN Q : e ;`
    Selector(Place, Ident, Option<Params>, Ident, Qual, BoxedExpr),
    /// `CONSTRUCTOR c ( parameters ) : aggregate ;`
    Constructor(Place, Ident, Option<Params>, Aggregate),
}

impl Common {
    /// The place of its first token.
    pub fn place(&self) -> Place
        ensures { result ≡ spec.common_place self.now }
    {
        match self {
            Common::Plain(decl) => decl.place(),
            Common::Selector(place, _, _, _, _, _) | Common::Constructor(place, _, _, _) => *place,
        }
    }
}

/// A declaration of a module that has a body.
#[derive(Debug, Drop)]
pub enum Decl {
    Common(Common),
    Routine(Boxed<Routine>),
}

impl Decl {
    /// The place of its first token.
    pub fn place(&self) -> Place
        ensures { result ≡ spec.decl_place self.now }
    {
        match self {
            Decl::Common(common) => common.place(),
            Decl::Routine(routine) => routine.get().place(),
        }
    }
}

/// `heading ; declarations BEGIN body END name ;`
#[derive(Debug, Drop)]
pub struct Routine {
    pub heading: Heading,
    pub declarations: List<PlainDecl>,
    pub body: Option<Statements>,
    /// The place of the word END.
    pub end: Place,
    pub end_name: Ident,
}

impl Routine {
    /// The place of its first token.
    pub fn place(&self) -> Place
        ensures { result ≡ spec.routine_place self.now }
    {
        self.heading.place
    }
}

/// A declaration of a definition module.
#[derive(Debug, Drop)]
pub enum DefinitionItem {
    Common(Common),
    /// `heading ;`
    Heading(Heading),
}

impl DefinitionItem {
    /// The place of its first token.
    pub fn place(&self) -> Place
        ensures { result ≡ spec.item_place self.now }
    {
        match self {
            DefinitionItem::Common(common) => common.place(),
            DefinitionItem::Heading(heading) => heading.place,
        }
    }
}
