ghost use Rattle.std.specs.Prelude.{◌≡◌};
ghost use Rattle.dbpl_tree.specs.FirstTokens as spec;

use crate::{
    BoxedArguments, BoxedExpr, BoxedRange, CaseOf, ChangeOperator, Designator, Expr, Ident,
    StatementsOf,
};
use dbpl_base::{Boxed, List, Place};

/// A statement. Each first place is that of its first token.
#[cycle(statements)]
#[derive(Debug, Drop)]
pub enum Statement {
    /// With the place of the token behind it.
    Empty(Place),
    /// `target := right`, with the place of the operator
    Change(Designator, Place, ChangeOperator, BoxedExpr),
    /// `x . p ( a , b )`
    Call(Designator, Option<BoxedArguments>),
    /// `IF e THEN s ELSIF .. ELSE t END`
    If(
        Place,
        BoxedExpr,
        StatementsOf<Statement>,
        List<ElsifOf<Statement>>,
        Option<Boxed<StatementsOf<Statement>>>,
    ),
    /// `CASE e OF case | .. ELSE t END`
    Case(
        Place,
        BoxedExpr,
        Boxed<CaseOf<Statement>>,
        List<CaseOf<Statement>>,
        Option<Boxed<StatementsOf<Statement>>>,
    ),
    /// `WHILE e DO s END`
    While(Place, BoxedExpr, StatementsOf<Statement>),
    /// `REPEAT s UNTIL e`
    Repeat(Place, StatementsOf<Statement>, BoxedExpr),
    /// `LOOP s END`
    Loop(Place, StatementsOf<Statement>),
    /// `EXIT`
    Exit(Place),
    /// `RETURN e`
    Return(Place, Option<BoxedExpr>),
    /// `FOR i := start TO end BY step DO s END`
    For(Place, Ident, BoxedExpr, BoxedExpr, Option<BoxedExpr>, Boxed<StatementsOf<Statement>>),
    /// `FOR EACH x IN range : e DO s END`, with the places of both words
    ForEach(Place, Place, Ident, BoxedRange, BoxedExpr, Boxed<StatementsOf<Statement>>),
}

impl Statement {
    /// The place of its first token, or of the one behind it where it is empty.
    pub fn place(&self) -> Place
        ensures { result ≡ spec.statement_place self.now }
    {
        match self {
            Statement::Empty(place)
            | Statement::If(place, _, _, _, _)
            | Statement::Case(place, _, _, _, _)
            | Statement::While(place, _, _)
            | Statement::Repeat(place, _, _)
            | Statement::Loop(place, _)
            | Statement::Exit(place)
            | Statement::Return(place, _)
            | Statement::For(place, _, _, _, _, _)
            | Statement::ForEach(place, _, _, _, _, _) => *place,
            Statement::Change(target, _, _, _) => target.place(),
            Statement::Call(designator, _) => designator.place(),
        }
    }
}

/// `ELSIF condition THEN body`
#[derive(Debug, Drop)]
pub struct ElsifOf<S> {
    pub condition: Expr,
    pub body: StatementsOf<S>,
}

/// A further branch of IF.
pub type Elsif = ElsifOf<Statement>;
