use crate::{
    CoreArgumentOf, CoreArmOf, CoreBranchOf, CoreCallOf, CoreControlOf, CoreDesignatorOf, CoreExpr,
    Direction, InOutProcedure,
};
use dbpl_base::{Boxed, List, Place, Shared};
use dbpl_value::DbType;

/// A statement of an accepted program, with expressions of the type `E`.
///
/// The first place of a form is that of its first token but in an assignment, whose designator has it. The other parts
/// follow in the order of the text. Statements between semicolons are a list.
#[cycle(core_stmts)]
#[derive(Drop)]
pub enum CoreStmtOf<E> {
    /// With the place of the token behind it.
    Empty(Place),
    /// `EXIT`, which ends the innermost LOOP.
    Exit(Place),
    /// `HALT`, which ends the run.
    Halt(Place),
    /// `v := e`, with the place of the operator. The subscripts of v come first, then e, then the value is stored.
    Assign(Place, CoreDesignatorOf<E>, Boxed<E>),
    /// The call of a procedure or a transaction.
    Call(CoreCallOf<E>),
    /// The call of a procedure of InOut, with its arguments.
    InOut(Place, InOutProcedure, List<CoreArgumentOf<E>>),
    /// `INC(v, n)` or `DEC(v, n)`, with the type of v and with n where it is written. The sum is exact; where it isn't in
    /// the type it is trap 3 at the place.
    Count(Place, Direction, CoreDesignatorOf<E>, Shared<DbType>, Option<Boxed<E>>),
    /// `IF e THEN s ELSIF .. ELSE t END`: the arms, and what ELSE has.
    If(Place, List<CoreArmOf<E, CoreStmtOf<E>>>, Option<List<CoreStmtOf<E>>>),
    /// `CASE e OF branch | .. ELSE t END`, with the host of e and what ELSE has. Where no label fits and there is no ELSE
    /// it is trap 5 at the place, that of the word CASE.
    Case(
        Place,
        Boxed<E>,
        Shared<DbType>,
        List<CoreBranchOf<CoreStmtOf<E>>>,
        Option<List<CoreStmtOf<E>>>,
    ),
    /// `WHILE e DO s END`
    While(Place, Boxed<E>, List<CoreStmtOf<E>>),
    /// `REPEAT s UNTIL e`
    Repeat(Place, List<CoreStmtOf<E>>, Boxed<E>),
    /// `LOOP s END`
    Loop(Place, List<CoreStmtOf<E>>),
    /// `RETURN`, or `RETURN e` in a function.
    Return(Place, Option<Boxed<E>>),
    /// `FOR v := e TO f BY n DO s END`: both bounds are evaluated once. The constant n isn't 0; without BY it is 1.
    For(Place, CoreControlOf<E>, Boxed<E>, Boxed<E>, Option<i64>, List<CoreStmtOf<E>>),
}

/// A statement as it stands in a program.
pub type CoreStmt = CoreStmtOf<CoreExpr>;
