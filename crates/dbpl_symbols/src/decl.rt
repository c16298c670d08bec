use crate::{Exports, Sort, StandardProcedure};
use dbpl_base::{Name, Shared};
use dbpl_core::InOutProcedure;
use dbpl_value::{DbType, Head};

/// What a name means. A name that stands first in a variant is that of the declaring module.
#[cycle(declarations)]
#[derive(Drop)]
pub enum Decl {
    /// A constant of an ordinal type that isn't whole, by its number: of BOOLEAN, CHAR or an enumeration.
    Num(Shared<DbType>, i64),
    /// A whole constant. It has no type of its own.
    Whole(i64),
    /// A string constant.
    Text(Shared<Name>),
    /// A type.
    Kind(Shared<DbType>),
    /// A variable with its type.
    Variable(Shared<DbType>, Sort),
    /// A procedure or a transaction.
    Routine(Shared<Name>, Shared<Head>),
    /// A selector: its parameters, the relation type of which it is a view, and its depth.
    Selector(Shared<Name>, Shared<Head>, Shared<DbType>, u8),
    /// A constructor: its parameters, the relation type that it gives, and its depth.
    Constructor(Shared<Name>, Shared<Head>, Shared<DbType>, u8),
    Standard(StandardProcedure),
    /// A procedure of InOut with its heading. WriteString alone has none, since no heading says what it takes: a string, or
    /// an array of CHAR of any length.
    InOut(InOutProcedure, Option<Shared<Head>>),
    /// An imported module, with what it shows.
    Unit(Shared<Exports>),
    /// A declaration that was refused, or whose type is unknown. A use of it breaks no rule and has no type.
    Unknown,
}
