use crate::Field;
use dbpl_base::{Boxed, List, Name};

/// The descriptor of a type. `specs/Types.antt` says which descriptors are types.
#[cycle(kinds)]
#[derive(Debug, Drop)]
pub enum DbType {
    Int,
    Card,
    Bool,
    Char,
    /// An enumeration, by the names of its constants.
    Enum(List<Name>),
    /// A subrange of its host, from its least value to its greatest.
    Sub(Boxed<DbType>, i64, i64),
    /// An array, by its index type and the type of its elements.
    Arr(Boxed<DbType>, Boxed<DbType>),
    Rec(List<Field>),
    /// A relation, by the names of its key fields in their order and the type of its records.
    Rel(List<Name>, Boxed<DbType>),
}
