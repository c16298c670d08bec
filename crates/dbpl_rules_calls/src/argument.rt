use crate::Denoted;
use dbpl_base::Shared;
use dbpl_judging::Typed;
use dbpl_value::DbType;

/// An argument that is what its place asks for.
#[derive(Drop)]
pub enum Argument {
    /// A value. Its tree is as the place asks for it, so with a test of fit where there is one.
    Value(Typed),
    Variable(Denoted),
    Kind(Shared<DbType>),
    /// An argument of which nothing is asked.
    Nothing,
}
