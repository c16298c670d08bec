use dbpl_base::Shared;
use dbpl_value::DbType;

/// What a routine gives by RETURN.
#[derive(Drop)]
pub enum Gives {
    /// Nothing: it is no function.
    Nothing,
    /// A value of this type.
    Value(Shared<DbType>),
    /// A value, but of a type that was refused. No value that is given breaks a rule by its type.
    Unknown,
}
