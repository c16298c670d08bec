use dbpl_base::{List, Name};

/// What a database module declares: a record type, a relation type over it with one key, and a variable of that.
#[derive(Debug, PartialEq, Eq, Drop)]
pub struct Schema {
    /// The name of the module.
    pub unit: Name,
    /// The name of the record type.
    pub element: Name,
    /// The name of the relation type.
    pub relation: Name,
    pub variable: Name,
    pub key: Name,
    /// The names of the fields, which are all of type CARDINAL.
    pub fields: List<Name>,
}
