use dbpl_base::List;

/// A value. `specs/Values.antt` says which values a type has.
#[derive(Debug, Drop)]
pub enum Value {
    /// A value of an ordinal type. FALSE, the character with code 0 and the first constant of an enumeration are 0.
    Num(i64),
    /// An array, by its elements.
    Arr(List<Value>),
    /// A record, by its fields.
    Rec(List<Value>),
    /// A relation, by its records in the order of their keys.
    Rel(List<Value>),
}
