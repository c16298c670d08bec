use crate::Value;
use dbpl_base::List;

/// One step of a path into a value.
#[derive(Debug, Drop)]
pub enum Step {
    /// To the field of a record that stands at this position, from 0.
    Field(u32),
    /// To the element of an array that stands at this position, from 0.
    Index(u32),
    /// To the record of a relation that has this key, by its components in their order.
    Key(List<Value>),
}
