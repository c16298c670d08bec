use dbpl_base::{List, Place};

/// A statement `v :+ S{R{n, ..}, ..}` of a transaction.
#[derive(Debug, Drop)]
pub struct Insertion {
    /// Where the set expression begins: the place of its first token, the name of the relation type.
    pub set_place: Place,
    /// The place of the operator `:+`.
    pub place: Place,
    /// The numbers of each aggregate R{n, ..}, in the order of the text.
    pub rows: List<List<i64>>,
}
