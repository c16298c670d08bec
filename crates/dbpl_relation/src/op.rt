/// The statements that change a relation by the records of another.
#[derive(Clone, Copy, Debug, PartialEq, Eq)]
pub enum Op {
    /// `:=` puts the records of the right side in the place of those of the relation.
    Set,
    /// `:+` adds the records of the right side.
    Add,
    /// `:-` takes away the records that are equal to one of the right side.
    Remove,
    /// `:&` puts records of the right side in the place of those with their keys.
    Replace,
}
