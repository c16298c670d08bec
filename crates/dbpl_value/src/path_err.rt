/// Why a path leads to no part. The number is that of the first step that fails, from 0.
#[derive(Clone, Copy, Debug, PartialEq, Eq)]
pub enum PathErr {
    /// The index is out of bounds.
    Index(u64),
    /// No record has the key.
    NoElement(u64),
}
