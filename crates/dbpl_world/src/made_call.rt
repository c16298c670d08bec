// What the world in memory records of a call.

use crate::Part;

/// A call, and how many bytes it moved. The bytes themselves stand in the record, but for those that were read.
#[derive(Clone, Copy, Debug, PartialEq, Eq)]
pub enum Call {
    Mount(usize),
    Take(usize),
    Say(usize),
    Note(usize),
    Size(Part),
    Read(Part, u64, usize),
    Write(Part, u64, usize),
    Sync(Part),

    /// One that failed, and changed nothing.
    Failed,
}

/// A call with its number among all calls of its world.
#[derive(Clone, Copy, Debug, PartialEq, Eq)]
pub struct MadeCall {
    pub number: u64,
    pub call: Call,
}
