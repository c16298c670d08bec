use dbpl_base::Memory;
use dbpl_codec::ReadErr;
use dbpl_world::{Failed, NoMemory};
use std::alloc::{AllocError, AllocFailed};

/// Why a question has no answer.
#[derive(Clone, Copy, Debug, PartialEq, Eq)]
pub enum Failure {
    /// The bytes are the spelling of nothing.
    Malformed,
    Memory,
    /// The row isn't a question.
    Unreadable,
    /// The world failed.
    World,
}

impl From<Memory> for Failure {
    fn from(_: Memory) -> Failure {
        Failure::Memory
    }
}

impl From<NoMemory> for Failure {
    fn from(_: NoMemory) -> Failure {
        Failure::Memory
    }
}

impl From<AllocError> for Failure {
    fn from(_: AllocError) -> Failure {
        Failure::Memory
    }
}

impl<T: Drop> From<AllocFailed<T>> for Failure {
    fn from(_: AllocFailed<T>) -> Failure {
        Failure::Memory
    }
}

impl From<Failed> for Failure {
    fn from(_: Failed) -> Failure {
        Failure::World
    }
}

impl From<ReadErr> for Failure {
    fn from(refusal: ReadErr) -> Failure {
        match refusal {
            ReadErr::Malformed => Failure::Malformed,
            ReadErr::Memory => Failure::Memory,
        }
    }
}
