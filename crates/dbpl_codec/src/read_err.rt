ghost use Rattle.std.specs.Prelude.{◌≡◌};
ghost use Rattle.dbpl_codec.specs.declared.read_err.ReadErr.TheVariants as errors;

use dbpl_base::Memory;
use std::alloc::{AllocError, AllocFailed};

/// Why bytes were not read.
#[derive(Clone, Copy, Debug, PartialEq, Eq)]
pub enum ReadErr {
    /// They are the spelling of nothing.
    Malformed,
    Memory,
}

impl From<Memory> for ReadErr {
    ghost from_gives = { λ _ e. e ≡ errors.Memory };

    fn from(_: Memory) -> ReadErr {
        ReadErr::Memory
    }
}

impl From<AllocError> for ReadErr {
    ghost from_gives = { λ _ e. e ≡ errors.Memory };

    fn from(_: AllocError) -> ReadErr {
        ReadErr::Memory
    }
}

impl<T: Drop> From<AllocFailed<T>> for ReadErr {
    ghost from_gives = { λ _ e. e ≡ errors.Memory };

    fn from(_: AllocFailed<T>) -> ReadErr {
        ReadErr::Memory
    }
}
