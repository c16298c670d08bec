// Why a log was not opened.
ghost use Rattle.std.specs.Prelude.{◌≡◌};
ghost use Rattle.dbpl_log.specs.declared.open_err.OpenErr.TheVariants as errors;

use dbpl_base::Memory;
use dbpl_world::Failed;
use std::alloc::{AllocError, AllocFailed};

#[derive(Clone, Copy, Debug, PartialEq, Eq)]
pub enum OpenErr {
    /// The log doesn't begin with an open head.
    NotStore,
    Disk,
    /// A record behind an open gate doesn't fit, or the log ends before the next gate.
    Damaged,
    Memory,
}

impl From<Failed> for OpenErr {
    ghost from_gives = { λ _ e. e ≡ errors.Disk };

    fn from(_: Failed) -> OpenErr {
        OpenErr::Disk
    }
}

impl From<Memory> for OpenErr {
    ghost from_gives = { λ _ e. e ≡ errors.Memory };

    fn from(_: Memory) -> OpenErr {
        OpenErr::Memory
    }
}

impl From<AllocError> for OpenErr {
    ghost from_gives = { λ _ e. e ≡ errors.Memory };

    fn from(_: AllocError) -> OpenErr {
        OpenErr::Memory
    }
}

impl<T: Drop> From<AllocFailed<T>> for OpenErr {
    ghost from_gives = { λ _ e. e ≡ errors.Memory };

    fn from(_: AllocFailed<T>) -> OpenErr {
        OpenErr::Memory
    }
}
