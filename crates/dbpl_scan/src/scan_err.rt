ghost use Rattle.std.specs.Prelude.{◌≡◌};
ghost use Rattle.dbpl_scan.specs.declared.scan_err.ScanErr.TheVariants.{Memory as OutOfMemory};

use dbpl_base::{Memory, Place};

/// Why a text was not scanned.
#[derive(Clone, Copy, Debug, PartialEq, Eq)]
pub enum ScanErr {
    /// The first place, outside tokens, where neither a blank nor a whole comment nor a token stands.
    Bad(Place),
    /// Memory was wanting.
    Memory,
}

impl From<Memory> for ScanErr {
    ghost from_gives = { λ _ error. error ≡ OutOfMemory };

    fn from(_: Memory) -> ScanErr {
        ScanErr::Memory
    }
}
