//! Why a transaction was not done.
ghost use Rattle.std.specs.Prelude.{◌≡◌};
ghost use Rattle.dbpl_stored_program.specs.declared.run_err.RunErr.TheVariants.{Memory as OutOfMemory};

use dbpl_base::Memory;
use dbpl_core::Trap;

/// Why a transaction was not done.
#[derive(Clone, Copy, Debug, PartialEq, Eq)]
pub enum RunErr {
    /// A statement of it trapped.
    Trap(Trap),
    /// Memory was wanting.
    Memory,
}

impl From<Memory> for RunErr {
    ghost from_gives = { λ _ error. error ≡ OutOfMemory };

    fn from(_: Memory) -> RunErr {
        RunErr::Memory
    }
}
