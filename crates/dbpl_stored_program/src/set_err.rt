//! Why a set expression has no value.
ghost use Rattle.std.specs.Prelude.{◌≡◌};
ghost use Rattle.dbpl_stored_program.specs.declared.set_err.SetErr.TheVariants.{Memory as OutOfMemory};

use dbpl_base::Memory;

/// Why a set expression has no value.
#[derive(Clone, Copy, Debug, PartialEq, Eq)]
pub enum SetErr {
    /// Two different records have one key.
    Clash,
    /// Memory was wanting.
    Memory,
}

impl From<Memory> for SetErr {
    ghost from_gives = { λ _ error. error ≡ OutOfMemory };

    fn from(_: Memory) -> SetErr {
        SetErr::Memory
    }
}
