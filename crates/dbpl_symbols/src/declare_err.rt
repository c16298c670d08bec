ghost use Rattle.std.specs.Prelude.{◌≡◌};

use dbpl_base::Memory;

/// Why a declaration is not added.
#[derive(Clone, Copy, Debug, PartialEq, Eq)]
pub enum DeclareErr {
    /// The last level has the name.
    Twice,
    /// Memory was wanting.
    Memory,
}

impl From<Memory> for DeclareErr {
    ghost use Rattle.dbpl_symbols.specs.declared.declare_err.DeclareErr.TheVariants as refusals;

    ghost from_gives = { λ _ answer. answer ≡ refusals.Memory };

    fn from(_: Memory) -> DeclareErr {
        DeclareErr::Memory
    }
}
