use dbpl_base::Memory;

/// Why a relation wasn't changed. A number is the position of the first record of the right side that is at fault.
#[derive(Clone, Copy, Debug, PartialEq, Eq)]
pub enum ChangeErr {
    /// The key of the record belongs to a different record.
    Clash(u64),
    /// The record isn't inside the selector.
    Outside(u64),
    Memory,
}

impl From<Memory> for ChangeErr {
    ghost use Rattle.std.specs.Prelude.{◌≡◌};
    ghost use Rattle.dbpl_relation.specs.declared.change_err.ChangeErr.TheVariants as change_err;

    ghost from_gives = { λ _ refusal. refusal ≡ change_err.Memory };

    fn from(_: Memory) -> ChangeErr {
        ChangeErr::Memory
    }
}
