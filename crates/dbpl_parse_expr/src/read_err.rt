ghost use Rattle.std.specs.Prelude.{◌≡◌};
ghost use Rattle.dbpl_parse_expr.specs.declared.read_err.ReadErr.TheVariants.{Memory as OutOfMemory};

use dbpl_base::Memory;

/// Why nothing was read, with the position of the token at which that is seen.
#[derive(Clone, Copy, Debug, PartialEq, Eq)]
pub enum ReadErr {
    /// No tree begins so.
    Wrong(usize),
    /// A phrase begins there, inside too many others.
    Deep(usize),
    /// Memory was wanting.
    Memory,
}

impl From<Memory> for ReadErr {
    ghost from_gives = { λ _ error. error ≡ OutOfMemory };

    fn from(_: Memory) -> ReadErr {
        ReadErr::Memory
    }
}
