//! Why the body of a program stops before its end.
ghost use Rattle.std.specs.Prelude.{◌≡◌};
ghost use Rattle.dbpl_stored_run.specs.Errors.{of_transaction};
ghost use Rattle.dbpl_stored_run.specs.declared.body_err.BodyErr.TheVariants.{Memory as OutOfMemory};

use dbpl_base::Memory;
use dbpl_core::Trap;
use dbpl_stored_program::RunErr;

/// Why the body of a program stops before its end.
#[derive(Clone, Copy, Debug, PartialEq, Eq)]
pub enum BodyErr {
    Trapped(Trap),
    DiskFault,
    OutFault,
    Memory,
}

impl From<Memory> for BodyErr {
    ghost from_gives = { λ _ error. error ≡ OutOfMemory };

    fn from(_: Memory) -> BodyErr {
        BodyErr::Memory
    }
}

impl From<RunErr> for BodyErr {
    ghost from_gives = { λ why error. error ≡ of_transaction why };

    fn from(why: RunErr) -> BodyErr {
        match why {
            RunErr::Trap(trap) => BodyErr::Trapped(trap),
            RunErr::Memory => BodyErr::Memory,
        }
    }
}
