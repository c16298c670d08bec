//! Why a run stops before its end.
ghost use Rattle.std.specs.Prelude.{◌≡◌};
ghost use Rattle.dbpl_stored_run.specs.Errors.{of_body, of_store};
ghost use Rattle.dbpl_stored_run.specs.declared.stop_err.StopErr.TheVariants.{Memory as OutOfMemory};

use crate::body_err::BodyErr;
use dbpl_base::Memory;
use dbpl_core::Trap;
use dbpl_store::StoreErr;

/// Why a run stops before its end.
#[derive(Clone, Copy, Debug, PartialEq, Eq)]
pub enum StopErr {
    /// A statement trapped, and the transaction that it stands in is gone.
    Trapped(Trap),
    /// The log doesn't begin with an open head.
    NotStore,
    /// The store is damaged at this page.
    Damaged(u32),
    /// The store has a relation variable of that name with another type.
    SchemaDiffers,
    DiskFault,
    OutFault,
    Memory,
}

impl From<Memory> for StopErr {
    ghost from_gives = { λ _ error. error ≡ OutOfMemory };

    fn from(_: Memory) -> StopErr {
        StopErr::Memory
    }
}

impl From<StoreErr> for StopErr {
    ghost from_gives = { λ why error. error ≡ of_store why };

    fn from(why: StoreErr) -> StopErr {
        match why {
            StoreErr::NotStore => StopErr::NotStore,
            StoreErr::Disk => StopErr::DiskFault,
            StoreErr::Damaged(page) => StopErr::Damaged(page),
            StoreErr::Memory => StopErr::Memory,
        }
    }
}

impl From<BodyErr> for StopErr {
    ghost from_gives = { λ why error. error ≡ of_body why };

    fn from(why: BodyErr) -> StopErr {
        match why {
            BodyErr::Trapped(trap) => StopErr::Trapped(trap),
            BodyErr::DiskFault => StopErr::DiskFault,
            BodyErr::OutFault => StopErr::OutFault,
            BodyErr::Memory => StopErr::Memory,
        }
    }
}
