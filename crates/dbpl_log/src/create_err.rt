// Why a store was not made.
ghost use Rattle.std.specs.Prelude.{◌≡◌};
ghost use Rattle.dbpl_log.specs.declared.create_err.CreateErr.TheVariants as errors;

use dbpl_world::Failed;

#[derive(Clone, Copy, Debug, PartialEq, Eq)]
pub enum CreateErr {
    /// There is one.
    Exists,
    /// There is none, but something else.
    Foreign,
    Disk,
}

impl From<Failed> for CreateErr {
    ghost from_gives = { λ _ e. e ≡ errors.Disk };

    fn from(_: Failed) -> CreateErr {
        CreateErr::Disk
    }
}
