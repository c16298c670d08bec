ghost use Rattle.std.specs.Prelude.{◌≡◌};
ghost use Rattle.dbpl_front.specs.Errors.{of_parse, of_scan};
ghost use Rattle.dbpl_front.specs.declared.front_err.FrontErr.TheVariants.{Memory as OutOfMemory};

use dbpl_base::{Memory, Refusal};
use dbpl_parse_unit::ParseErr;
use dbpl_scan::ScanErr;

/// The rule that refuses a text without tokens.
const UNSCANNED: u16 = 101;

/// The rule that refuses tokens that spell no unit.
const UNPARSED: u16 = 102;

/// The rule that refuses a phrase that stands inside too many others.
const TOO_DEEP: u16 = 103;

/// Why a text was not read.
#[derive(Clone, Copy, Debug, PartialEq, Eq)]
pub enum FrontErr {
    /// The text breaks this rule.
    Refused(Refusal),
    /// Memory was wanting.
    Memory,
}

impl From<Memory> for FrontErr {
    ghost from_gives = { λ _ error. error ≡ OutOfMemory };

    fn from(_: Memory) -> FrontErr {
        FrontErr::Memory
    }
}

impl From<ScanErr> for FrontErr {
    ghost from_gives = { λ refused error. error ≡ of_scan refused };

    fn from(refused: ScanErr) -> FrontErr {
        match refused {
            ScanErr::Bad(place) => FrontErr::Refused(Refusal {
                place,
                rule: UNSCANNED,
            }),
            ScanErr::Memory => FrontErr::Memory,
        }
    }
}

impl From<ParseErr> for FrontErr {
    ghost from_gives = { λ refused error. error ≡ of_parse refused };

    fn from(refused: ParseErr) -> FrontErr {
        match refused {
            ParseErr::Syntax(place) => FrontErr::Refused(Refusal {
                place,
                rule: UNPARSED,
            }),
            ParseErr::Deep(place) => FrontErr::Refused(Refusal {
                place,
                rule: TOO_DEEP,
            }),
            ParseErr::Memory => FrontErr::Memory,
        }
    }
}
