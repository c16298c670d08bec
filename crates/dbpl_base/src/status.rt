ghost use Rattle.std.specs.Prelude.{◌≡◌};
ghost use Rattle.dbpl_base.specs.Statuses.{code_of};

use crate::{Memory, Name, Place};

/// How a command ended. Some answers belong to modes of the command that are not built yet.
#[derive(Debug, PartialEq, Eq, Drop)]
pub enum Status {
    /// The work is whole.
    Done,
    /// The run trapped: the kind of the trap, and the place of the phrase.
    Trapped { kind: u8, place: Place },
    /// The words of the command have no reading.
    BadWords,
    /// The program breaks this rule; numbers as in `Refusal`.
    Refused { place: Place, rule: u16 },
    /// The run was stopped after so many instructions.
    Stopped(u64),
    /// No such file.
    Absent(Name),
    /// A source file could not be read.
    SourceFault,
    /// There is no store.
    NotStore,
    /// The store is damaged at this page.
    Damaged(u32),
    /// The store has a relation of this name with another type.
    SchemaDiffers(Name),
    /// The disk failed.
    DiskFault,
    /// The input could not be read.
    InFault,
    /// The output could not be written.
    OutFault,
    /// All pages that a store can have are in use.
    StoreFull,
    /// Memory was wanting.
    Memory,
    /// There is a store already.
    Exists,
    /// The files hold something else than a store.
    Foreign,
    /// The store has no relation of this name.
    NoRelation(Name),
    /// The file passes the limit for its kind.
    TooLong(Name),
    /// No object has this name.
    LinkMissing(Name),
    /// Two objects have this name.
    LinkTwice(Name),
    /// Two objects differ in what they know of this name.
    LinkInterface(Name),
    /// This file of code is malformed at this offset.
    Malformed { file: Name, at: u64 },
    /// The code has no types from this address on.
    Unsafe(u32),
}

impl From<Memory> for Status {
    ghost use Rattle.dbpl_base.specs.declared.status.Status.TheVariants as status;

    ghost from_gives = { λ _ answer. answer ≡ status.Memory };

    fn from(_: Memory) -> Status {
        Status::Memory
    }
}

impl Status {
    /// The exit status of the program.
    pub fn code(&self) -> u8
        ensures { result ≡ code_of self.now }
    {
        match self {
            Status::Done => 0,
            Status::Trapped { .. } => 1,
            Status::BadWords => 2,
            Status::Refused { .. } => 3,
            Status::Stopped(_) => 4,
            Status::Absent(_) => 5,
            Status::SourceFault => 6,
            Status::NotStore => 7,
            Status::Damaged(_) => 8,
            Status::SchemaDiffers(_) => 9,
            Status::DiskFault => 10,
            Status::InFault => 11,
            Status::OutFault => 12,
            Status::StoreFull => 13,
            Status::Memory => 14,
            Status::Exists | Status::Foreign => 15,
            Status::NoRelation(_) => 16,
            Status::TooLong(_) => 17,
            Status::LinkMissing(_) | Status::LinkTwice(_) | Status::LinkInterface(_) => 18,
            Status::Malformed { .. } | Status::Unsafe(_) => 19,
        }
    }
}
