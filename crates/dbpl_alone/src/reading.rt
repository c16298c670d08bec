// The module that a text spells.
ghost use Rattle.std.specs.Prelude.{◌≤◌, length, IfErr, IfOk};
ghost use Rattle.dbpl_alone.specs.Answers.{IsNotRead, IsTheModule};

use crate::Program;
use crate::modules::read;
use dbpl_base::Status;
use dbpl_base::limits::SOURCE_BYTES;
use dbpl_front::FrontErr;
use std::alloc::Global;

/// The module that the text spells.
pub(crate) fn module(alloc: Global, text: &[u8]) -> Result<Program, Status>
    requires { length text.now ≤ SOURCE_BYTES }
    ensures found { IfOk result (λ program. IsTheModule text.now program) }
    ensures err { IfErr result (λ status. IsNotRead text.now status) }
{
    match read(alloc, text) {
        Ok(program) => Ok(program),
        Err(FrontErr::Refused(refusal)) => Err(Status::Refused {
            place: refusal.place,
            rule: refusal.rule,
        }),
        Err(FrontErr::Memory) => Err(Status::Memory),
    }
}
