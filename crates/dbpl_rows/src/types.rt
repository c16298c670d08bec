//! Questions about types.
ghost use Rattle.std.specs.Prelude.{IfOk, IsTrue};
ghost use Rattle.dbpl_value.specs.Types.{is_type as is_of_language};

use crate::answer::{Answer, whether};
use crate::failure::Failure;
use crate::parts::Parts;
use dbpl_codec::{ReadErr, read_type, write_type, write_value};
use dbpl_value::{DbType, copy_type, same_type, start_value};
use std::alloc::Global;

/// The type whose descriptor this part is.
pub(crate) fn type_in(alloc: Global, parts: &Parts, at: usize) -> Result<DbType, Failure>
    ensures { IfOk result (λ t. IsTrue (is_of_language t)) }
{
    match read_type(alloc, parts.get(at)?) {
        Ok(t) => Ok(t),
        Err(ReadErr::Malformed) => Err(Failure::Unreadable),
        Err(ReadErr::Memory) => Err(Failure::Memory),
    }
}

/// Whether the part is a descriptor: it is written as it was read, and the copy of its type is the same.
pub(crate) fn is_type(alloc: Global, parts: &Parts) -> Result<Answer, Failure> {
    let bytes = parts.get(0)?;
    let t = read_type(alloc, bytes)?;
    let mut written = Vec::new(alloc);
    write_type(&t, &mut written)?;
    let copy = copy_type(alloc, &t)?;
    Ok(whether(written.as_slice() == bytes && same_type(&t, &copy)))
}

/// Whether two types are the same.
pub(crate) fn are_same(alloc: Global, parts: &Parts) -> Result<Answer, Failure> {
    let t = type_in(alloc, parts, 0)?;
    let other = type_in(alloc, parts, 1)?;
    Ok(whether(same_type(&t, &other)))
}

/// The value at which a variable of the type begins.
pub(crate) fn start(alloc: Global, parts: &Parts) -> Result<Answer, Failure> {
    let t = type_in(alloc, parts, 0)?;
    let v = start_value(alloc, &t)?;
    let mut written = Vec::new(alloc);
    write_value(&t, &v, &mut written)?;
    Ok(Answer::Bytes(written))
}
