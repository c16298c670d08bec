//! Questions about values.
ghost use Rattle.std.specs.Prelude.{IfOk, IsTrue};
ghost use Rattle.dbpl_value.specs.Values.{is_of};

use crate::answer::{Answer, whether};
use crate::failure::Failure;
use crate::parts::Parts;
use crate::types::type_in;
use dbpl_codec::{ReadErr, read_value, write_value};
use dbpl_value::{DbType, Value, copy, equal, size_of};
use std::alloc::Global;

/// The value of this type that the part spells.
pub(crate) fn value_in(
    alloc: Global,
    t: &DbType,
    parts: &Parts,
    at: usize,
) -> Result<Value, Failure>
    ensures { IfOk result (λ v. IsTrue (is_of t.now v)) }
{
    match read_value(alloc, t, parts.get(at)?) {
        Ok(v) => Ok(v),
        Err(ReadErr::Malformed) => Err(Failure::Unreadable),
        Err(ReadErr::Memory) => Err(Failure::Memory),
    }
}

/// The bytes of a value.
pub(crate) fn spelt(alloc: Global, t: &DbType, v: &Value) -> Result<Answer, Failure> {
    let mut written = Vec::new(alloc);
    write_value(t, v, &mut written)?;
    Ok(Answer::Bytes(written))
}

/// Whether the second part is a value of the type: it is written as it was read, in as many bytes as its size says, and
/// its copy is equal.
pub(crate) fn is_value(alloc: Global, parts: &Parts) -> Result<Answer, Failure> {
    let t = type_in(alloc, parts, 0)?;
    let bytes = parts.get(1)?;
    let v = read_value(alloc, &t, bytes)?;
    let mut written = Vec::new(alloc);
    write_value(&t, &v, &mut written)?;
    let copied = copy(alloc, &v)?;
    let is_sized = size_of(&t, &v) == bytes.len() as u64;
    Ok(whether(is_sized && written.as_slice() == bytes && equal(&v, &copied)))
}

/// How many bytes a value has.
pub(crate) fn size(alloc: Global, parts: &Parts) -> Result<Answer, Failure> {
    let t = type_in(alloc, parts, 0)?;
    let v = value_in(alloc, &t, parts, 1)?;
    Ok(Answer::Number(size_of(&t, &v)))
}

/// Whether two values of a type are equal.
pub(crate) fn are_equal(alloc: Global, parts: &Parts) -> Result<Answer, Failure> {
    let t = type_in(alloc, parts, 0)?;
    let v = value_in(alloc, &t, parts, 1)?;
    let other = value_in(alloc, &t, parts, 2)?;
    Ok(whether(equal(&v, &other)))
}
