//! The number or the names at the front of the bytes, and the bytes after them.
ghost use Rattle.std.specs.Prelude.{[]};
ghost use Rattle.dbpl_codec.specs.Reading.{Gives, byte_at, repeat, word_at};
ghost use Rattle.dbpl_codec.specs.TypeReading.{bytes_at, long_at, name_at, names_at};

use crate::ReadErr;
use byteorder::{ByteOrder, LittleEndian};
use dbpl_base::{List, Name, name_of};
use std::alloc::Global;

#[tactic(auto, unfolding(crate::specs::Reading::word_at))]
pub(crate) fn word(bytes: &[u8]) -> Result<(u32, &[u8]), ReadErr>
    ensures { Gives (λ x. (x.0, x.1.now)) result (word_at bytes.now) }
{
    if bytes.len() < 4 {
        return Err(ReadErr::Malformed);
    }
    let (_, rest) = bytes.split_at(4);
    Ok((LittleEndian::read_u32(bytes), rest))
}

pub(crate) fn byte(bytes: &[u8]) -> Result<(u8, &[u8]), ReadErr>
    ensures { Gives (λ x. (x.0, x.1.now)) result (byte_at bytes.now) }
{
    match bytes {
        [first, rest @ ..] => Ok((*first, rest)),
        [] => Err(ReadErr::Malformed),
    }
}

/// A number in eight bytes.
#[tactic(auto, unfolding(crate::specs::TypeReading::long_at))]
pub(crate) fn long(bytes: &[u8]) -> Result<(i64, &[u8]), ReadErr>
    ensures { Gives (λ x. (x.0, x.1.now)) result (long_at bytes.now) }
{
    if bytes.len() < 8 {
        return Err(ReadErr::Malformed);
    }
    let (_, rest) = bytes.split_at(8);
    Ok((LittleEndian::read_u64(bytes).cast_signed(), rest))
}

#[tactic(auto, unfolding(crate::specs::TypeReading::bytes_at))]
fn front(bytes: &[u8], count: u32) -> Result<(&[u8], &[u8]), ReadErr>
    ensures { Gives (λ x. (x.0.now, x.1.now)) result (bytes_at count bytes.now) }
{
    let count = count as usize;
    if bytes.len() < count {
        return Err(ReadErr::Malformed);
    }
    Ok(bytes.split_at(count))
}

#[tactic(auto, unfolding(crate::specs::TypeReading::name_at))]
pub(crate) fn name(alloc: Global, bytes: &[u8]) -> Result<(Name, &[u8]), ReadErr>
    ensures { Gives (λ x. (x.0, x.1.now)) result (name_at bytes.now) }
{
    let (count, rest) = word(bytes)?;
    let (text, rest) = front(rest, count)?;
    Ok((name_of(alloc, text)?, rest))
}

/// Names behind their count. The list grows as they are read, so that a count alone takes no memory.
#[tactic(auto, unfolding(crate::specs::TypeReading::names_at))]
pub(crate) fn names(alloc: Global, bytes: &[u8]) -> Result<(List<Name>, &[u8]), ReadErr>
    ensures { Gives (λ x. (x.0, x.1.now)) result (names_at bytes.now) }
{
    let (count, rest) = word(bytes)?;
    all_names(alloc, count, rest)
}

fn all_names(alloc: Global, count: u32, bytes: &[u8]) -> Result<(List<Name>, &[u8]), ReadErr>
    ensures { Gives (λ x. (x.0, x.1.now)) result (repeat name_at count [] bytes.now) }
{
    let mut found = List::new(alloc);
    let mut rest = bytes;
    for _at in 0..count {
        let (one, after) = name(alloc, rest)?;
        found.push(one)?;
        rest = after;
    }
    Ok((found, rest))
}
