//! Descriptors are read from left to right, and no deeper than types may stand inside one another.
ghost use Rattle.std.specs.Prelude.{[]};
ghost use Rattle.dbpl_codec.specs.Reading.{Gives, repeat};
ghost use Rattle.dbpl_codec.specs.TypeReading.{array_at as array_of, enumeration_at as enumeration_of, field_at as field_of_kind, kind_at as kind_of, record_at as record_of, relation_at as relation_of, subrange_at as subrange_of, type_at as type_of};

use crate::ReadErr;
use crate::fronts::{byte, long, name, names, word};
use dbpl_base::{Boxed, List};
use dbpl_value::{DbType, Field, field_of};
use std::alloc::Global;

/// A descriptor in which types stand inside one another to this depth at most.
#[cycle(descriptors)]
pub(crate) fn type_at(alloc: Global, depth: u32, bytes: &[u8]) -> Result<(DbType, &[u8]), ReadErr>
    ensures { Gives (λ x. (x.0, x.1.now)) result (type_of depth bytes.now) }
{
    if depth == 0 {
        return Err(ReadErr::Malformed);
    }
    let (kind, rest) = byte(bytes)?;
    kind_at(alloc, depth - 1, kind, rest)
}

/// A descriptor of the kind that its first byte says. Behind it types may stand to this depth.
#[cycle(descriptors)]
#[tactic(auto, unfolding(crate::specs::TypeReading::kind_at))]
fn kind_at(alloc: Global, depth: u32, kind: u8, bytes: &[u8]) -> Result<(DbType, &[u8]), ReadErr>
    ensures { Gives (λ x. (x.0, x.1.now)) result (kind_of (type_of depth) kind bytes.now) }
{
    match kind {
        1 => Ok((DbType::Int, bytes)),
        2 => Ok((DbType::Card, bytes)),
        3 => Ok((DbType::Bool, bytes)),
        4 => Ok((DbType::Char, bytes)),
        5 => enumeration_at(alloc, bytes),
        6 => subrange_at(alloc, depth, bytes),
        7 => array_at(alloc, depth, bytes),
        8 => record_at(alloc, depth, bytes),
        9 => relation_at(alloc, depth, bytes),
        _ => Err(ReadErr::Malformed),
    }
}

#[tactic(auto, unfolding(crate::specs::TypeReading::enumeration_at))]
fn enumeration_at(alloc: Global, bytes: &[u8]) -> Result<(DbType, &[u8]), ReadErr>
    ensures { Gives (λ x. (x.0, x.1.now)) result (enumeration_of bytes.now) }
{
    let (constants, rest) = names(alloc, bytes)?;
    Ok((DbType::Enum(constants), rest))
}

#[cycle(descriptors)]
#[tactic(auto, unfolding(crate::specs::TypeReading::subrange_at))]
fn subrange_at(alloc: Global, depth: u32, bytes: &[u8]) -> Result<(DbType, &[u8]), ReadErr>
    ensures { Gives (λ x. (x.0, x.1.now)) result (subrange_of (type_of depth) bytes.now) }
{
    let (host, rest) = type_at(alloc, depth, bytes)?;
    let (least, rest) = long(rest)?;
    let (greatest, rest) = long(rest)?;
    Ok((DbType::Sub(Boxed::new(alloc, host)?, least, greatest), rest))
}

#[cycle(descriptors)]
#[tactic(auto, unfolding(crate::specs::TypeReading::array_at))]
fn array_at(alloc: Global, depth: u32, bytes: &[u8]) -> Result<(DbType, &[u8]), ReadErr>
    ensures { Gives (λ x. (x.0, x.1.now)) result (array_of (type_of depth) bytes.now) }
{
    let (index, rest) = type_at(alloc, depth, bytes)?;
    let (element, rest) = type_at(alloc, depth, rest)?;
    let index = Boxed::new(alloc, index)?;
    Ok((DbType::Arr(index, Boxed::new(alloc, element)?), rest))
}

#[cycle(descriptors)]
#[tactic(auto, unfolding(crate::specs::TypeReading::record_at))]
fn record_at(alloc: Global, depth: u32, bytes: &[u8]) -> Result<(DbType, &[u8]), ReadErr>
    ensures { Gives (λ x. (x.0, x.1.now)) result (record_of (type_of depth) bytes.now) }
{
    let (count, rest) = word(bytes)?;
    let (fields, rest) = fields_at(alloc, depth, count, rest)?;
    Ok((DbType::Rec(fields), rest))
}

#[cycle(descriptors)]
#[tactic(auto, unfolding(crate::specs::TypeReading::relation_at))]
fn relation_at(alloc: Global, depth: u32, bytes: &[u8]) -> Result<(DbType, &[u8]), ReadErr>
    ensures { Gives (λ x. (x.0, x.1.now)) result (relation_of (type_of depth) bytes.now) }
{
    let (keys, rest) = names(alloc, bytes)?;
    let (record, rest) = type_at(alloc, depth, rest)?;
    Ok((DbType::Rel(keys, Boxed::new(alloc, record)?), rest))
}

/// So many fields. The list grows as they are read, so that a count alone takes no memory.
#[cycle(descriptors)]
fn fields_at(
    alloc: Global,
    depth: u32,
    count: u32,
    bytes: &[u8],
) -> Result<(List<Field>, &[u8]), ReadErr>
    ensures { Gives (λ x. (x.0, x.1.now)) result (repeat (field_of_kind (type_of depth)) count [] bytes.now) }
{
    let mut found = List::new(alloc);
    let mut rest = bytes;
    for _at in 0..count {
        let (field, after) = field_at(alloc, depth, rest)?;
        found.push(field)?;
        rest = after;
    }
    Ok((found, rest))
}

#[cycle(descriptors)]
#[tactic(auto, unfolding(crate::specs::TypeReading::field_at))]
fn field_at(alloc: Global, depth: u32, bytes: &[u8]) -> Result<(Field, &[u8]), ReadErr>
    ensures { Gives (λ x. (x.0, x.1.now)) result (field_of_kind (type_of depth) bytes.now) }
{
    let (text, rest) = name(alloc, bytes)?;
    let (kind, rest) = type_at(alloc, depth, rest)?;
    Ok((field_of(text, kind), rest))
}
