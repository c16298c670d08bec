//! Values are read from left to right, each as its type says, and no more bytes are taken for counted than are there.
ghost use Rattle.std.specs.Prelude.{◌≡◌, [], IfOk, IsTrue, Some, map};
ghost use Rattle.dbpl_value.specs.Keys.{keys_rise};
ghost use Rattle.dbpl_value.specs.Types.{is_type, range_of as range_of_type};
ghost use Rattle.dbpl_value.specs.Values.{is_number as is_number_value, is_of};
ghost use Rattle.dbpl_codec.specs.Reading.{Gives, checked, in_turn, number_at, unchecked_level, reads as reads_of, repeat, risen, whole};
ghost use Rattle.dbpl_codec.specs.ValueSpelling.{bytes_of, value_fits};
ghost use Rattle.dbpl_value.specs.declared.db_type.DbType.{out-DbType};
ghost use Rattle.dbpl_value.specs.declared.value.Value.{Value, out-Value};

use crate::ReadErr;
use crate::fronts::{byte, word};
use dbpl_base::List;
use dbpl_value::{DbType, Field, Value, count_of, key_order, range_of};
use std::alloc::Global;

/// The value of type `t` that these bytes spell.
pub fn read_value(alloc: Global, t: &DbType, bytes: &[u8]) -> Result<Value, ReadErr>
    // What is read was spelled so.
    ensures found { IfOk result
        (λ v. IsTrue (is_of t.now v) × IsTrue (value_fits t.now v) × (bytes.now ≡ bytes_of t.now v)) }
    // What is spelled so is read, unless memory runs out.
    ensures only { IsTrue (is_type t.now) → (v : Value) → IsTrue (is_of t.now v) → IsTrue (value_fits t.now v) →
        bytes.now ≡ bytes_of t.now v → Gives (λ w. w) result (Some v) }
{
    read_whole(alloc, t, bytes)
}

fn read_whole(alloc: Global, t: &DbType, bytes: &[u8]) -> Result<Value, ReadErr>
    ensures { Gives (λ v. v) result (whole (reads_of t.now bytes.now)) }
{
    let (v, rest) = read_at(alloc, t, bytes)?;
    if rest.is_empty() {
        Ok(v)
    } else {
        Err(ReadErr::Malformed)
    }
}

#[cycle(reading)]
fn read_at<'a>(alloc: Global, t: &DbType, bytes: &'a [u8]) -> Result<(Value, &'a [u8]), ReadErr>
    ensures { Gives (λ x. (x.0, x.1.now)) result (reads_of t.now bytes.now) }
{
    match t {
        DbType::Sub(host, _, _) => {
            let (v, rest) = read_at(alloc, host.get(), bytes)?;
            in_range(t, v, rest)
        }
        DbType::Arr(index, element) => {
            let Some(count) = count_of(index.get()) else {
                return Err(ReadErr::Memory);
            };
            let (parts, rest) = read_all(alloc, element.get(), count, bytes)?;
            Ok((Value::Arr(parts), rest))
        }
        DbType::Rec(fields) => {
            let (parts, rest) = read_fields(alloc, fields.as_slice(), bytes)?;
            Ok((Value::Rec(parts), rest))
        }
        DbType::Rel(_, record) => {
            let (count, rest) = word(bytes)?;
            let (records, rest) = read_all(alloc, record.get(), u64::from(count), rest)?;
            relation(t, records, rest)
        }
        _ => number(t, bytes),
    }
}

/// So many values of type `t`. The list grows as they are read, so that a count alone takes no memory.
#[cycle(reading)]
fn read_all<'a>(
    alloc: Global,
    t: &DbType,
    count: u64,
    bytes: &'a [u8],
) -> Result<(List<Value>, &'a [u8]), ReadErr>
    ensures { Gives (λ x. (x.0, x.1.now)) result (repeat (reads_of t.now) count [] bytes.now) }
{
    let mut parts = List::new(alloc);
    let mut rest = bytes;
    for _at in 0..count {
        let (part, after) = read_at(alloc, t, rest)?;
        parts.push(part)?;
        rest = after;
    }
    Ok((parts, rest))
}

#[cycle(reading)]
fn read_fields<'a>(
    alloc: Global,
    fields: &[Field],
    bytes: &'a [u8],
) -> Result<(List<Value>, &'a [u8]), ReadErr>
    ensures { Gives (λ x. (x.0, x.1.now)) result (in_turn (map (λ field. reads_of field.kind) fields.now) [] bytes.now) }
{
    let mut parts = List::new(alloc);
    let mut rest = bytes;
    for field in fields {
        let (part, after) = read_at(alloc, &field.kind, rest)?;
        parts.push(part)?;
        rest = after;
    }
    Ok((parts, rest))
}

/// A number of an ordinal type that is no subrange.
fn number<'a>(t: &DbType, bytes: &'a [u8]) -> Result<(Value, &'a [u8]), ReadErr>
    ensures { Gives (λ x. (x.0, x.1.now)) result (number_at t.now bytes.now) }
{
    let (v, rest) = plain_number(t, bytes)?;
    in_range(t, v, rest)
}

fn plain_number<'a>(t: &DbType, bytes: &'a [u8]) -> Result<(Value, &'a [u8]), ReadErr>
    ensures { Gives (λ x. (x.0, x.1.now)) result (unchecked_level (out-DbType t.now) bytes.now) }
{
    match t {
        DbType::Int => {
            let (n, rest) = word(bytes)?;
            Ok((Value::Num(i64::from(n.cast_signed())), rest))
        }
        DbType::Card | DbType::Enum(_) => {
            let (n, rest) = word(bytes)?;
            Ok((Value::Num(i64::from(n)), rest))
        }
        DbType::Bool | DbType::Char => {
            let (n, rest) = byte(bytes)?;
            Ok((Value::Num(i64::from(n)), rest))
        }
        _ => Err(ReadErr::Malformed),
    }
}

/// The value, where it is a number in the range of `t`.
fn in_range<'a>(t: &DbType, v: Value, rest: &'a [u8]) -> Result<(Value, &'a [u8]), ReadErr>
    ensures { Gives (λ x. (x.0, x.1.now)) result (checked (range_of_type t.now) (v, rest.now)) }
{
    if is_number(t, &v) {
        Ok((v, rest))
    } else {
        Err(ReadErr::Malformed)
    }
}

fn is_number(t: &DbType, v: &Value) -> bool
    ensures { result ≡ is_number_value (range_of_type t.now) (out-Value v.now) }
{
    match (range_of(t), v) {
        (Some(range), Value::Num(n)) => range.holds(*n),
        _ => false,
    }
}

/// The relation of these records, where their keys rise.
fn relation<'a>(
    t: &DbType,
    records: List<Value>,
    rest: &'a [u8],
) -> Result<(Value, &'a [u8]), ReadErr>
    ensures { Gives (λ x. (x.0, x.1.now)) result (risen t.now (records, rest.now)) }
{
    if rise(t, records.as_slice()) {
        Ok((Value::Rel(records), rest))
    } else {
        Err(ReadErr::Malformed)
    }
}

/// Whether the keys rise, by one comparison of each record with the one before.
fn rise(t: &DbType, records: &[Value]) -> bool
    ensures { result ≡ keys_rise t.now records.now }
{
    for i in 1..records.len() {
        if !key_order(t, &records[i - 1], &records[i]).is_lt() {
            return false;
        }
    }
    true
}
