//! One level of a type or of a value: what it is made of.
ghost use Rattle.std.specs.Prelude.{◌≡◌, ◌^◌, IfNone, IfSome, slice_get};
ghost use Rattle.std.specs.Option.{option_copied};
ghost use Rattle.dbpl_value.specs.Keys.{component_values as values_of_component, number_of as number_of_value, parts_of as parts_of_value};
ghost use Rattle.dbpl_value.specs.Types.{count_of as count_of_type, element_of as element_of_type, fields_of as fields_of_type, is_char_array as is_char_array_type, is_host as is_host_type, keys_of as keys_of_type, range_of as range_of_type};

use crate::{DbType, Field, Range, Value};
use dbpl_base::Name;
use std::slice;

/// The type of the parts of an array or a relation, and a type itself where it is neither.
pub fn element_of(t: &DbType) -> &DbType
    ensures { result.now ≡ element_of_type t.now }
{
    match t {
        DbType::Arr(_, element) | DbType::Rel(_, element) => element.get(),
        _ => t,
    }
}

/// The fields of a record type, and none of every other.
pub fn fields_of(t: &DbType) -> &[Field]
    ensures { result.now ≡ fields_of_type t.now }
{
    match t {
        DbType::Rec(fields) => fields.as_slice(),
        _ => &[],
    }
}

/// The names of the key fields of a relation type, and none of every other.
pub fn keys_of(t: &DbType) -> &[Name]
    ensures { result.now ≡ keys_of_type t.now }
{
    match t {
        DbType::Rel(keys, _) => keys.as_slice(),
        _ => &[],
    }
}

/// The range of an ordinal type, and none for every other.
pub fn range_of(t: &DbType) -> Option<Range>
    ensures { result ≡ range_of_type t.now }
{
    match t {
        DbType::Int => Some(Range {
            least: i64::from(i32::MIN),
            greatest: i64::from(i32::MAX),
        }),
        DbType::Card => Some(Range {
            least: 0,
            greatest: i64::from(u32::MAX),
        }),
        DbType::Bool => Some(Range {
            least: 0,
            greatest: 1,
        }),
        DbType::Char => Some(Range {
            least: 0,
            greatest: i64::from(u8::MAX),
        }),
        DbType::Enum(names) => Some(Range {
            least: 0,
            greatest: names.as_slice().len() as i64 - 1,
        }),
        DbType::Sub(_, least, greatest) => Some(Range {
            least: *least,
            greatest: *greatest,
        }),
        _ => None,
    }
}

/// How many values an ordinal type has, where that is less than 2^64, and 0 for every other type.
pub fn count_of(t: &DbType) -> Option<u64>
    ensures some { IfSome result (λ count. count ≡ count_of_type t.now) }
    ensures none { IfNone result (count_of_type t.now ≡ 2 ^ 64) }
{
    match range_of(t) {
        Some(range) => range.count(),
        None => Some(0),
    }
}

/// What a subrange may be one of: an ordinal type that is no subrange.
pub fn is_host(t: &DbType) -> bool
    ensures { result ≡ is_host_type t.now }
{
    matches!(
        t,
        DbType::Int | DbType::Card | DbType::Bool | DbType::Char | DbType::Enum(_)
    )
}

/// An array whose elements are CHAR itself.
pub fn is_char_array(t: &DbType) -> bool
    ensures { result ≡ is_char_array_type t.now }
{
    match t {
        DbType::Arr(_, element) => matches!(element.get(), DbType::Char),
        _ => false,
    }
}

/// The number that a value is, and 0 where it has parts.
pub fn number_of(v: &Value) -> i64
    ensures { result ≡ number_of_value v.now }
{
    match v {
        Value::Num(n) => *n,
        _ => 0,
    }
}

/// The elements, fields or records of a value, and none of a number.
pub fn parts_of(v: &Value) -> &[Value]
    ensures { result.now ≡ parts_of_value v.now }
{
    match v {
        Value::Num(_) => &[],
        Value::Arr(parts) | Value::Rec(parts) | Value::Rel(parts) => parts.as_slice(),
    }
}

/// The part of a value at a position, if there is one.
pub fn part_of(v: &Value, place: usize) -> Option<&Value>
    ensures { option_copied result ≡ slice_get (parts_of_value v.now) place }
{
    match v {
        Value::Num(_) => None,
        Value::Arr(parts) | Value::Rec(parts) | Value::Rel(parts) => parts.get(place),
    }
}

/// What a component of a key is made of.
pub fn component_values(v: &Value) -> &[Value]
    ensures { result.now ≡ values_of_component v.now }
{
    match v {
        Value::Num(_) => slice::from_ref(v),
        Value::Arr(parts) => parts.as_slice(),
        _ => &[],
    }
}
