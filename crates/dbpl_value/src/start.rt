//! The values with which variables begin.
ghost use Rattle.std.specs.Prelude.{◌≡◌, IfOk, IsTrue, map, pos, replicate};
ghost use Rattle.std.specs.Option.{option_map_or};
ghost use Rattle.dbpl_value.specs.Types.{is_type, range_of as range_of_type};
ghost use Rattle.dbpl_value.specs.Values.{is_of, start_number as start_number_of, start_value_of};

use crate::levels::{count_of, range_of};
use crate::{DbType, Field, Value};
use dbpl_base::{List, Memory};
use std::alloc::Global;

/// The value with which a variable of type `t` begins.
#[cycle(starts)]
pub fn start_value(alloc: Global, t: &DbType) -> Result<Value, Memory>
    ensures value { IfOk result (λ v. v ≡ start_value_of t.now) }
    ensures of_type { IsTrue (is_type t.now) → IfOk result (λ v. IsTrue (is_of t.now v)) }
{
    match t {
        DbType::Arr(index, element) => match count_of(index.get()) {
            Some(count) => Ok(Value::Arr(start_elements(alloc, element.get(), count)?)),
            None => Err(Memory),
        },
        DbType::Rec(fields) => Ok(Value::Rec(start_fields(alloc, fields.as_slice())?)),
        DbType::Rel(_, _) => Ok(Value::Rel(List::new(alloc))),
        _ => Ok(Value::Num(start_number(t))),
    }
}

/// So many start values of the element type.
#[cycle(starts)]
fn start_elements(alloc: Global, element: &DbType, count: u64) -> Result<List<Value>, Memory>
    ensures { IfOk result (λ parts. parts ≡ replicate count (start_value_of element.now)) }
{
    let mut parts = List::new(alloc);
    for _at in 0..count {
        parts.push(start_value(alloc, element)?)?;
    }
    Ok(parts)
}

#[cycle(starts)]
fn start_fields(alloc: Global, fields: &[Field]) -> Result<List<Value>, Memory>
    ensures { IfOk result (λ parts. parts ≡ map (λ field. start_value_of field.kind) fields.now) }
{
    let mut parts = List::new(alloc);
    for field in fields {
        parts.push(start_value(alloc, &field.kind)?)?;
    }
    Ok(parts)
}

/// The number with which a variable of an ordinal type begins.
fn start_number(t: &DbType) -> i64
    ensures { result ≡ option_map_or start_number_of (range_of_type t.now) (pos 0) }
{
    match range_of(t) {
        Some(range) => range.start(),
        None => 0,
    }
}
