//! Which types and which values are equal.
ghost use Rattle.std.specs.Prelude.{◌≡◌, ◌↔◌, IsTrue};
ghost use Rattle.dbpl_value.specs.Equality.{is_same, is_same_type};

use crate::{DbType, Field, Value};
use dbpl_base::Name;

/// Whether two descriptors are equal.
pub fn same_type(a: &DbType, b: &DbType) -> bool
    ensures equal { IsTrue result ↔ (a.now ≡ b.now) }
    ensures computed { result ≡ is_same_type a.now b.now }
{
    are_equal_types(a, b)
}

#[cycle(same_types)]
fn are_equal_types(a: &DbType, b: &DbType) -> bool
    ensures { IsTrue result ↔ (a.now ≡ b.now) }
{
    match (a, b) {
        (DbType::Int, DbType::Int) => true,
        (DbType::Card, DbType::Card) => true,
        (DbType::Bool, DbType::Bool) => true,
        (DbType::Char, DbType::Char) => true,
        (DbType::Enum(names), DbType::Enum(others)) => {
            same_names(names.as_slice(), others.as_slice())
        }
        (DbType::Sub(host, least, greatest), DbType::Sub(other, low, high)) => {
            *least == *low && *greatest == *high && are_equal_types(host.get(), other.get())
        }
        (DbType::Arr(index, element), DbType::Arr(other_index, other_element)) => {
            are_equal_types(index.get(), other_index.get())
                && are_equal_types(element.get(), other_element.get())
        }
        (DbType::Rec(fields), DbType::Rec(others)) => {
            same_fields(fields.as_slice(), others.as_slice())
        }
        (DbType::Rel(keys, record), DbType::Rel(others, other)) => {
            same_names(keys.as_slice(), others.as_slice())
                && are_equal_types(record.get(), other.get())
        }
        _ => false,
    }
}

#[cycle(same_types)]
fn same_fields(fields: &[Field], others: &[Field]) -> bool
    ensures { IsTrue result ↔ (fields.now ≡ others.now) }
{
    if fields.len() != others.len() {
        return false;
    }
    for i in 0..fields.len() {
        if !same_field(&fields[i], &others[i]) {
            return false;
        }
    }
    true
}

#[cycle(same_types)]
fn same_field(field: &Field, other: &Field) -> bool
    ensures { IsTrue result ↔ (field.now ≡ other.now) }
{
    field.name == other.name && are_equal_types(&field.kind, &other.kind)
}

fn same_names(names: &[Name], others: &[Name]) -> bool
    ensures { IsTrue result ↔ (names.now ≡ others.now) }
{
    if names.len() != others.len() {
        return false;
    }
    for i in 0..names.len() {
        if !names[i].is(others[i].as_bytes()) {
            return false;
        }
    }
    true
}

/// Whether two values are equal, with all that is in them.
pub fn equal(a: &Value, b: &Value) -> bool
    ensures equal { IsTrue result ↔ (a.now ≡ b.now) }
    ensures computed { result ≡ is_same a.now b.now }
{
    are_equal(a, b)
}

#[cycle(equal_values)]
fn are_equal(a: &Value, b: &Value) -> bool
    ensures { IsTrue result ↔ (a.now ≡ b.now) }
{
    match (a, b) {
        (Value::Num(n), Value::Num(other)) => *n == *other,
        (Value::Arr(parts), Value::Arr(others)) => all_equal(parts.as_slice(), others.as_slice()),
        (Value::Rec(parts), Value::Rec(others)) => all_equal(parts.as_slice(), others.as_slice()),
        (Value::Rel(parts), Value::Rel(others)) => all_equal(parts.as_slice(), others.as_slice()),
        _ => false,
    }
}

#[cycle(equal_values)]
fn all_equal(parts: &[Value], others: &[Value]) -> bool
    ensures { IsTrue result ↔ (parts.now ≡ others.now) }
{
    if parts.len() != others.len() {
        return false;
    }
    for i in 0..parts.len() {
        if !are_equal(&parts[i], &others[i]) {
            return false;
        }
    }
    true
}
