//! The order of records by their keys.
ghost use Rattle.std.specs.Prelude.{◌≡◌, [], map};
ghost use Rattle.std.specs.Cmp.Lexicographic.{slice_cmp};
ghost use Rattle.std.specs.Option.{option_copied};
ghost use Rattle.std.specs.Ordering.{int_cmp};
ghost use Rattle.dbpl_value.specs.Keys.{component_named, key_cmp, key_from, key_of, number_of as number_of_value, part_named as part_of_name};

use crate::levels::{component_values, element_of, fields_of, keys_of, number_of, parts_of};
use crate::{DbType, Field, Value};
use dbpl_base::Name;
use std::cmp::Ordering;

/// The order of two records of a relation of type `t` by their keys.
pub fn key_order(t: &DbType, a: &Value, b: &Value) -> Ordering
    ensures { result ≡ key_cmp (key_of t.now a.now) (key_of t.now b.now) }
{
    let fields = fields_of(element_of(t));
    for key in keys_of(t) {
        let order = numbers_order(
            component(fields, parts_of(a), key),
            component(fields, parts_of(b), key),
        );
        if order.is_ne() {
            return order;
        }
    }
    Ordering::Equal
}

/// The order of a record's key, in a relation of type `t`, to a key that is given by its components.
pub fn order_to_key(t: &DbType, element: &Value, key: &[Value]) -> Ordering
    ensures { result ≡ key_cmp (key_of t.now element.now) (key_from key.now) }
{
    let fields = fields_of(element_of(t));
    let keys = keys_of(t);
    for i in 0..keys.len().min(key.len()) {
        let order = numbers_order(
            component(fields, parts_of(element), &keys[i]),
            component_values(&key[i]),
        );
        if order.is_ne() {
            return order;
        }
    }
    keys.len().cmp(&key.len())
}

/// The component of a key that stands in the field of this name.
fn component<'a>(fields: &[Field], parts: &'a [Value], name: &Name) -> &'a [Value]
    ensures { map number_of_value result.now ≡ component_named fields.now parts.now name.now }
{
    match part_named(fields, parts, name) {
        Some(part) => component_values(part),
        None => &[],
    }
}

/// The value of the field of this name.
fn part_named<'a>(fields: &[Field], parts: &'a [Value], name: &Name) -> Option<&'a Value>
    ensures { option_copied result ≡ part_of_name fields.now parts.now name.now }
{
    for i in 0..fields.len().min(parts.len()) {
        let part = &parts[i];
        if fields[i].name == *name {
            return Some(part);
        }
    }
    None
}

/// The order of two lists of numbers: the first that differs decides, and else the shorter is less.
fn numbers_order(a: &[Value], b: &[Value]) -> Ordering
    ensures { result ≡ slice_cmp int_cmp (map number_of_value a.now) (map number_of_value b.now) }
{
    for i in 0..a.len().min(b.len()) {
        let order = number_of(&a[i]).cmp(&number_of(&b[i]));
        if order.is_ne() {
            return order;
        }
    }
    a.len().cmp(&b.len())
}
