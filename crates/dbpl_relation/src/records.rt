//! The records of a relation: seen, taken out of it, put back and copied.
ghost use Rattle.std.specs.Prelude.{◌≡◌, IfOk, IsTrue, reverse};
ghost use Rattle.dbpl_value.specs.Keys.{keys_rise, parts_of as parts_of_value};
ghost use Rattle.dbpl_value.specs.Values.{is_of};
ghost use Rattle.dbpl_relation.specs.Relations.{are_records, is_relation_type};

use dbpl_base::{List, Memory};
use dbpl_value::{DbType, Value, copy, parts_of};
use std::alloc::Global;

/// The records of a relation.
pub(crate) fn records_of<'a>(t: &DbType, relation: &'a Value) -> &'a [Value]
    requires kind { IsTrue (is_relation_type t.now) }
    requires of_type { IsTrue (is_of t.now relation.now) }
    ensures same { result.now ≡ parts_of_value relation.now }
    ensures rising { IsTrue (keys_rise t.now result.now) }
{
    parts_of(relation)
}

/// The records of a relation, taken out of it.
pub(crate) fn into_records(t: &DbType, relation: Value) -> Vec<Value>
    requires kind { IsTrue (is_relation_type t.now) }
    requires of_type { IsTrue (is_of t.now relation) }
    ensures same { result.items ≡ parts_of_value relation }
    ensures whole { relation ≡ Value.Rel result.items }
    ensures records { IsTrue (are_records t.now result.items) }
{
    match relation {
        Value::Rel(records) => records.into_vec(),
        _ => unreachable!(),
    }
}

/// A relation of these records.
pub(crate) fn from_records(t: &DbType, records: Vec<Value>) -> Value
    requires kind { IsTrue (is_relation_type t.now) }
    requires records { IsTrue (are_records t.now records.items) }
    ensures same { result ≡ Value.Rel records.items }
    ensures of_type { IsTrue (is_of t.now result) }
{
    Value::Rel(List::from_vec(records))
}

/// Copies of the records of a relation, the last first.
pub(crate) fn copies_from_last(
    alloc: Global,
    t: &DbType,
    relation: &Value,
) -> Result<List<Value>, Memory>
    requires kind { IsTrue (is_relation_type t.now) }
    requires of_type { IsTrue (is_of t.now relation.now) }
    ensures copies { IfOk result (λ copies. reverse copies ≡ parts_of_value relation.now) }
    ensures records { IfOk result (λ copies. IsTrue (are_records t.now (reverse copies))) }
{
    copy_from_last(alloc, parts_of(relation))
}

/// Copies of these values, the last first.
fn copy_from_last(alloc: Global, values: &[Value]) -> Result<List<Value>, Memory>
    ensures { IfOk result (λ copies. copies ≡ reverse values.now) }
{
    let mut copies = List::new(alloc);
    let mut left = values;
    while let Some((value, rest)) = left.split_last() {
        copies.push(copy(alloc, value)?)?;
        left = rest;
    }
    Ok(copies)
}
