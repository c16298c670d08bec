//! The value of a set expression.
ghost use Rattle.std.specs.Prelude.{◌≡◌, [], ◌∷◌, false, IfErr, IfOk, IsTrue, map, None, OnOk, Some, true};
ghost use Rattle.std.specs.List.{list_all, list_any};
ghost use Rattle.dbpl_stored_program.specs.Sets.{clash, record_of, set_of as set_of_records};
ghost use Rattle.dbpl_relation.specs.Relations.{is_relation_type, put};
ghost use Rattle.dbpl_value.specs.Keys.{parts_of as records_in};
ghost use Rattle.dbpl_value.specs.Types.{element_of};
ghost use Rattle.dbpl_value.specs.Values.{is_of};

use crate::SetErr;
use dbpl_base::{List, Memory};
use dbpl_relation::{ChangeErr, insert};
use dbpl_value::{DbType, Value};
use std::alloc::Global;

/// The set of the records that these rows are.
pub fn set_of(alloc: Global, t: &DbType, rows: &[List<i64>]) -> Result<Value, SetErr>
    requires kind { IsTrue (is_relation_type t.now) }
    requires rows { IsTrue (list_all (is_of (element_of t.now)) (map record_of rows.now)) }
    ensures set { IfOk result (λ set. set_of_records t.now (map record_of rows.now) ≡ Some set) }
    ensures clash { IfErr result (λ why. why ≡ SetErr.Clash → set_of_records t.now (map record_of rows.now) ≡ None) }
    ensures of_type { IfOk result (λ set. IsTrue (is_of t.now set)) }
{
    let mut set = Value::Rel(List::new(alloc));
    for row in rows {
        put_row(alloc, t, &mut set, row.as_slice())?;
    }
    Ok(set)
}

/// Puts the record of a row into a set, unless a different one there has its key.
fn put_row(alloc: Global, t: &DbType, set: &mut Value, row: &[i64]) -> Result<(), SetErr>
    requires kind { IsTrue (is_relation_type t.now) }
    requires relation { IsTrue (is_of t.now set.old) }
    requires row { IsTrue (is_of (element_of t.now) (record_of row.now)) }
    ensures free { OnOk result (
        list_any (λ element. clash t.now element (record_of row.now)) (records_in set.old) ≡ false) }
    ensures put { OnOk result (set.new ≡ Value.Rel (put t.now (records_in set.old) (record_of row.now))) }
    ensures clash { IfErr result (λ why. why ≡ SetErr.Clash →
        list_any (λ element. clash t.now element (record_of row.now)) (records_in set.old) ≡ true) }
    ensures of_type { IsTrue (is_of t.now set.new) }
{
    let one = relation_of(alloc, t, row)?;
    match insert(alloc, t, set, &one) {
        Ok(()) => Ok(()),
        Err(ChangeErr::Memory) => Err(SetErr::Memory),
        Err(_) => Err(SetErr::Clash),
    }
}

/// The relation with the record of one row.
fn relation_of(alloc: Global, t: &DbType, row: &[i64]) -> Result<Value, Memory>
    requires kind { IsTrue (is_relation_type t.now) }
    requires row { IsTrue (is_of (element_of t.now) (record_of row.now)) }
    ensures one { IfOk result (λ relation. relation ≡ Value.Rel (record_of row.now ∷ [])) }
    ensures of_type { IfOk result (λ relation. IsTrue (is_of t.now relation)) }
{
    let mut records = List::new(alloc);
    records.push(record_in(alloc, row)?)?;
    Ok(Value::Rel(records))
}

/// The record of a row.
fn record_in(alloc: Global, row: &[i64]) -> Result<Value, Memory>
    ensures { IfOk result (λ element. element ≡ record_of row.now) }
{
    let mut numbers = List::new(alloc);
    for number in row {
        numbers.push(Value::Num(*number))?;
    }
    Ok(Value::Rec(numbers))
}
