//! Assignment through a selector.
ghost use Rattle.std.specs.Prelude.{◌≡◌, ◌≢◌, Bool, IfErr, IsTrue, OnErr, OnOk};
ghost use Rattle.dbpl_value.specs.Keys.{parts_of as records_in};
ghost use Rattle.dbpl_value.specs.Values.{is_of};
ghost use Rattle.dbpl_value.specs.declared.value.Value.{Value as AnyValue};
ghost use Rattle.dbpl_relation.specs.Changes.{Computes, changed, changed_inside, set};
ghost use Rattle.dbpl_relation.specs.Relations.{is_relation_type};

use crate::edits::exchange;
use crate::faults::{first_outside, first_taken};
use crate::records::{copies_from_last, from_records, into_records, records_of};
use crate::replacing::replace_inside;
use crate::{ChangeErr, Op, insert, remove};
use dbpl_base::Memory;
use dbpl_value::{DbType, Value};
use std::alloc::Global;
use std::mem;

/// Changes a relation by the records of `e` through the selector whose records pass the test `inside`. Where all
/// pass, it is the plain statement.
pub fn assign_through<F: Fn(&Value) -> bool>(
    alloc: Global,
    t: &DbType,
    r: &mut Value,
    inside: F,
    op: Op,
    e: &Value,
) -> Result<(), ChangeErr>
    requires kind { IsTrue (is_relation_type t.now) }
    requires relation { IsTrue (is_of t.now r.old) }
    requires right { IsTrue (is_of t.now e.now) }
    requires callable { F.IsAlwaysCallable inside }
    ensures changed { (test : AnyValue → Bool) → Computes F.Fn test inside → OnOk result (changed t.now op test (records_in r.old) (records_in e.now) ≡ Ok r.new) }
    ensures refused { (test : AnyValue → Bool) → Computes F.Fn test inside → IfErr result (λ refusal. refusal ≢ ChangeErr.Memory → changed t.now op test (records_in r.old) (records_in e.now) ≡ Err refusal) }
    ensures kept { OnErr result (r.new ≡ r.old) }
    ensures of_type { IsTrue (is_of t.now r.new) }
{
    if let Some(at) = first_outside(&inside, records_of(t, e)) {
        return Err(ChangeErr::Outside(at as u64));
    }
    match op {
        Op::Set => set_inside(alloc, t, r, &inside, e),
        Op::Add => insert(alloc, t, r, e),
        Op::Remove => {
            remove(t, r, e);
            Ok(())
        }
        Op::Replace => {
            replace_inside(alloc, t, r, &inside, e)?;
            Ok(())
        }
    }
}

/// Puts the records of `e` in the place of those inside, unless the key of one of them belongs to a record outside.
fn set_inside<F: Fn(&Value) -> bool>(
    alloc: Global,
    t: &DbType,
    r: &mut Value,
    inside: &F,
    e: &Value,
) -> Result<(), ChangeErr>
    requires kind { IsTrue (is_relation_type t.now) }
    requires relation { IsTrue (is_of t.now r.old) }
    requires right { IsTrue (is_of t.now e.now) }
    requires callable { F.IsAlwaysCallable inside.now }
    ensures changed { (test : AnyValue → Bool) → Computes F.Fn test inside.now → OnOk result (changed_inside t.now Op.Set test (records_in r.old) (records_in e.now) ≡ Ok r.new) }
    ensures refused { (test : AnyValue → Bool) → Computes F.Fn test inside.now → IfErr result (λ refusal. refusal ≢ ChangeErr.Memory → changed_inside t.now Op.Set test (records_in r.old) (records_in e.now) ≡ Err refusal) }
    ensures kept { OnErr result (r.new ≡ r.old) }
    ensures of_type { IsTrue (is_of t.now r.new) }
{
    if let Some(at) = first_taken(t, records_of(t, r), inside, records_of(t, e)) {
        return Err(ChangeErr::Clash(at as u64));
    }
    exchange_in(alloc, t, r, inside, e)?;
    Ok(())
}

fn exchange_in<F: Fn(&Value) -> bool>(
    alloc: Global,
    t: &DbType,
    r: &mut Value,
    inside: &F,
    e: &Value,
) -> Result<(), Memory>
    requires kind { IsTrue (is_relation_type t.now) }
    requires relation { IsTrue (is_of t.now r.old) }
    requires right { IsTrue (is_of t.now e.now) }
    requires callable { F.IsAlwaysCallable inside.now }
    ensures set { (test : AnyValue → Bool) → Computes F.Fn test inside.now → OnOk result (r.new ≡ Value.Rel (set t.now test (records_in r.old) (records_in e.now))) }
    ensures kept { OnErr result (r.new ≡ r.old) }
    ensures of_type { IsTrue (is_of t.now r.new) }
{
    let from_last = copies_from_last(alloc, t, e)?;
    let mut records = into_records(t, mem::replace(r, Value::Num(0)));
    let result = exchange(t, &mut records, inside, from_last);
    *r = from_records(t, records);
    result
}
