//! Adding the records of a relation to another.
ghost use Rattle.std.specs.Prelude.{◌≡◌, ◌≢◌, IfErr, IsTrue, OnErr, OnOk};
ghost use Rattle.dbpl_value.specs.Keys.{parts_of as records_in};
ghost use Rattle.dbpl_value.specs.Values.{is_of};
ghost use Rattle.dbpl_relation.specs.Changes.{changed, everywhere};
ghost use Rattle.dbpl_relation.specs.Relations.{is_relation_type, merged};

use crate::edits::merge;
use crate::faults::first_different;
use crate::records::{copies_from_last, from_records, into_records, records_of};
use crate::{ChangeErr, Op};
use dbpl_base::Memory;
use dbpl_value::{DbType, Value};
use std::alloc::Global;
use std::mem;

/// Adds the records of `e`, as `:+` does, unless the key of one of them belongs to a different record.
pub fn insert(alloc: Global, t: &DbType, r: &mut Value, e: &Value) -> Result<(), ChangeErr>
    requires kind { IsTrue (is_relation_type t.now) }
    requires relation { IsTrue (is_of t.now r.old) }
    requires right { IsTrue (is_of t.now e.now) }
    ensures added { OnOk result (changed t.now Op.Add everywhere (records_in r.old) (records_in e.now) ≡ Ok r.new) }
    ensures refused { IfErr result (λ refusal. refusal ≢ ChangeErr.Memory → changed t.now Op.Add everywhere (records_in r.old) (records_in e.now) ≡ Err refusal) }
    ensures kept { OnErr result (r.new ≡ r.old) }
    ensures of_type { IsTrue (is_of t.now r.new) }
{
    if let Some(at) = first_different(t, records_of(t, r), records_of(t, e)) {
        return Err(ChangeErr::Clash(at as u64));
    }
    add(alloc, t, r, e)?;
    Ok(())
}

fn add(alloc: Global, t: &DbType, r: &mut Value, e: &Value) -> Result<(), Memory>
    requires kind { IsTrue (is_relation_type t.now) }
    requires relation { IsTrue (is_of t.now r.old) }
    requires right { IsTrue (is_of t.now e.now) }
    ensures added { OnOk result (r.new ≡ Value.Rel (merged t.now (records_in r.old) (records_in e.now))) }
    ensures kept { OnErr result (r.new ≡ r.old) }
    ensures of_type { IsTrue (is_of t.now r.new) }
{
    let from_last = copies_from_last(alloc, t, e)?;
    let mut records = into_records(t, mem::replace(r, Value::Num(0)));
    let result = merge(t, &mut records, from_last);
    *r = from_records(t, records);
    result
}
