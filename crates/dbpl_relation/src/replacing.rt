//! Putting the records of a relation in the place of those with their keys.
ghost use Rattle.std.specs.Prelude.{◌≡◌, Bool, IsTrue, OnErr, OnOk};
ghost use Rattle.dbpl_value.specs.Keys.{parts_of as records_in};
ghost use Rattle.dbpl_value.specs.Values.{is_of};
ghost use Rattle.dbpl_value.specs.declared.value.Value.{Value as AnyValue};
ghost use Rattle.dbpl_relation.specs.Changes.{Computes, everywhere, replaced};
ghost use Rattle.dbpl_relation.specs.Relations.{is_relation_type};

use crate::edits::give_way;
use crate::records::{copies_from_last, from_records, into_records};
use dbpl_base::Memory;
use dbpl_value::{DbType, Value};
use std::alloc::Global;
use std::mem;

/// Puts the records of `e` in the place of those with their keys, as `:&` does. The others of `e` have no effect.
pub fn replace(alloc: Global, t: &DbType, r: &mut Value, e: &Value) -> Result<(), Memory>
    requires kind { IsTrue (is_relation_type t.now) }
    requires relation { IsTrue (is_of t.now r.old) }
    requires right { IsTrue (is_of t.now e.now) }
    ensures replaced { OnOk result (r.new ≡ Value.Rel (replaced t.now everywhere (records_in r.old) (records_in e.now))) }
    ensures kept { OnErr result (r.new ≡ r.old) }
    ensures of_type { IsTrue (is_of t.now r.new) }
{
    let everywhere = |_: &Value| true;
    replace_inside(alloc, t, r, &everywhere, e)
}

/// The same for the records inside alone.
pub(crate) fn replace_inside<F: Fn(&Value) -> bool>(
    alloc: Global,
    t: &DbType,
    r: &mut Value,
    inside: &F,
    e: &Value,
) -> Result<(), Memory>
    requires kind { IsTrue (is_relation_type t.now) }
    requires relation { IsTrue (is_of t.now r.old) }
    requires right { IsTrue (is_of t.now e.now) }
    requires callable { F.IsAlwaysCallable inside.now }
    ensures replaced { (test : AnyValue → Bool) → Computes F.Fn test inside.now → OnOk result (r.new ≡ Value.Rel (replaced t.now test (records_in r.old) (records_in e.now))) }
    ensures kept { OnErr result (r.new ≡ r.old) }
    ensures of_type { IsTrue (is_of t.now r.new) }
{
    let from_last = copies_from_last(alloc, t, e)?;
    let mut records = into_records(t, mem::replace(r, Value::Num(0)));
    give_way(t, &mut records, inside, from_last);
    *r = from_records(t, records);
    Ok(())
}
