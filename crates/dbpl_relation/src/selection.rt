//! The records of a relation that pass a test.
ghost use Rattle.std.specs.Prelude.{◌≡◌, Bool, IfOk, IsTrue};
ghost use Rattle.std.specs.List.{filter};
ghost use Rattle.dbpl_value.specs.Keys.{parts_of as records_in};
ghost use Rattle.dbpl_value.specs.Values.{is_of};
ghost use Rattle.dbpl_value.specs.declared.value.Value.{Value as AnyValue};
ghost use Rattle.dbpl_relation.specs.Changes.{Computes};
ghost use Rattle.dbpl_relation.specs.Relations.{is_relation_type};

use crate::records::records_of;
use dbpl_base::{List, Memory};
use dbpl_value::{DbType, Value, copy};
use std::alloc::Global;

/// A relation of the records that pass the test.
pub fn select<F: Fn(&Value) -> bool>(
    alloc: Global,
    t: &DbType,
    r: &Value,
    keep: F,
) -> Result<Value, Memory>
    requires kind { IsTrue (is_relation_type t.now) }
    requires relation { IsTrue (is_of t.now r.now) }
    requires callable { F.IsAlwaysCallable keep }
    ensures kept { (test : AnyValue → Bool) → Computes F.Fn test keep → IfOk result (λ selected. selected ≡ Value.Rel (filter test (records_in r.now))) }
    ensures of_type { IfOk result (λ selected. IsTrue (is_of t.now selected)) }
{
    let records = records_of(t, r);
    let mut kept = List::new(alloc);
    for element in records {
        if keep(element) {
            kept.push(copy(alloc, element)?)?;
        }
    }
    Ok(Value::Rel(kept))
}
