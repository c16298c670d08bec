//! The first record of a right side that is at fault.
ghost use Rattle.std.specs.Prelude.{◌≡◌, Bool, IsTrue, not};
ghost use Rattle.std.specs.List.{position};
ghost use Rattle.dbpl_value.specs.Keys.{keys_rise};
ghost use Rattle.dbpl_value.specs.declared.value.Value.{Value as AnyValue};
ghost use Rattle.dbpl_relation.specs.Changes.{Computes, clashes, everywhere};

use crate::Op;
use crate::places::search;
use dbpl_value::{DbType, Value, equal};

/// The first of these records that isn't inside.
pub(crate) fn first_outside<F: Fn(&Value) -> bool>(inside: &F, others: &[Value]) -> Option<usize>
    requires { F.IsAlwaysCallable inside.now }
    ensures { (test : AnyValue → Bool) → Computes F.Fn test inside.now → result ≡ position (λ other. not (test other)) others.now }
{
    for i in 0..others.len() {
        if !inside(&others[i]) {
            return Some(i);
        }
    }
    None
}

/// The first of these records whose key belongs to a different record.
pub(crate) fn first_different(t: &DbType, records: &[Value], others: &[Value]) -> Option<usize>
    ensures { IsTrue (keys_rise t.now records.now) → result ≡ position (clashes t.now Op.Add everywhere records.now) others.now }
{
    for i in 0..others.len() {
        if is_different(t, records, &others[i]) {
            return Some(i);
        }
    }
    None
}

fn is_different(t: &DbType, records: &[Value], other: &Value) -> bool
    ensures { IsTrue (keys_rise t.now records.now) → result ≡ clashes t.now Op.Add everywhere records.now other.now }
{
    match search(t, records, other) {
        Ok(place) => !equal(&records[place], other),
        Err(_) => false,
    }
}

/// The first of these records whose key belongs to a record outside.
pub(crate) fn first_taken<F: Fn(&Value) -> bool>(
    t: &DbType,
    records: &[Value],
    inside: &F,
    others: &[Value],
) -> Option<usize>
    requires { F.IsAlwaysCallable inside.now }
    ensures { (test : AnyValue → Bool) → Computes F.Fn test inside.now → IsTrue (keys_rise t.now records.now) → result ≡ position (clashes t.now Op.Set test records.now) others.now }
{
    for i in 0..others.len() {
        if is_taken(t, records, inside, &others[i]) {
            return Some(i);
        }
    }
    None
}

fn is_taken<F: Fn(&Value) -> bool>(t: &DbType, records: &[Value], inside: &F, other: &Value) -> bool
    requires { F.IsAlwaysCallable inside.now }
    ensures { (test : AnyValue → Bool) → Computes F.Fn test inside.now → IsTrue (keys_rise t.now records.now) → result ≡ clashes t.now Op.Set test records.now other.now }
{
    match search(t, records, other) {
        Ok(place) => !inside(&records[place]),
        Err(_) => false,
    }
}
