//! Changes of the records of a relation, in the order of their keys.
ghost use Rattle.std.specs.Prelude.{◌≡◌, [], ◌∷◌, ◌+◌, ◌<◌, ◌≤◌, Bool, IsTrue, OnErr, OnOk, length, not, reverse, vec_capacity, vec_len};
ghost use Rattle.std.specs.List.{filter};
ghost use Rattle.dbpl_value.specs.Keys.{keys_rise};
ghost use Rattle.dbpl_value.specs.declared.value.Value.{Value as AnyValue};
ghost use Rattle.dbpl_relation.specs.Changes.{Computes, everywhere, removed, replaced};
ghost use Rattle.dbpl_value.specs.Types.{element_of};
ghost use Rattle.dbpl_value.specs.Values.{is_of};
ghost use Rattle.dbpl_relation.specs.Relations.{are_records, merged, put};

use crate::places::search;
use dbpl_base::{List, Memory};
use dbpl_value::{DbType, Value, equal};

/// Puts a record at the place of its key. There must be room for it.
fn put_in(t: &DbType, records: &mut Vec<Value>, element: Value)
    requires rising { IsTrue (keys_rise t.now records.old.items) }
    requires room { vec_len records.old < vec_capacity records.old }
    ensures items { records.new.items ≡ put t.now records.old.items element }
    ensures len { vec_len records.new ≤ vec_len records.old + 1 }
    ensures capacity { vec_capacity records.old ≤ vec_capacity records.new }
{
    match search(t, records, &element) {
        Ok(place) => records[place] = element,
        Err(place) => match records.insert(place, element) {
            Ok(()) => (),
            Err(_) => unreachable!(),
        },
    }
}

/// Puts each of these records, given the last first, at the place of its key. There must be room for them.
fn put_all(t: &DbType, records: &mut Vec<Value>, from_last: List<Value>)
    requires rising { IsTrue (keys_rise t.now records.old.items) }
    requires room { vec_len records.old + length from_last ≤ vec_capacity records.old }
    ensures { records.new.items ≡ merged t.now records.old.items (reverse from_last) }
{
    let mut left = from_last;
    while let Some(element) = left.pop() {
        put_in(t, records, element);
    }
}

/// Adds these records, given the last first.
pub(crate) fn merge(
    t: &DbType,
    records: &mut Vec<Value>,
    from_last: List<Value>,
) -> Result<(), Memory>
    requires records { IsTrue (are_records t.now records.old.items) }
    requires others { IsTrue (are_records t.now (reverse from_last)) }
    ensures ok { OnOk result (records.new.items ≡ merged t.now records.old.items (reverse from_last)) }
    ensures err { OnErr result (records.new.items ≡ records.old.items) }
    ensures of_type { IsTrue (are_records t.now records.new.items) }
{
    records.reserve(from_last.len())?;
    put_all(t, records, from_last);
    Ok(())
}

/// Puts these records, given the last first, in the place of those inside.
pub(crate) fn exchange<F: Fn(&Value) -> bool>(
    t: &DbType,
    records: &mut Vec<Value>,
    inside: &F,
    from_last: List<Value>,
) -> Result<(), Memory>
    requires records { IsTrue (are_records t.now records.old.items) }
    requires others { IsTrue (are_records t.now (reverse from_last)) }
    requires callable { F.IsAlwaysCallable inside.now }
    ensures ok { (test : AnyValue → Bool) → Computes F.Fn test inside.now → OnOk result (records.new.items ≡ merged t.now (filter (λ element. not (test element)) records.old.items) (reverse from_last)) }
    ensures err { OnErr result (records.new.items ≡ records.old.items) }
    ensures of_type { IsTrue (are_records t.now records.new.items) }
{
    records.reserve(from_last.len())?;
    records.retain(
        |element: &Value|
            requires { F.IsAlwaysCallable inside.now }
            ensures { (test : AnyValue → Bool) → Computes F.Fn test inside.entry.now → result ≡ not (test element.now) }
        { !inside(element) },
    );
    put_all(t, records, from_last);
    Ok(())
}

/// Takes away the records that are equal to one of these.
pub(crate) fn take_away(t: &DbType, records: &mut Vec<Value>, others: &[Value])
    requires { IsTrue (are_records t.now records.old.items) }
    ensures items { records.new.items ≡ removed everywhere records.old.items others.now }
    ensures of_type { IsTrue (are_records t.now records.new.items) }
{
    let mut left = others;
    while let Some((other, rest)) = left.split_last() {
        take_one(t, records, other);
        left = rest;
    }
}

fn take_one(t: &DbType, records: &mut Vec<Value>, other: &Value)
    requires rising { IsTrue (keys_rise t.now records.old.items) }
    ensures { records.new.items ≡ removed everywhere records.old.items (other.now ∷ []) }
{
    if let Ok(place) = search(t, records, other) {
        if equal(&records[place], other) {
            drop(records.remove(place));
        }
    }
}

/// Puts each of these records, given the last first, in the place of the one inside with its key, where there is one.
pub(crate) fn give_way<F: Fn(&Value) -> bool>(
    t: &DbType,
    records: &mut Vec<Value>,
    inside: &F,
    from_last: List<Value>,
)
    requires records { IsTrue (are_records t.now records.old.items) }
    requires others { IsTrue (are_records t.now (reverse from_last)) }
    requires callable { F.IsAlwaysCallable inside.now }
    ensures items { (test : AnyValue → Bool) → Computes F.Fn test inside.now → records.new.items ≡ replaced t.now test records.old.items (reverse from_last) }
    ensures of_type { IsTrue (are_records t.now records.new.items) }
{
    let mut left = from_last;
    while let Some(element) = left.pop() {
        give_way_to(t, records, inside, element);
    }
}

fn give_way_to<F: Fn(&Value) -> bool>(
    t: &DbType,
    records: &mut Vec<Value>,
    inside: &F,
    element: Value,
)
    requires records { IsTrue (are_records t.now records.old.items) }
    requires element { IsTrue (is_of (element_of t.now) element) }
    requires callable { F.IsAlwaysCallable inside.now }
    ensures items { (test : AnyValue → Bool) → Computes F.Fn test inside.now → records.new.items ≡ replaced t.now test records.old.items (element ∷ []) }
    ensures of_type { IsTrue (are_records t.now records.new.items) }
{
    if let Ok(place) = search(t, records, &element) {
        if inside(&records[place]) {
            records[place] = element;
        }
    }
}
