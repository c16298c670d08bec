//! Paths into values.
ghost use Rattle.std.specs.Prelude.{◌≡◌, Err, IfErr, IfOk, IfSome, IsOk, IsTrue, OnErr, OnOk, slice_get, slice_set};
ghost use Rattle.std.specs.List.{position_or_len};
ghost use Rattle.std.specs.Option.{option_map_or};
ghost use Rattle.std.specs.Result.{result_map_both};
ghost use Rattle.dbpl_value.specs.Keys.{has_key, key_from, keys_rise};
ghost use Rattle.dbpl_value.specs.Paths.{KeepsKeys, part_at, part_type as part_type_of, place_of as place_of_step, refusal_of as refusal_of_step, type_at_step, type_at_path, with_part_at};
ghost use Rattle.dbpl_value.specs.Values.{is_of};

use crate::keys::order_to_key;
use crate::levels::{element_of, part_of, parts_of};
use crate::{DbType, PathErr, Step, Value};
use dbpl_base::List;
use std::mem;

/// The part at this path of a value of type `t`.
pub fn at_path<'a>(t: &DbType, v: &'a Value, path: &[Step]) -> Result<&'a Value, PathErr>
    ensures part { IsTrue (is_of t.now v.now) → result_map_both (λ part. part.now) (λ refusal. refusal) result ≡ part_at 0 t.now v.now path.now }
    ensures of_type { IsTrue (is_of t.now v.now) → IfOk result (λ part. IsTrue (is_of (type_at_path t.now path.now) part.now)) }
{
    let mut kind = t;
    let mut part = v;
    for i in 0..path.len() {
        let step = &path[i];
        match part_of(part, place_of(kind, part, step)) {
            Some(next) => part = next,
            None => return Err(refusal_of(i as u64, step)),
        }
        kind = type_at(kind, step);
    }
    Ok(part)
}

/// Puts `new` in the place of the part at this path of a value of type `t`.
pub fn put_path(t: &DbType, v: &mut Value, path: &[Step], new: Value) -> Result<(), PathErr>
    ensures ok { IsTrue (is_of t.now v.old) → OnOk result (IsOk (part_at 0 t.now v.old path.now) × (v.new ≡ with_part_at t.now v.old path.now new)) }
    ensures err { IsTrue (is_of t.now v.old) → IfErr result (λ refusal. part_at 0 t.now v.old path.now ≡ Err refusal) }
    ensures kept { OnErr result (v.new ≡ v.old) }
    ensures of_type { IsTrue (is_of t.now v.old) → IsTrue (is_of (type_at_path t.now path.now) new) → KeepsKeys t.now v.old path.now new → OnOk result (IsTrue (is_of t.now v.new)) }
{
    at_path(t, v, path)?;
    *v = put_part(t, mem::replace(v, Value::Num(0)), path, new);
    Ok(())
}

/// The value with `new` in the place of the part at this path, or the value itself where the path leads to none.
#[cycle(put)]
fn put_part(t: &DbType, v: Value, path: &[Step], new: Value) -> Value
    ensures { IsTrue (is_of t.now v) → result ≡ with_part_at t.now v path.now new }
{
    match path {
        [] => new,
        [step, path @ ..] => {
            let place = place_of(t, &v, step);
            let kind = type_at(t, step);
            match v {
                Value::Num(n) => Value::Num(n),
                Value::Arr(parts) => Value::Arr(put_in(kind, parts, place, path, new)),
                Value::Rec(parts) => Value::Rec(put_in(kind, parts, place, path, new)),
                Value::Rel(parts) => Value::Rel(put_in(kind, parts, place, path, new)),
            }
        }
    }
}

/// The parts with `new` at this path of the one at `place`, which is of type `t`.
#[cycle(put)]
fn put_in(
    t: &DbType,
    mut parts: List<Value>,
    place: usize,
    path: &[Step],
    new: Value,
) -> List<Value>
    ensures { IfSome (slice_get parts place) (λ part. IsTrue (is_of t.now part)) → result ≡ option_map_or (λ part. slice_set parts place (with_part_at t.now part path.now new)) (slice_get parts place) parts }
{
    if place >= parts.len() {
        return parts;
    }
    let part = parts.replace(place, Value::Num(0));
    let put = put_part(t, part, path, new);
    parts.replace(place, put);
    parts
}

/// The position of the part to which a step leads.
fn place_of(t: &DbType, v: &Value, step: &Step) -> usize
    ensures { IsTrue (is_of t.now v.now) → result ≡ place_of_step t.now v.now step.now }
{
    match step {
        Step::Field(number) | Step::Index(number) => *number as usize,
        Step::Key(key) => match v {
            Value::Rel(records) => place_of_key(t, records.as_slice(), key.as_slice()),
            _ => parts_of(v).len(),
        },
    }
}

/// The position of the record with this key, and the number of records where none has it.
fn place_of_key(t: &DbType, records: &[Value], key: &[Value]) -> usize
    ensures { IsTrue (keys_rise t.now records.now) → result ≡ position_or_len (has_key t.now (key_from key.now)) records.now }
{
    match records.binary_search_by(|record| order_to_key(t, record, key)) {
        Ok(place) => place,
        Err(_) => records.len(),
    }
}

/// The type of the part to which a step leads.
fn type_at<'a>(t: &'a DbType, step: &Step) -> &'a DbType
    ensures { result.now ≡ type_at_step t.now step.now }
{
    match step {
        Step::Field(number) | Step::Index(number) => part_type(t, *number as usize),
        Step::Key(_) => element_of(t),
    }
}

/// The type of the part at a position, and a type itself where it has none there.
fn part_type(t: &DbType, place: usize) -> &DbType
    ensures { result.now ≡ part_type_of t.now place }
{
    match t {
        DbType::Arr(_, element) | DbType::Rel(_, element) => element.get(),
        DbType::Rec(fields) => match fields.get(place) {
            Some(field) => &field.kind,
            None => t,
        },
        _ => t,
    }
}

/// What is answered where the step with this number leads to no part.
fn refusal_of(number: u64, step: &Step) -> PathErr
    ensures { result ≡ refusal_of_step number step.now }
{
    match step {
        Step::Field(_) | Step::Index(_) => PathErr::Index(number),
        Step::Key(_) => PathErr::NoElement(number),
    }
}
