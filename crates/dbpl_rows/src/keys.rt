//! Questions about keys.
use crate::answer::Answer;
use crate::failure::Failure;
use crate::parts::Parts;
use crate::types::type_in;
use crate::values::value_in;
use dbpl_codec::key_bytes;
use dbpl_value::{Value, element_of, key_order, order_to_key, parts_of};
use std::alloc::Global;
use std::cmp::Ordering;

/// The components of a key: the fields of a record, whose type is one part and whose value is the next.
pub(crate) fn key_in(alloc: Global, parts: &Parts, at: usize) -> Result<Value, Failure> {
    let t = type_in(alloc, parts, at)?;
    value_in(alloc, &t, parts, at.saturating_add(1))
}

/// The bytes of a key in a relation.
pub(crate) fn bytes(alloc: Global, parts: &Parts) -> Result<Answer, Failure> {
    let t = type_in(alloc, parts, 0)?;
    let key = key_in(alloc, parts, 1)?;
    let mut written = Vec::new(alloc);
    key_bytes(&t, parts_of(&key), &mut written)?;
    Ok(Answer::Bytes(written))
}

/// The order of the keys of two records of a relation, forth and back.
pub(crate) fn order(alloc: Global, parts: &Parts) -> Result<Answer, Failure> {
    let t = type_in(alloc, parts, 0)?;
    let v = value_in(alloc, element_of(&t), parts, 1)?;
    let other = value_in(alloc, element_of(&t), parts, 2)?;
    Ok(Answer::Word(named(key_order(&t, &v, &other), key_order(&t, &other, &v))))
}

/// The order of the key of a record to a key.
pub(crate) fn order_to(alloc: Global, parts: &Parts) -> Result<Answer, Failure> {
    let t = type_in(alloc, parts, 0)?;
    let v = value_in(alloc, element_of(&t), parts, 1)?;
    let key = key_in(alloc, parts, 2)?;
    let order = order_to_key(&t, &v, parts_of(&key));
    Ok(Answer::Word(named(order, order.reverse())))
}

fn named(forth: Ordering, back: Ordering) -> &'static str {
    match (forth, back) {
        (Ordering::Less, Ordering::Greater) => "less",
        (Ordering::Equal, Ordering::Equal) => "equal",
        (Ordering::Greater, Ordering::Less) => "greater",
        _ => "no order",
    }
}
