//! Questions about the statements of relations.
ghost use Rattle.std.specs.Prelude.{◌≡◌, ◌<◌, IfOk, IsTrue};
ghost use Rattle.dbpl_relation.specs.Relations.{is_relation_type};
ghost use Rattle.dbpl_value.specs.Values.{is_of};

use crate::answer::Answer;
use crate::failure::Failure;
use crate::keys::key_in;
use crate::parts::Parts;
use crate::types::type_in;
use crate::values::{spelt, value_in};
use dbpl_base::Steps;
use dbpl_relation::{ChangeErr, Op, assign_through, find, insert, remove, replace, select};
use dbpl_value::{DbType, Value, element_of, parts_of};
use std::alloc::Global;
use std::marker::Brand;
use std::sync::ledger::{Blank, Ledger};

/// The relation type whose descriptor this part is.
fn relation_in(alloc: Global, parts: &Parts, at: usize) -> Result<DbType, Failure>
    ensures { IfOk result (λ t. IsTrue (is_relation_type t)) }
{
    let t = type_in(alloc, parts, at)?;
    match t {
        DbType::Rel(..) => Ok(t),
        _ => Err(Failure::Unreadable),
    }
}

/// The first relation after the second was added to it, or the number of the record that clashes.
pub(crate) fn inserted(alloc: Global, parts: &Parts) -> Result<Answer, Failure> {
    let t = relation_in(alloc, parts, 0)?;
    let mut relation = value_in(alloc, &t, parts, 1)?;
    let right = value_in(alloc, &t, parts, 2)?;
    match insert(alloc, &t, &mut relation, &right) {
        Ok(()) => spelt(alloc, &t, &relation),
        Err(refusal) => refused(refusal),
    }
}

fn refused(refusal: ChangeErr) -> Result<Answer, Failure> {
    match refusal {
        ChangeErr::Clash(number) => Ok(Answer::At("clash", number)),
        ChangeErr::Outside(number) => Ok(Answer::At("outside", number)),
        ChangeErr::Memory => Err(Failure::Memory),
    }
}

/// The first relation after the second was assigned to it, through a selector that every record passes.
pub(crate) fn assigned(alloc: Global, parts: &Parts) -> Result<Answer, Failure> {
    let t = relation_in(alloc, parts, 0)?;
    let mut relation = value_in(alloc, &t, parts, 1)?;
    let right = value_in(alloc, &t, parts, 2)?;
    let everywhere = |_: &Value| true;
    match assign_through(alloc, &t, &mut relation, everywhere, Op::Set, &right) {
        Ok(()) => spelt(alloc, &t, &relation),
        Err(refusal) => refused(refusal),
    }
}

/// The records that are selected where every one is.
pub(crate) fn selected(alloc: Global, parts: &Parts) -> Result<Answer, Failure> {
    let t = relation_in(alloc, parts, 0)?;
    let relation = value_in(alloc, &t, parts, 1)?;
    let everywhere = |_: &Value| true;
    let records = select(alloc, &t, &relation, everywhere)?;
    spelt(alloc, &t, &records)
}

/// The first relation after the second was taken away from it.
pub(crate) fn removed(alloc: Global, parts: &Parts) -> Result<Answer, Failure> {
    let t = relation_in(alloc, parts, 0)?;
    let mut relation = value_in(alloc, &t, parts, 1)?;
    let right = value_in(alloc, &t, parts, 2)?;
    remove(&t, &mut relation, &right);
    spelt(alloc, &t, &relation)
}

/// The first relation after records of the second took the places of those with their keys.
pub(crate) fn replaced(alloc: Global, parts: &Parts) -> Result<Answer, Failure> {
    let t = relation_in(alloc, parts, 0)?;
    let mut relation = value_in(alloc, &t, parts, 1)?;
    let right = value_in(alloc, &t, parts, 2)?;
    replace(alloc, &t, &mut relation, &right)?;
    spelt(alloc, &t, &relation)
}

/// The record of a relation that has this key.
pub(crate) fn found(alloc: Global, parts: &Parts) -> Result<Answer, Failure> {
    let t = relation_in(alloc, parts, 0)?;
    let relation = value_in(alloc, &t, parts, 1)?;
    let key = key_in(alloc, parts, 2)?;
    match record_with::<Brand>(&t, &relation, parts_of(&key), Blank::new(1)) {
        Some(record) => spelt(alloc, element_of(&t), record),
        None => Ok(Answer::Word("none")),
    }
}

/// The record with this key, by a counter that nobody reads.
fn record_with<'a, L: Ledger>(
    t: &DbType,
    relation: &'a Value,
    key: &[Value],
    blank: Blank,
) -> Option<&'a Value>
    requires name { blank.name ≡ L.name }
    requires parts { blank.parts ≡ L.parts }
    requires some { 0 < L.parts }
    requires kind { IsTrue (is_relation_type t.now) }
    requires relation { IsTrue (is_of t.now relation.now) }
{
    let mut steps = Steps::<L>::new(blank);
    find(t, relation, key, &mut steps)
}
