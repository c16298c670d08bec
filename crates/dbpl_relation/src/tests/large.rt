//! A relation of 131,072 records, built one by one, and the comparisons of a look-up in it; and the statements and the
//! selection over 3,000 records.
ghost use Rattle.std.specs.Prelude.{◌≡◌, ◌+◌, ◌<◌, ◌≤◌, IfOk, IsTrue, length};
ghost use Rattle.dbpl_value.specs.Keys.{parts_of as records_in};
ghost use Rattle.dbpl_value.specs.Values.{is_of};
ghost use Rattle.dbpl_relation.specs.Examples.{subs};

use super::{one, one_sub, quantity_of, subs_type};
use crate::{ChangeErr, Op, assign_through, find, insert, select};
use dbpl_base::{List, Memory, Steps};
use dbpl_value::{DbType, Value, equal, parts_of};
use std::alloc::Global;
use std::marker::Brand;
use std::sync::ledger::{Blank, Ledger};
use std::test::Fail;

/// The relation of the positions below `count`, each with a hundredth of it as its quantity.
fn ascending(alloc: Global, t: &DbType, count: u32) -> Result<Value, ChangeErr>
    requires { t.now ≡ subs }
    ensures { IfOk result (λ relation. IsTrue (is_of subs relation)) }
{
    let mut relation = Value::Rel(List::new(alloc));
    for position in 0..count {
        insert(
            alloc,
            t,
            &mut relation,
            &one_sub(alloc, position, position / 100)?,
        )?;
    }
    Ok(relation)
}

/// The quantity at a position, with 18 comparisons at most.
fn quantity_at<L: Ledger>(
    t: &DbType,
    relation: &Value,
    key: &[Value],
    steps: &mut Steps<L>,
) -> Option<i64>
    requires kind { t.now ≡ subs }
    requires of_type { IsTrue (is_of subs relation.now) }
    requires count { length (records_in relation.now) ≤ 131072 }
    ensures { steps.new ≤ steps.old + 18 }
{
    find(t, relation, key, steps).map(|element| quantity_of(element))
}

/// What stands at the positions 0, 65,535, 131,071 and 131,072.
fn looked_up<L: Ledger>(
    alloc: Global,
    t: &DbType,
    relation: &Value,
    blank: Blank,
) -> Result<[Option<i64>; 4], Memory>
    requires name { blank.name ≡ L.name }
    requires parts { blank.parts ≡ L.parts }
    requires some { 0 < L.parts }
    requires kind { t.now ≡ subs }
    requires of_type { IsTrue (is_of subs relation.now) }
    requires count { length (records_in relation.now) ≤ 131072 }
{
    let mut steps = Steps::<L>::new(blank);
    let mut found = [None, None, None, None];
    for (i, position) in [0, 65_535, 131_071, 131_072].iter().enumerate() {
        let key = one(alloc, Value::Num(*position))?;
        found[i] = quantity_at(t, relation, key.as_slice(), &mut steps);
    }
    Ok(found)
}

#[test]
fn large_relations(rt: HostRuntime) -> Result<(), Fail> {
    let alloc = rt.alloc();
    let t = subs_type(alloc)?;
    let relation = ascending(alloc, &t, 131_072)?;
    let count = parts_of(&relation).len();
    assert!(rt; count == 131_072);
    let found = looked_up::<Brand>(alloc, &t, &relation, Blank::new(1))?;
    assert_eq!(rt; found, [Some(0), Some(655), Some(1310), None]);
    Ok(())
}

/// Whether the statement through the selector of the quantities below 20 makes the positions below `after` of those below
/// `before`, or is refused so and leaves them. The right side has the positions below `right`.
fn makes(
    alloc: Global,
    t: &DbType,
    op: Op,
    before: u32,
    right: u32,
    wanted: Result<u32, ChangeErr>,
) -> Result<bool, ChangeErr>
    requires { t.now ≡ subs }
{
    let mut relation = ascending(alloc, t, before)?;
    let right = ascending(alloc, t, right)?;
    let inside = |element: &Value| quantity_of(element) < 20;
    let answer = assign_through(alloc, t, &mut relation, inside, op, &right);
    let (answers, after) = match wanted {
        Ok(after) => (answer == Ok(()), after),
        Err(refusal) => (answer == Err(refusal), before),
    };
    Ok(answers && equal(&relation, &ascending(alloc, t, after)?))
}

#[test]
fn large_statements(rt: HostRuntime) -> Result<(), Fail> {
    let alloc = rt.alloc();
    let t = subs_type(alloc)?;
    let cases: [(Op, u32, u32, Result<u32, ChangeErr>); 9] = [
        (Op::Set, 3000, 2000, Ok(3000)),
        (Op::Set, 2000, 1500, Ok(1500)),
        (Op::Set, 3000, 2001, Err(ChangeErr::Outside(2000))),
        (Op::Add, 1000, 2000, Ok(2000)),
        (Op::Add, 3000, 2000, Ok(3000)),
        (Op::Remove, 2000, 2000, Ok(0)),
        (Op::Remove, 3000, 2001, Err(ChangeErr::Outside(2000))),
        (Op::Replace, 3000, 2000, Ok(3000)),
        (Op::Replace, 1000, 2000, Ok(1000)),
    ];
    for (number, (op, before, right, wanted)) in cases.iter().enumerate() {
        assert!(rt;
            makes(alloc, &t, *op, *before, *right, *wanted)?,
            "case {number}"
        );
    }
    Ok(())
}

/// Whether the quantities below 20 are those of the positions below `selected`, of the positions below `count`.
fn selects(alloc: Global, t: &DbType, count: u32, selected: u32) -> Result<bool, ChangeErr>
    requires { t.now ≡ subs }
{
    let relation = ascending(alloc, t, count)?;
    let inside = |element: &Value| quantity_of(element) < 20;
    let kept = select(alloc, t, &relation, inside)?;
    Ok(equal(&kept, &ascending(alloc, t, selected)?))
}

#[test]
fn large_selections(rt: HostRuntime) -> Result<(), Fail> {
    let alloc = rt.alloc();
    let t = subs_type(alloc)?;
    assert!(rt; selects(alloc, &t, 3000, 2000)?);
    assert!(rt; selects(alloc, &t, 1500, 1500)?);
    Ok(())
}
