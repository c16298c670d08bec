//! Relations in the fields of records: they are compared whole.
ghost use Rattle.std.specs.Prelude.{◌≡◌, [], ◌∷◌, IfOk, IsTrue};
ghost use Rattle.dbpl_value.specs.Values.{is_of};
ghost use Rattle.dbpl_relation.specs.Examples.{parts, subs};

use super::{one, subs_of, subs_type, two};
use crate::{ChangeErr, insert, remove, replace, select};
use dbpl_base::{Boxed, Memory, name_of};
use dbpl_value::{DbType, Value, equal, field_of, parts_of};
use std::alloc::Global;
use std::test::Fail;

/// RELATION num OF RECORD num: CARDINAL; subs: (a relation of positions) END
fn parts_type(alloc: Global) -> Result<DbType, Memory>
    ensures { IfOk result (λ t. t ≡ parts) }
{
    let number = field_of(name_of(alloc, b"num")?, DbType::Card);
    let held = field_of(name_of(alloc, b"subs")?, subs_type(alloc)?);
    let record = DbType::Rec(two(alloc, number, held)?);
    Ok(DbType::Rel(
        one(alloc, name_of(alloc, b"num")?)?,
        Boxed::new(alloc, record)?,
    ))
}

/// A relation with one part.
fn one_part(alloc: Global, number: u32, held: &[(u32, u32)]) -> Result<Value, ChangeErr>
    ensures { IfOk result (λ relation. IsTrue (is_of parts relation)) }
{
    let t = subs_type(alloc)?;
    let record = two(
        alloc,
        Value::Num(i64::from(number)),
        subs_of(alloc, &t, held)?,
    )?;
    Ok(Value::Rel(one(alloc, Value::Rec(record))?))
}

/// A relation of part 1, with these positions, and part 2, with position 1.
fn two_parts(alloc: Global, t: &DbType, held: &[(u32, u32)]) -> Result<Value, ChangeErr>
    requires { t.now ≡ parts }
    ensures { IfOk result (λ relation. IsTrue (is_of parts relation)) }
{
    let mut relation = one_part(alloc, 2, &[(1, 7)])?;
    insert(alloc, t, &mut relation, &one_part(alloc, 1, held)?)?;
    Ok(relation)
}

/// How many positions a part has.
fn held_by(element: &Value) -> usize {
    match parts_of(element) {
        [_, held, ..] => parts_of(held).len(),
        _ => 0,
    }
}

#[test]
fn nested_relations_are_compared_whole(rt: HostRuntime) -> Result<(), Fail> {
    let alloc = rt.alloc();
    let t = parts_type(alloc)?;
    let before = two_parts(alloc, &t, &[(1, 5), (2, 6)])?;
    let mut relation = two_parts(alloc, &t, &[(1, 5), (2, 6)])?;
    let same = one_part(alloc, 1, &[(1, 5), (2, 6)])?;
    let different = one_part(alloc, 1, &[(1, 5), (2, 7)])?;

    assert_eq!(rt; insert(alloc, &t, &mut relation, &same), Ok(()));
    assert_eq!(rt;
        insert(alloc, &t, &mut relation, &different),
        Err(ChangeErr::Clash(0))
    );
    remove(&t, &mut relation, &different);
    assert!(rt; equal(&relation, &before));

    replace(alloc, &t, &mut relation, &different)?;
    assert!(rt; equal(&relation, &two_parts(alloc, &t, &[(1, 5), (2, 7)])?));
    let selected = select(alloc, &t, &relation, |element| held_by(element) == 2)?;
    assert!(rt; equal(&selected, &different));
    remove(&t, &mut relation, &different);
    assert!(rt; equal(&relation, &one_part(alloc, 2, &[(1, 7)])?));
    Ok(())
}
