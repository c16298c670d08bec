//! The least of several breaches, and with ample memory each call that takes memory has its answer. Each row is a
//! function of its own, so that few values are alive in it.
use crate::{
    Checker, Gives, Heading, Kind, Setting, both_of, boxed, heading_of, kept, pair, pushed,
};
use dbpl_base::{List, Memory, Name, Place, Shared, name_of};
use dbpl_symbols::{Decl, Origin, make_scope};
use dbpl_value::{DbType, Field, Head, same_type};
use std::alloc::Global;

fn module_of(alloc: Global) -> Result<Shared<Name>, Memory> {
    Shared::new(alloc, name_of(alloc, b"M")?)
}

fn checker_of(alloc: Global) -> Result<Checker, Memory> {
    let (scope, module) = pair(make_scope(alloc)?, module_of(alloc))?;
    Ok(Checker::new(Setting {
        scope,
        module,
        heading: None,
        in_loop: false,
        has_relations: false,
    }))
}

/// What is asked of the heading of a transaction with this result.
fn heading(alloc: Global, kind: Option<Shared<DbType>>) -> Result<Heading, Memory> {
    let head = Head {
        name: name_of(alloc, b"p")?,
        transaction: true,
        params: List::new(alloc),
        result: kind,
    };
    heading_of(&head)
}

/// Whether the heading is that of a transaction with a result that is known.
fn gives_value(heading: &Option<Heading>) -> bool {
    match heading {
        Some(heading) => heading.transaction && matches!(heading.result, Gives::Value(_)),
        None => false,
    }
}

/// Whether the heading of a transaction without result is that of one.
fn gives_nothing(alloc: Global) -> Result<bool, Memory> {
    let heading = heading(alloc, None)?;
    Ok(heading.transaction && matches!(heading.result, Gives::Nothing))
}

fn at(line: u32, col: u32) -> Place {
    Place { unit: 0, line, col }
}

/// The line, the column and the rule of the least breach so far.
fn least_so_far(checker: &Checker) -> Option<(u32, u32, u16)> {
    checker
        .least()
        .map(|least| (least.place.line, least.place.col, least.rule))
}

/// Whether of these breaches, each by its line, its column and its rule, the least is this one.
fn is_least(
    alloc: Global,
    breaches: &[(u32, u32, u16)],
    least: Option<(u32, u32, u16)>,
) -> Result<bool, Memory> {
    let mut checker = checker_of(alloc)?;
    for (line, col, rule) in breaches {
        let _ = checker.asks(*rule, at(*line, *col), false);
        let _ = checker.asks(9, at(1, 1), true);
    }
    Ok(least_so_far(&checker) == least)
}

/// Whether a name is declared in a level of its own alone, which is that of a routine with a LOOP.
fn declares_in_level(alloc: Global, checker: &mut Checker, name: &Name) -> Result<bool, Memory> {
    checker.enter()?;
    checker.declare(alloc, name, Decl::Whole(7), Origin::Declared)?;
    let is_inside = checker.setting().scope.look(name).is_some();
    checker.leave();
    Ok(is_inside && checker.setting().scope.look(name).is_none())
}

/// Whether the checker says in which routine and in which LOOP it is, and says it no more when these are left.
fn stands_in_routine(alloc: Global, checker: &mut Checker) -> Result<bool, Memory> {
    let kind = Shared::new(alloc, DbType::Card)?;
    let inner = heading(alloc, Some(kind))?;
    let outer = checker.set_heading(Some(inner));
    let loops = checker.set_in_loop(true);
    let is_inside = gives_value(&checker.setting().heading) && checker.setting().in_loop;
    let _ = checker.set_in_loop(loops);
    let _ = checker.set_heading(outer);
    Ok(is_inside && checker.setting().heading.is_none() && !checker.setting().in_loop)
}

/// A record with a field, which has three nodes: itself, the field's name and the field's type.
fn record_type(alloc: Global) -> Result<DbType, Memory> {
    let name = name_of(alloc, b"f")?;
    let fields = one_field(
        alloc,
        Field {
            name,
            kind: DbType::Card,
        },
    )?;
    Ok(DbType::Rec(fields))
}

fn one_field(alloc: Global, field: Field) -> Result<List<Field>, Memory> {
    let mut fields = List::new(alloc);
    fields.push(field)?;
    Ok(fields)
}

/// Whether a type of three nodes is copied while there is room for its nodes, and no longer.
fn copies_within_room(alloc: Global, checker: &mut Checker) -> Result<bool, Memory> {
    let record = record_type(alloc)?;
    checker.take_room(4_194_300)?;
    let copied = checker.copy_type(alloc, &record)?;
    Ok(
        same_type(copied.get(), &record)
            && checker.copy_type(alloc, &record).is_err()
            && checker.copy_type(alloc, &DbType::Card).is_ok()
            && checker.take_room(1).is_err(),
    )
}

/// Whether no call gives room back: where none is left, none is left after each of them.
fn gives_no_room_back(alloc: Global, checker: &mut Checker, name: &Name) -> Result<bool, Memory> {
    checker.take_room(4_194_304)?;
    let _ = checker.asks(9, at(1, 1), true);
    let _ = checker.asks(9, at(1, 1), false);
    checker.breaks(9, at(1, 1));
    checker.unbuilt();
    let before = checker.take_room(1).is_err();
    let is_declared = declares_in_level(alloc, checker, name)?;
    let stands = stands_in_routine(alloc, checker)?;
    let copies = checker.copy_type(alloc, &DbType::Card).is_ok();
    Ok(before && is_declared && stands && !copies && checker.take_room(1).is_err())
}

/// Whether each kind is had once more.
fn shares_kinds(alloc: Global) -> Result<bool, Memory> {
    let kind = Kind::Of(Shared::new(alloc, DbType::Char)?);
    Ok(is_shared(&Kind::Whole) && is_shared(&Kind::Text(3, 65)) && is_shared(&kind))
}

fn is_shared(kind: &Kind) -> bool {
    kind.share().is_ok()
}

/// A missing part gives no list, and a refusal is handed on.
fn pushes_no_missing(alloc: Global) -> Result<bool, Memory> {
    let nothing: Option<u32> = None;
    let no_list: Option<List<u32>> = None;
    let list = List::from_slice(alloc, &[1])?;
    let none = pushed(Some(list), Ok(nothing))? == None;
    let still = pushed(no_list, Ok(Some(2)))? == None;
    let refused: Result<Option<u32>, Memory> = Err(Memory);
    Ok(none && still && pushed(Some(List::new(alloc)), refused).is_err())
}

fn changes(alloc: Global) -> Result<bool, Memory> {
    let (mut checker, name) = pair(checker_of(alloc)?, name_of(alloc, b"x"))?;
    let _ = checker.asks(54, at(9, 9), false);
    let _ = checker.asks(9, at(1, 1), true);
    checker.breaks(12, at(1, 2));
    checker.unbuilt();
    let is_unbuilt = least_so_far(&checker) == Some((1, 1, 109));
    let declares = declares_in_level(alloc, &mut checker, &name);
    let stands = stands_in_routine(alloc, &mut checker);
    let copies = copies_within_room(alloc, &mut checker);
    Ok(is_unbuilt && declares? && stands? && copies?)
}

fn keeps_room(alloc: Global) -> Result<bool, Memory> {
    let (mut checker, name) = pair(checker_of(alloc)?, name_of(alloc, b"x"))?;
    gives_no_room_back(alloc, &mut checker, &name)
}

/// Whether of two units the first is the lesser, whatever the lines.
fn is_least_by_unit(alloc: Global) -> Result<bool, Memory> {
    let mut checker = checker_of(alloc)?;
    let place = Place {
        unit: 1,
        line: 1,
        col: 1,
    };
    checker.breaks(1, place);
    checker.breaks(54, at(9, 9));
    Ok(least_so_far(&checker) == Some((9, 9, 54)))
}

/// Whether parts that are handed on come out as they went in.
fn hands_on(alloc: Global) -> Result<bool, Memory> {
    let (one, other) = pair(1, Ok(2))?;
    let both = both_of(Some(one), Some(other)) == Some((1, 2));
    let found = kept(one, Ok(Some(other)))? == Some((1, 2));
    let (known, inner) = boxed(alloc, one, other)?;
    let list = pushed(Some(List::new(alloc)), Ok(Some(other)))?;
    Ok(
        both && found
            && known == 1
            && *inner.get() == 2
            && list == Some(List::from_slice(alloc, &[2])?),
    )
}

#[test]
fn judgements(rt: HostRuntime) -> Result<(), Memory> {
    let alloc = rt.alloc();
    assert!(rt; is_least(alloc, &[], None)?);
    // Of one place the lesser rule, of one line the lesser column, and else the lesser line.
    assert!(rt;
        is_least(
            alloc,
            &[(1, 5, 25), (1, 5, 15), (1, 5, 29)],
            Some((1, 5, 15))
        )?
    );
    assert!(rt;
        is_least(
            alloc,
            &[(1, 9, 10), (1, 10, 9), (1, 3, 54)],
            Some((1, 3, 54))
        )?
    );
    assert!(rt;
        is_least(
            alloc,
            &[(2, 1, 9), (1, 80, 54), (10, 1, 1)],
            Some((1, 80, 54))
        )?
    );
    assert!(rt; is_least_by_unit(alloc)?);
    assert!(rt; gives_nothing(alloc)?);
    assert!(rt; changes(alloc)?);
    assert!(rt; keeps_room(alloc)?);
    assert!(rt; shares_kinds(alloc)?);
    assert!(rt; hands_on(alloc)?);
    assert!(rt; pushes_no_missing(alloc)?);
    Ok(())
}
