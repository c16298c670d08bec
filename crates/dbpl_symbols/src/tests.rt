// With ample memory each call has its answer, also where there are many names. Each row is a function of its own, so
// that few values are alive in it.
use crate::{
    Decl, DeclareErr, Exports, Origin, Scope, Sort, StandardProcedure, copy_decl, copy_sort,
    exported, in_out, interface, make_scope,
};
use dbpl_base::{List, Memory, Name, Shared, name_of};
use dbpl_core::InOutProcedure;
use dbpl_value::{DbType, Head, Param};
use std::alloc::Global;
use std::test::Fail;

/// The number of a constant.
fn number(decl: Option<&Decl>) -> Option<i64> {
    match decl {
        Some(Decl::Whole(number)) => Some(*number),
        Some(Decl::Num(_, number)) => Some(*number),
        _ => None,
    }
}

/// Whether the name is declared as this number, and not refused as declared twice.
fn is_added(alloc: Global, scope: &mut Scope, name: &Name, number: i64) -> Result<bool, Memory> {
    match scope.declare(alloc, name, Decl::Whole(number)) {
        Ok(()) => Ok(true),
        Err(DeclareErr::Twice) => Ok(false),
        Err(DeclareErr::Memory) => Err(Memory),
    }
}

/// A name is declared twice at one level, then once at the next, and that level is left.
fn levels(alloc: Global) -> Result<bool, Memory> {
    let x = name_of(alloc, b"x")?;
    let mut scope = make_scope(alloc)?;
    scope.enter()?;
    let first = is_added(alloc, &mut scope, &x, 1)?;
    let second = is_added(alloc, &mut scope, &x, 2)?;
    scope.enter()?;
    let inner = is_added(alloc, &mut scope, &x, 3)?;
    let inside = number(scope.look(&x));
    scope.leave();
    let outside = number(scope.look(&x));
    scope.leave();
    scope.leave();
    let nowhere = scope.look(&x).is_none();
    Ok(first && !second && inner && inside == Some(3) && outside == Some(1) && nowhere)
}

/// Imports a variable of this name, by a copy of its declaration.
fn import_variable(alloc: Global, scope: &mut Scope, name: &Name) -> Result<(), Memory> {
    let kind = Shared::new(alloc, DbType::Card)?;
    let decl = copy_decl(&Decl::Variable(kind, Sort::Param(3)))?;
    scope.add(alloc, name, decl, Origin::Imported)
}

/// FALSE is found before anything is declared, and a variable INTEGER hides the type.
fn standard_names(alloc: Global) -> Result<bool, Memory> {
    let integer = name_of(alloc, b"INTEGER")?;
    let constant = name_of(alloc, b"FALSE")?;
    let mut scope = make_scope(alloc)?;
    let is_false = number(scope.look(&constant)) == Some(0);
    let is_type = matches!(scope.look(&integer), Some(Decl::Kind(_)));
    scope.enter()?;
    import_variable(alloc, &mut scope, &integer)?;
    let is_hidden = matches!(
        scope.look(&integer),
        Some(Decl::Variable(_, Sort::Param(3)))
    );
    Ok(is_false && is_type && is_hidden)
}

/// Whether the interface has a name of these bytes.
fn is_shown(alloc: Global, exports: &Exports, name: &[u8]) -> Result<bool, Memory> {
    Ok(exported(exports, &name_of(alloc, name)?).is_some())
}

/// What a unit declared is shown, and what it imported isn't.
fn own_interface(alloc: Global) -> Result<bool, Memory> {
    let x = name_of(alloc, b"x")?;
    let unit = Shared::new(alloc, name_of(alloc, b"M")?)?;
    let mut scope = make_scope(alloc)?;
    scope.enter()?;
    import_variable(alloc, &mut scope, unit.get())?;
    let added = is_added(alloc, &mut scope, &x, 1)?;
    let exports = interface(alloc, &unit, &scope)?;
    Ok(added && exports.pairs.len() == 1 && is_shown(alloc, &exports, b"x")?)
}

/// The letter of a type that has no parts.
fn letter(kind: &DbType) -> u8 {
    match kind {
        DbType::Int => b'I',
        DbType::Card => b'N',
        DbType::Bool => b'B',
        DbType::Char => b'C',
        _ => b'?',
    }
}

/// Whether the name means the type of this letter.
fn is_type(alloc: Global, scope: &Scope, name: &[u8], kind: u8) -> Result<bool, Memory> {
    let name = name_of(alloc, name)?;
    Ok(match scope.look(&name) {
        Some(Decl::Kind(found)) => letter(found.get()) == kind,
        _ => false,
    })
}

/// Whether the name means this constant of BOOLEAN.
fn is_truth(alloc: Global, scope: &Scope, name: &[u8], number: i64) -> Result<bool, Memory> {
    let name = name_of(alloc, name)?;
    Ok(match scope.look(&name) {
        Some(Decl::Num(kind, found)) => letter(kind.get()) == b'B' && *found == number,
        _ => false,
    })
}

/// Whether the name means this standard procedure.
fn is_standard(
    alloc: Global,
    scope: &Scope,
    name: &[u8],
    procedure: StandardProcedure,
) -> Result<bool, Memory> {
    let name = name_of(alloc, name)?;
    Ok(match scope.look(&name) {
        Some(Decl::Standard(found)) => *found == procedure,
        _ => false,
    })
}

/// The types and the constants that every text knows.
fn standard_types(alloc: Global, scope: &Scope) -> Result<bool, Memory> {
    Ok(
        is_type(alloc, scope, b"INTEGER", b'I')?
            && is_type(alloc, scope, b"CARDINAL", b'N')?
            && is_type(alloc, scope, b"BOOLEAN", b'B')?
            && is_type(alloc, scope, b"CHAR", b'C')?
            && is_truth(alloc, scope, b"FALSE", 0)?
            && is_truth(alloc, scope, b"TRUE", 1)?,
    )
}

/// The procedures that every text knows.
fn standard_procedures(alloc: Global, scope: &Scope) -> Result<bool, Memory> {
    Ok(
        is_standard(alloc, scope, b"ABS", StandardProcedure::Abs)?
            && is_standard(alloc, scope, b"ODD", StandardProcedure::Odd)?
            && is_standard(alloc, scope, b"CAP", StandardProcedure::Cap)?
            && is_standard(alloc, scope, b"CHR", StandardProcedure::Chr)?
            && is_standard(alloc, scope, b"ORD", StandardProcedure::Ord)?
            && is_standard(alloc, scope, b"VAL", StandardProcedure::Val)?
            && is_standard(alloc, scope, b"MIN", StandardProcedure::Min)?
            && is_standard(alloc, scope, b"MAX", StandardProcedure::Max)?
            && is_standard(alloc, scope, b"CARD", StandardProcedure::Card)?
            && is_standard(alloc, scope, b"INC", StandardProcedure::Inc)?
            && is_standard(alloc, scope, b"DEC", StandardProcedure::Dec)?
            && is_standard(alloc, scope, b"HALT", StandardProcedure::Halt)?
            && is_standard(alloc, scope, b"ABORT", StandardProcedure::Abort)?,
    )
}

fn all_standard_names(alloc: Global) -> Result<bool, Memory> {
    let scope = make_scope(alloc)?;
    Ok(standard_types(alloc, &scope)? && standard_procedures(alloc, &scope)?)
}

/// A parameter in a row: its name, whether it is a VAR parameter, and the letter of its type.
type ParamRow<'a> = (&'a [u8], bool, u8);

fn is_param(param: &Param, row: &ParamRow) -> bool {
    let (name, by_ref, kind) = row;
    param.name.is(name) && param.by_ref == *by_ref && letter(param.kind.get()) == *kind
}

/// Whether it is the heading of a procedure of this name with these parameters, and no result.
fn is_heading(head: &Head, name: &[u8], rows: &[ParamRow]) -> bool {
    let params = head.params.as_slice();
    head.name.is(name)
        && !head.transaction
        && head.result.is_none()
        && params.len() == rows.len()
        && params
            .iter()
            .zip(rows)
            .all(|(param, row)| is_param(param, row))
}

/// The place of a procedure in the list of those of InOut.
fn place(procedure: InOutProcedure) -> u8 {
    match procedure {
        InOutProcedure::Read => 0,
        InOutProcedure::ReadInt => 1,
        InOutProcedure::ReadCard => 2,
        InOutProcedure::Write => 3,
        InOutProcedure::WriteLn => 4,
        InOutProcedure::WriteString => 5,
        InOutProcedure::WriteInt => 6,
        InOutProcedure::WriteCard => 7,
    }
}

/// Whether InOut shows the procedure of this place under this name, with these parameters.
fn has_procedure(
    alloc: Global,
    exports: &Exports,
    name: &[u8],
    number: u8,
    rows: &[ParamRow],
) -> Result<bool, Memory> {
    let word = name_of(alloc, name)?;
    Ok(match exported(exports, &word) {
        Some(Decl::InOut(procedure, Some(head))) => {
            place(*procedure) == number && is_heading(head.get(), name, rows)
        }
        _ => false,
    })
}

fn reading_procedures(alloc: Global, exports: &Exports) -> Result<bool, Memory> {
    Ok(
        has_procedure(alloc, exports, b"Read", 0, &[(b"c", true, b'C')])?
            && has_procedure(alloc, exports, b"ReadInt", 1, &[(b"x", true, b'I')])?
            && has_procedure(alloc, exports, b"ReadCard", 2, &[(b"x", true, b'N')])?,
    )
}

fn writing_procedures(alloc: Global, exports: &Exports) -> Result<bool, Memory> {
    let whole = [
        (b"x".as_slice(), false, b'I'),
        (b"n".as_slice(), false, b'N'),
    ];
    let natural = [
        (b"x".as_slice(), false, b'N'),
        (b"n".as_slice(), false, b'N'),
    ];
    Ok(
        has_procedure(alloc, exports, b"Write", 3, &[(b"c", false, b'C')])?
            && has_procedure(alloc, exports, b"WriteLn", 4, &[])?
            && has_procedure(alloc, exports, b"WriteInt", 6, &whole)?
            && has_procedure(alloc, exports, b"WriteCard", 7, &natural)?,
    )
}

/// WriteString has no heading.
fn has_write_string(alloc: Global, exports: &Exports) -> Result<bool, Memory> {
    let name = name_of(alloc, b"WriteString")?;
    Ok(match exported(exports, &name) {
        Some(Decl::InOut(procedure, None)) => place(*procedure) == 5,
        _ => false,
    })
}

fn has_done(alloc: Global, exports: &Exports) -> Result<bool, Memory> {
    let name = name_of(alloc, b"Done")?;
    Ok(match exported(exports, &name) {
        Some(Decl::Variable(kind, Sort::Done)) => letter(kind.get()) == b'B',
        _ => false,
    })
}

fn in_out_interface(alloc: Global) -> Result<bool, Memory> {
    let exports = in_out(alloc)?;
    let is_named = exports.module.get().is(b"InOut") && exports.pairs.len() == 9;
    Ok(
        is_named
            && reading_procedures(alloc, &exports)?
            && writing_procedures(alloc, &exports)?
            && has_write_string(alloc, &exports)?
            && has_done(alloc, &exports)?,
    )
}

fn word(alloc: Global) -> Result<Shared<Name>, Memory> {
    Shared::new(alloc, name_of(alloc, b"M")?)
}

fn number_type(alloc: Global) -> Result<Shared<DbType>, Memory> {
    Shared::new(alloc, DbType::Card)
}

/// The heading of a routine with one parameter.
fn heading(alloc: Global) -> Result<Shared<Head>, Memory> {
    let mut params = List::new(alloc);
    let kind = number_type(alloc)?;
    let name = name_of(alloc, b"x")?;
    params.push(Param {
        name,
        kind,
        by_ref: false,
    })?;
    let name = name_of(alloc, b"p")?;
    Shared::new(
        alloc,
        Head {
            name,
            transaction: false,
            params,
            result: None,
        },
    )
}

fn is_copied(decl: Decl) -> bool {
    copy_decl(&decl).is_ok()
}

fn is_sort_copied(sort: Sort) -> bool {
    copy_sort(&sort).is_ok()
}

/// Each declaration of a constant, a type or a variable is copied.
fn copies_values(alloc: Global) -> Result<bool, Memory> {
    Ok(
        is_copied(Decl::Num(number_type(alloc)?, 1))
            && is_copied(Decl::Whole(1))
            && is_copied(Decl::Text(word(alloc)?))
            && is_copied(Decl::Kind(number_type(alloc)?))
            && is_copied(Decl::Variable(number_type(alloc)?, Sort::Range))
            && is_copied(Decl::Unknown),
    )
}

fn copies_routine(alloc: Global) -> Result<bool, Memory> {
    let owner = word(alloc)?;
    Ok(is_copied(Decl::Routine(owner, heading(alloc)?)))
}

fn copies_selector(alloc: Global) -> Result<bool, Memory> {
    let owner = word(alloc)?;
    let head = heading(alloc)?;
    Ok(is_copied(Decl::Selector(owner, head, number_type(alloc)?, 1)))
}

fn copies_constructor(alloc: Global) -> Result<bool, Memory> {
    let owner = word(alloc)?;
    let head = heading(alloc)?;
    Ok(is_copied(Decl::Constructor(owner, head, number_type(alloc)?, 1)))
}

fn copies_known(alloc: Global) -> Result<bool, Memory> {
    let exports = Shared::new(alloc, in_out(alloc)?)?;
    Ok(
        is_copied(Decl::Unit(exports))
            && is_copied(Decl::Standard(StandardProcedure::Abs))
            && is_copied(Decl::InOut(InOutProcedure::Read, Some(heading(alloc)?)))
            && is_copied(Decl::InOut(InOutProcedure::WriteString, None)),
    )
}

fn copies_sorts(alloc: Global) -> Result<bool, Memory> {
    Ok(
        is_sort_copied(Sort::Global(word(alloc)?))
            && is_sort_copied(Sort::Persistent(word(alloc)?))
            && is_sort_copied(Sort::Local(1))
            && is_sort_copied(Sort::Param(1))
            && is_sort_copied(Sort::Range)
            && is_sort_copied(Sort::Done),
    )
}

fn declare(alloc: Global, scope: &mut Scope, name: &[u8], decl: Decl) -> Result<(), Memory> {
    let name = name_of(alloc, name)?;
    scope.add(alloc, &name, decl, Origin::Declared)
}

fn declare_variable(alloc: Global, scope: &mut Scope, unit: &Shared<Name>) -> Result<(), Memory> {
    let kind = number_type(alloc)?;
    let sort = Sort::Global(unit.share()?);
    declare(alloc, scope, b"v", Decl::Variable(kind, sort))
}

fn declare_routine(alloc: Global, scope: &mut Scope, unit: &Shared<Name>) -> Result<(), Memory> {
    let owner = unit.share()?;
    let head = heading(alloc)?;
    declare(alloc, scope, b"p", Decl::Routine(owner, head))
}

fn declare_all(alloc: Global, scope: &mut Scope, unit: &Shared<Name>) -> Result<(), Memory> {
    scope.enter()?;
    let kind = number_type(alloc)?;
    declare(alloc, scope, b"T", Decl::Kind(kind))?;
    declare_variable(alloc, scope, unit)?;
    declare_routine(alloc, scope, unit)
}

fn shows_all(alloc: Global, exports: &Exports) -> Result<bool, Memory> {
    Ok(
        exports.module.get().is(b"M")
            && exports.pairs.len() == 3
            && is_shown(alloc, exports, b"T")?
            && is_shown(alloc, exports, b"v")?
            && is_shown(alloc, exports, b"p")?,
    )
}

/// A unit shows the type, the variable and the routine that it declares.
fn whole_interface(alloc: Global) -> Result<bool, Memory> {
    let unit = word(alloc)?;
    let mut scope = make_scope(alloc)?;
    declare_all(alloc, &mut scope, &unit)?;
    let exports = interface(alloc, &unit, &scope)?;
    shows_all(alloc, &exports)
}

/// A parameter hides what has its name, and stands at the last level alone.
fn params_are_seen(alloc: Global) -> Result<bool, Memory> {
    let x = name_of(alloc, b"x")?;
    let head = heading(alloc)?;
    let mut scope = make_scope(alloc)?;
    scope.enter()?;
    scope.add_params(alloc, head.get())?;
    let is_param = matches!(scope.look(&x), Some(Decl::Variable(_, Sort::Param(0))));
    scope.leave();
    Ok(is_param && scope.look(&x).is_none())
}

/// A name for each number.
fn numbered(alloc: Global, number: u32) -> Result<Name, Memory> {
    name_of(alloc, number.to_be_bytes().as_slice())
}

fn declare_many(alloc: Global, scope: &mut Scope, count: u32) -> Result<(), Memory> {
    for n in 0..count {
        let name = numbered(alloc, n)?;
        scope.add(alloc, &name, Decl::Whole(i64::from(n)), Origin::Declared)?;
    }
    Ok(())
}

fn hide_many(alloc: Global, scope: &mut Scope, count: u32) -> Result<(), Memory> {
    for n in 0..count {
        let name = numbered(alloc, n)?;
        scope.add(alloc, &name, Decl::Unknown, Origin::Declared)?;
    }
    Ok(())
}

/// Whether each name means its number.
fn are_found(alloc: Global, scope: &Scope, count: u32) -> Result<bool, Memory> {
    for n in 0..count {
        let name = numbered(alloc, n)?;
        if number(scope.look(&name)) != Some(i64::from(n)) {
            return Ok(false);
        }
    }
    Ok(true)
}

/// Many names are declared, hidden at a further level, and found again when that is left.
fn many(alloc: Global, count: u32) -> Result<bool, Memory> {
    let mut scope = make_scope(alloc)?;
    scope.enter()?;
    declare_many(alloc, &mut scope, count)?;
    scope.enter()?;
    hide_many(alloc, &mut scope, count)?;
    let hidden = !are_found(alloc, &scope, 1)?;
    scope.leave();
    Ok(hidden && are_found(alloc, &scope, count)?)
}

#[test]
fn names_are_found(rt: HostRuntime) -> Result<(), Fail> {
    let alloc = rt.alloc();
    assert!(rt; levels(alloc)?);
    assert!(rt; standard_names(alloc)?);
    assert!(rt; own_interface(alloc)?);
    assert!(rt; all_standard_names(alloc)?);
    assert!(rt; in_out_interface(alloc)?);
    assert!(rt; copies_values(alloc)? && copies_routine(alloc)? && copies_selector(alloc)?);
    assert!(rt; copies_constructor(alloc)? && copies_known(alloc)? && copies_sorts(alloc)?);
    assert!(rt; whole_interface(alloc)?);
    assert!(rt; params_are_seen(alloc)?);
    assert!(rt; many(alloc, 100_000)?);
    Ok(())
}
