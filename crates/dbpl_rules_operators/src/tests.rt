//! Operators between operands of each sort, and strings as values of a type, with ample memory.
use crate::{
    Host, arithmetic, character, compared, fitted, logical, negated, number, ordinal_constant,
    phrase_host, signed, text, whole_constant,
};
use dbpl_base::{Boxed, Memory, Place, Shared, name_of};
use dbpl_core::{ArithmeticOperator, CoreExpr, LogicalOperator, Relation, Sign};
use dbpl_judging::{Checker, Facts, Kind, Setting, Typed, pair};
use dbpl_symbols::make_scope;
use dbpl_value::DbType;
use std::alloc::Global;

/// What stands on one side of an operator: a literal, a constant, or a variable of a type.
#[derive(Clone, Copy)]
enum Operand {
    Number(u64),
    Code(u64),
    /// The first so many of `abcd`, as a string.
    Text(usize),
    Whole(i64),
    Truth(i64),
    Cardinal,
    Integer,
    Boolean,
    /// ARRAY ['a' .. 'c'] OF CHAR
    Chars,
}

/// An operator, which stands before the right one of two operands where it takes one alone.
#[derive(Clone, Copy)]
enum Operator {
    Arithmetic(ArithmeticOperator),
    Compared(Relation),
    Logical(LogicalOperator),
    Signed(Sign),
    Negated,
}

/// The column and the rule of the least breach, or the host and the number of what an operator makes.
#[derive(Clone, Copy, PartialEq, Eq)]
enum Answer {
    Breaks(u32, u16),
    Makes(Host, Option<i64>),
    Nothing,
}

type Row = (Operand, Operator, Operand, Answer);

fn checker_of(alloc: Global) -> Result<Checker, Memory> {
    let (scope, module) = pair(
        make_scope(alloc)?,
        Shared::new(alloc, name_of(alloc, b"M")?),
    )?;
    Ok(Checker::new(Setting {
        scope,
        module,
        heading: None,
        in_loop: false,
        has_relations: false,
    }))
}

/// The left operand stands in column 1, the operator in 3, the right operand in 5.
fn at(col: u32) -> Place {
    Place {
        unit: 0,
        line: 1,
        col,
    }
}

fn chars(alloc: Global) -> Result<DbType, Memory> {
    let host = Boxed::new(alloc, DbType::Char)?;
    let index = Boxed::new(alloc, DbType::Sub(host, 97, 99));
    let (element, index) = pair(Boxed::new(alloc, DbType::Char)?, index)?;
    Ok(DbType::Arr(index, element))
}

fn variable(alloc: Global, col: u32, t: Result<DbType, Memory>) -> Result<Typed, Memory> {
    let facts = Facts {
        place: at(col),
        kind: Kind::Of(Shared::new(alloc, t?)?),
        number: None,
    };
    let (facts, tree) = pair(facts, Boxed::new(alloc, CoreExpr::Number(at(col), 0)))?;
    Ok(Typed { facts, tree })
}

fn string(
    alloc: Global,
    checker: &mut Checker,
    col: u32,
    length: usize,
) -> Result<Option<Typed>, Memory> {
    let bytes = name_of(alloc, b"abcd".split_at(length.min(4)).0)?;
    text(alloc, checker, at(col), &bytes)
}

fn constant(alloc: Global, col: u32, operand: Operand) -> Result<Typed, Memory> {
    match operand {
        Operand::Whole(n) => whole_constant(alloc, at(col), n),
        Operand::Truth(n) => {
            ordinal_constant(alloc, Shared::new(alloc, DbType::Bool)?, at(col), n)
        }
        Operand::Cardinal => variable(alloc, col, Ok(DbType::Card)),
        Operand::Integer => variable(alloc, col, Ok(DbType::Int)),
        Operand::Chars => variable(alloc, col, chars(alloc)),
        _ => variable(alloc, col, Ok(DbType::Bool)),
    }
}

fn operand_at(
    alloc: Global,
    checker: &mut Checker,
    col: u32,
    operand: Operand,
) -> Result<Option<Typed>, Memory> {
    match operand {
        Operand::Number(n) => number(alloc, checker, at(col), n),
        Operand::Code(code) => character(alloc, checker, at(col), code),
        Operand::Text(length) => string(alloc, checker, col, length),
        _ => Ok(Some(constant(alloc, col, operand)?)),
    }
}

fn made(
    alloc: Global,
    checker: &mut Checker,
    operator: Operator,
    a: Option<Typed>,
    b: Option<Typed>,
) -> Result<Option<Typed>, Memory> {
    match operator {
        Operator::Arithmetic(operator) => arithmetic(alloc, checker, at(3), operator, a, b),
        Operator::Compared(relation) => compared(alloc, checker, at(3), relation, a, b),
        Operator::Logical(operator) => logical(alloc, checker, at(3), operator, a, b),
        Operator::Signed(sign) => signed(alloc, checker, at(3), sign, b),
        Operator::Negated => negated(alloc, checker, at(3), b),
    }
}

fn answer_of(checker: &Checker, e: Option<Typed>) -> Answer {
    match (checker.least(), e) {
        (Some(least), None) => Answer::Breaks(least.place.col, least.rule),
        (None, Some(e)) => Answer::Makes(phrase_host(&e.facts.kind), e.facts.number),
        _ => Answer::Nothing,
    }
}

fn answered(
    alloc: Global,
    checker: &mut Checker,
    left: Operand,
    operator: Operator,
    right: Operand,
) -> Result<Answer, Memory> {
    let a = operand_at(alloc, checker, 1, left)?;
    let (a, b) = pair(a, operand_at(alloc, checker, 5, right))?;
    let e = made(alloc, checker, operator, a, b)?;
    Ok(answer_of(checker, e))
}

fn are_answered(alloc: Global, rows: &[Row]) -> Result<bool, Memory> {
    for (left, operator, right, wanted) in rows {
        let mut checker = checker_of(alloc)?;
        if answered(alloc, &mut checker, *left, *operator, *right)? != *wanted {
            return Ok(false);
        }
    }
    Ok(true)
}

/// Whether a phrase has a test of fit where a value of the type is asked for.
fn is_tested(alloc: Global, t: &Shared<DbType>, e: Option<Typed>) -> Result<bool, Memory> {
    match e {
        Some(Typed { facts, tree }) => {
            let tree = fitted(alloc, t, &facts, tree)?;
            Ok(matches!(tree.get(), CoreExpr::Fitted(_, _, _)))
        }
        None => Ok(false),
    }
}

/// Whether a string of so many characters has a test of fit where a value of the type is asked for.
fn is_string_tested(alloc: Global, length: usize, t: DbType) -> Result<bool, Memory> {
    let (t, mut checker) = pair(Shared::new(alloc, t)?, checker_of(alloc))?;
    let e = string(alloc, &mut checker, 1, length)?;
    is_tested(alloc, &t, e)
}

#[test]
fn operators(rt: HostRuntime) -> Result<(), Memory> {
    let alloc = rt.alloc();
    let plus = Operator::Arithmetic(ArithmeticOperator::Plus);
    let div = Operator::Arithmetic(ArithmeticOperator::Div);
    let less = Operator::Compared(Relation::Less);
    let equal = Operator::Compared(Relation::Equal);
    let and = Operator::Logical(LogicalOperator::And);
    let minus = Operator::Signed(Sign::Minus);
    let not = Operator::Negated;
    let rows = [
        (
            Operand::Number(1),
            plus,
            Operand::Truth(1),
            Answer::Breaks(3, 25),
        ),
        (
            Operand::Cardinal,
            plus,
            Operand::Integer,
            Answer::Breaks(3, 25),
        ),
        (
            Operand::Cardinal,
            plus,
            Operand::Whole(-1),
            Answer::Breaks(5, 29),
        ),
        (
            Operand::Cardinal,
            div,
            Operand::Whole(-1),
            Answer::Breaks(3, 15),
        ),
        (
            Operand::Boolean,
            div,
            Operand::Number(0),
            Answer::Breaks(3, 25),
        ),
        (
            Operand::Number(4_294_967_295),
            plus,
            Operand::Number(1),
            Answer::Breaks(3, 15),
        ),
        (
            Operand::Number(4_294_967_296),
            plus,
            Operand::Truth(1),
            Answer::Breaks(1, 13),
        ),
        (
            Operand::Whole(-7),
            div,
            Operand::Number(2),
            Answer::Makes(Host::Whole, Some(-4)),
        ),
        (
            Operand::Number(2),
            plus,
            Operand::Integer,
            Answer::Makes(Host::Integer, None),
        ),
        (
            Operand::Truth(1),
            minus,
            Operand::Number(4_294_967_295),
            Answer::Breaks(3, 15),
        ),
        (
            Operand::Truth(1),
            minus,
            Operand::Cardinal,
            Answer::Breaks(3, 30),
        ),
        (
            Operand::Truth(1),
            minus,
            Operand::Integer,
            Answer::Makes(Host::Integer, None),
        ),
        (
            Operand::Cardinal,
            and,
            Operand::Boolean,
            Answer::Breaks(3, 26),
        ),
        (
            Operand::Truth(1),
            and,
            Operand::Truth(0),
            Answer::Makes(Host::Boolean, Some(0)),
        ),
        (
            Operand::Truth(1),
            not,
            Operand::Number(1),
            Answer::Breaks(3, 26),
        ),
        (
            Operand::Truth(1),
            not,
            Operand::Truth(1),
            Answer::Makes(Host::Boolean, Some(0)),
        ),
        (
            Operand::Text(1),
            equal,
            Operand::Code(98),
            Answer::Makes(Host::Boolean, Some(0)),
        ),
        (
            Operand::Text(1),
            equal,
            Operand::Code(256),
            Answer::Breaks(5, 13),
        ),
        (
            Operand::Text(2),
            equal,
            Operand::Text(2),
            Answer::Breaks(3, 27),
        ),
        (
            Operand::Chars,
            equal,
            Operand::Text(4),
            Answer::Breaks(3, 27),
        ),
        (
            Operand::Text(2),
            less,
            Operand::Chars,
            Answer::Makes(Host::Boolean, None),
        ),
        (
            Operand::Boolean,
            less,
            Operand::Number(1),
            Answer::Breaks(3, 28),
        ),
    ];
    assert!(rt; are_answered(alloc, rows.as_slice())?);
    assert!(rt; is_string_tested(alloc, 1, DbType::Char)?);
    assert!(rt; !is_string_tested(alloc, 3, chars(alloc)?)?);
    Ok(())
}
