//! Products over the standard names, with ample memory: what each resolves to, or its least breach.
ghost use Rattle.std.specs.Prelude.{◌≡◌, IfOk, None};
ghost use Rattle.dbpl_symbols.specs.Known.{IsKnown};

use crate::{RuleErr, check_expr};
use dbpl_base::{Boxed, List, Memory, Place, Shared, name_of};
use dbpl_core::{ArithmeticOperator, CoreExpr};
use dbpl_judging::{Checker, Setting, pair};
use dbpl_symbols::{first_names_are_known, make_scope};
use dbpl_tree::{
    ArgumentsOf, DesignatorOf, Expr, ExprOf, ExprsOf, Factor, Ident, MultipliedOf,
    MultiplyingOperator, Quantifier, Range, SignOperator, SimpleOf, TermOf,
};
use std::alloc::Global;

/// What stands on one side of an operator.
#[derive(Clone, Copy)]
enum Operand {
    Number(u64),
    /// `(-n)`
    Negative(u64),
    Name(&'static [u8]),
    /// `F(n)`
    OfNumber(&'static [u8], u64),
    /// `F(x)`
    OfName(&'static [u8], &'static [u8]),
    /// `SOME x IN r (1)`
    Quantified,
}

/// The column and the rule of the least breach, or the column of the operator of a product.
#[derive(Clone, Copy, PartialEq, Eq)]
enum Answer {
    Breaks(u32, u16),
    Product(u32),
    Nothing,
}

type Row = (Operand, MultiplyingOperator, Operand, Answer);

/// The left operand stands in column 2, the operator in 20, the right operand in 30, and what is in parentheses 5 behind them.
fn at(col: u32) -> Place {
    Place {
        unit: 0,
        line: 1,
        col,
    }
}

/// A checker over the standard names.
fn checker_of(alloc: Global) -> Result<Checker, Memory>
    ensures known { IfOk result (λ checker. IsKnown checker.setting.scope) }
    ensures first { IfOk result (λ checker. checker.least ≡ None) }
{
    first_names_are_known();
    let (scope, module) = pair(
        make_scope(alloc)?,
        Shared::new(alloc, name_of(alloc, b"M")?),
    )?;
    Ok(Checker::new(Setting {
        scope,
        module,
        heading: None,
        in_loop: false,
        has_relations: false,
    }))
}

/// A factor with a sign or without one.
fn alone(alloc: Global, col: u32, sign: Option<SignOperator>, first: Factor) -> Expr {
    let place = at(col);
    let first = TermOf {
        place,
        first,
        others: List::new(alloc),
    };
    let left = SimpleOf {
        place,
        sign,
        first,
        others: List::new(alloc),
    };
    ExprOf {
        place,
        left,
        right: None,
    }
}

fn designator(alloc: Global, col: u32, word: &[u8]) -> Result<DesignatorOf<Factor>, Memory> {
    let head = Ident {
        place: at(col),
        name: name_of(alloc, word)?,
    };
    Ok(DesignatorOf {
        head,
        parts: List::new(alloc),
    })
}

/// A call of one argument.
fn call(alloc: Global, col: u32, word: &[u8], argument: Factor) -> Result<Factor, Memory> {
    let first = Boxed::new(alloc, alone(alloc, col.saturating_add(5), None, argument))?;
    let exprs = Some(ExprsOf {
        first,
        others: List::new(alloc),
    });
    let a = ArgumentsOf {
        place: at(col),
        exprs,
    };
    let (a, d) = pair(Boxed::new(alloc, a)?, designator(alloc, col, word))?;
    Ok(Factor::Designator(d, Some(a)))
}

fn named(alloc: Global, col: u32, word: &[u8]) -> Result<Factor, Memory> {
    Ok(Factor::Designator(designator(alloc, col, word)?, None))
}

fn quantified(alloc: Global, col: u32) -> Result<Factor, Memory> {
    let range = Range::Designator(designator(alloc, col, b"r")?);
    let one = alone(alloc, col, None, Factor::Number(at(col), 1));
    let (range, one) = pair(Boxed::new(alloc, range)?, Boxed::new(alloc, one))?;
    let (parts, name) = pair((range, one), name_of(alloc, b"x"))?;
    let x = Ident {
        place: at(col),
        name,
    };
    Ok(Factor::Quantified(at(col), Quantifier::Exists, x, parts.0, parts.1))
}

fn factor(alloc: Global, col: u32, operand: Operand) -> Result<Factor, Memory> {
    let inner = col.saturating_add(5);
    match operand {
        Operand::Number(n) => Ok(Factor::Number(at(col), n)),
        Operand::Negative(n) => {
            let number = Factor::Number(at(inner), n);
            let e = alone(alloc, inner, Some(SignOperator::Minus), number);
            Ok(Factor::Parenthesized(at(col), Boxed::new(alloc, e)?))
        }
        Operand::Name(word) => named(alloc, col, word),
        Operand::OfNumber(word, n) => call(alloc, col, word, Factor::Number(at(inner), n)),
        Operand::OfName(word, x) => call(alloc, col, word, named(alloc, inner, x)?),
        Operand::Quantified => quantified(alloc, col),
    }
}

fn list_of<T: Drop>(alloc: Global, item: T) -> Result<List<T>, Memory> {
    let mut list = List::new(alloc);
    list.push(item)?;
    Ok(list)
}

fn product(
    alloc: Global,
    left: Operand,
    operator: MultiplyingOperator,
    right: Operand,
) -> Result<Expr, Memory> {
    let factor_behind = MultipliedOf {
        place: at(20),
        operator,
        factor: factor(alloc, 30, right)?,
    };
    let others = list_of(alloc, factor_behind)?;
    let (others, first) = pair(others, factor(alloc, 2, left))?;
    let place = at(2);
    let first = TermOf {
        place,
        first,
        others,
    };
    let left = SimpleOf {
        place,
        sign: None,
        first,
        others: List::new(alloc),
    };
    Ok(ExprOf {
        place,
        left,
        right: None,
    })
}

fn answer_of(checked: Result<CoreExpr, RuleErr>) -> Answer {
    match checked {
        Ok(CoreExpr::Arithmetic(_, place, ArithmeticOperator::Times, _, _, _)) => {
            Answer::Product(place.col)
        }
        Err(RuleErr::Breach(breach)) => Answer::Breaks(breach.place.col, breach.rule),
        _ => Answer::Nothing,
    }
}

fn answered(
    alloc: Global,
    left: Operand,
    operator: MultiplyingOperator,
    right: Operand,
) -> Result<Answer, Memory> {
    let (mut checker, e) = pair(checker_of(alloc)?, product(alloc, left, operator, right))?;
    Ok(answer_of(check_expr(alloc, &mut checker, &e)))
}

fn are_answered(alloc: Global, rows: &[Row]) -> Result<bool, Memory> {
    for (left, operator, right, wanted) in rows {
        if answered(alloc, *left, *operator, *right)? != *wanted {
            return Ok(false);
        }
    }
    Ok(true)
}

#[test]
fn expressions(rt: HostRuntime) -> Result<(), Memory> {
    let alloc = rt.alloc();
    let times = MultiplyingOperator::Times;
    let div = MultiplyingOperator::Div;
    let rows = [
        (
            Operand::Number(2),
            times,
            Operand::Number(3),
            Answer::Product(20),
        ),
        (
            Operand::OfName(b"MAX", b"INTEGER"),
            times,
            Operand::Negative(1),
            Answer::Product(20),
        ),
        (
            Operand::Number(1),
            times,
            Operand::Name(b"TRUE"),
            Answer::Breaks(20, 25),
        ),
        (
            Operand::Number(4_294_967_296),
            times,
            Operand::Name(b"TRUE"),
            Answer::Breaks(2, 13),
        ),
        (
            Operand::Name(b"TRUE"),
            times,
            Operand::Name(b"CARDINAL"),
            Answer::Breaks(30, 12),
        ),
        (
            Operand::Name(b"q"),
            times,
            Operand::OfNumber(b"CHR", 256),
            Answer::Breaks(2, 10),
        ),
        (
            Operand::Number(1),
            times,
            Operand::OfNumber(b"CHR", 256),
            Answer::Breaks(35, 40),
        ),
        (
            Operand::OfNumber(b"INC", 1),
            times,
            Operand::Number(1),
            Answer::Breaks(2, 39),
        ),
        (
            Operand::OfName(b"MIN", b"q"),
            div,
            Operand::Number(0),
            Answer::Breaks(7, 10),
        ),
        (
            Operand::Number(7),
            div,
            Operand::OfName(b"MIN", b"CARDINAL"),
            Answer::Breaks(20, 15),
        ),
        // The right operand breaks a rule where the text begins, in front of the left one, which is judged first.
        (
            Operand::Name(b"q"),
            times,
            Operand::Quantified,
            Answer::Breaks(1, 109),
        ),
    ];
    assert!(rt; are_answered(alloc, rows.as_slice())?);
    Ok(())
}
