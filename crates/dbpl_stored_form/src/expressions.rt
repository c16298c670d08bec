//! Expressions that are one factor and nothing else.
ghost use Rattle.std.specs.Prelude.{◌≡◌};
ghost use Rattle.std.specs.Option.{option_copied};
ghost use Rattle.dbpl_stored_form.specs.Statements as spec;
ghost use Rattle.dbpl_tree.specs.declared.element.Element.{out-Element};
ghost use Rattle.dbpl_tree.specs.declared.factor.Factor.{out-Factor};

use crate::names::is_plain;
use dbpl_tree::{Aggregate, Element, Expr, Factor, is_factor};

fn number_in(factor: &Factor) -> Option<u64>
    ensures { result ≡ spec.literal_level (out-Factor factor.now) }
{
    match factor {
        Factor::Number(_, number) => Some(*number),
        _ => None,
    }
}

fn aggregate_in(factor: &Factor) -> Option<&Aggregate>
    ensures { option_copied result ≡ spec.plain_aggregate (out-Factor factor.now) }
{
    match factor {
        Factor::Aggregate(aggregate) => Some(aggregate.get()),
        _ => None,
    }
}

/// The number that the expression is.
pub(crate) fn number_of(expr: &Expr) -> Option<u64>
    ensures { result ≡ spec.literal_of expr.now }
{
    if is_factor(expr) {
        number_in(&expr.left.first.first)
    } else {
        None
    }
}

fn aggregate_of(expr: &Expr) -> Option<&Aggregate>
    ensures { option_copied result ≡ spec.aggregate_of expr.now }
{
    if is_factor(expr) {
        aggregate_in(&expr.left.first.first)
    } else {
        None
    }
}

/// The aggregate with this name of its type that the expression is.
pub(crate) fn aggregate_named<'a>(expr: &'a Expr, name: &[u8]) -> Option<&'a Aggregate>
    ensures { option_copied result ≡ spec.aggregate_named name.now expr.now }
{
    match aggregate_of(expr) {
        Some(aggregate) if is_plain(&aggregate.kind, name) => Some(aggregate),
        _ => None,
    }
}

/// The expression that the element is.
pub(crate) fn plain_of(element: &Element) -> Option<&Expr>
    ensures { option_copied result ≡ spec.plain_of element.now }
{
    match element {
        Element::Plain(expr) => Some(expr),
        _ => None,
    }
}
