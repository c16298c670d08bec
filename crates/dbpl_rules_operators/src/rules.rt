//! The tests of the rules of operators, by their definitions' numbers.
ghost use Rattle.std.specs.Prelude.{◌≡◌};
ghost use Rattle.dbpl_rules_operators.specs.Operators.{may_compare as may_be_compared};
ghost use Rattle.dbpl_rules_operators.specs.Rules.{S15_divisor, S25, S27, S28, S29, S30, is_ordered as is_kind_ordered};

use crate::Host;
use crate::fitting::{lies_in, takes_kind};
use dbpl_core::{ArithmeticOperator, Relation};
use dbpl_judging::{Facts, Kind};
use dbpl_value::{DbType, is_char_array, range_of};

/// S15, of a divisor.
pub(crate) fn may_divide(
    operator: ArithmeticOperator,
    one: Host,
    other: Host,
    divisor: Option<i64>,
) -> bool
    ensures { result ≡ S15_divisor operator one other divisor }
{
    match (operator, divisor) {
        (ArithmeticOperator::Div | ArithmeticOperator::Mod, Some(n)) => {
            !(one.is_whole() && other.is_whole()) || n > 0
        }
        _ => true,
    }
}

/// S25
pub(crate) fn may_reckon(one: Host, other: Host) -> bool
    ensures { result ≡ S25 one other }
{
    match (one, other) {
        (Host::Whole, other) => other.is_whole(),
        (one, Host::Whole) => one.is_whole(),
        (Host::Integer, Host::Integer) | (Host::Cardinal, Host::Cardinal) => true,
        _ => false,
    }
}

/// S27
pub(crate) fn are_alike(one: &Kind, other: &Kind) -> bool
    ensures { result ≡ S27 one.now other.now }
{
    match (one, other) {
        (Kind::Of(t), other) => takes_kind(t.get(), other),
        (one, Kind::Of(t)) => takes_kind(t.get(), one),
        (Kind::Whole, Kind::Whole) => true,
        (Kind::Text(length, _), Kind::Text(other, _)) => *length == 1 && *other == 1,
        _ => false,
    }
}

fn is_ordered(kind: &Kind) -> bool
    ensures { result ≡ is_kind_ordered kind.now }
{
    match kind {
        Kind::Whole | Kind::Text(_, _) => true,
        Kind::Of(t) => range_of(t.get()).is_some() || is_char_array(t.get()),
    }
}

/// S28
fn are_ordered(one: &Kind, other: &Kind) -> bool
    ensures { result ≡ S28 one.now other.now }
{
    are_alike(one, other) && is_ordered(one) && is_ordered(other)
}

/// S27 and S28
pub(crate) fn may_compare(relation: Relation, one: &Kind, other: &Kind) -> bool
    ensures { result ≡ may_be_compared relation one.now other.now }
{
    match relation {
        Relation::Equal | Relation::Unequal => are_alike(one, other),
        _ => are_ordered(one, other),
    }
}

/// S29
pub(crate) fn lies_beside(facts: &Facts, other: Host) -> bool
    ensures { result ≡ S29 facts.now other }
{
    match (&facts.kind, other) {
        (Kind::Whole, Host::Integer) => lies_in(&DbType::Int, facts.number),
        (Kind::Whole, Host::Cardinal) => lies_in(&DbType::Card, facts.number),
        _ => true,
    }
}

/// S30
pub(crate) fn takes_sign(host: Host) -> bool
    ensures { result ≡ S30 host }
{
    matches!(host, Host::Whole | Host::Integer)
}
