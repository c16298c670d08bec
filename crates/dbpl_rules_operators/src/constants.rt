//! What is reckoned of constants.
ghost use Rattle.std.specs.Prelude.{◌≡◌, ◌+ℤ◌, ◌-ℤ◌, ◌*ℤ◌, neg_ℤ, Some};
ghost use Rattle.dbpl_rules_operators.specs.Constants.{computed as computed_of, decided as decided_of, reckoned as reckoned_of, reckoned_logic as logic_of, reckoned_not as not_of, reckoned_relation as relation_of, reckoned_sign as sign_of, related as related_of, truth as truth_of};
ghost use Rattle.dbpl_core.specs.declared.arithmetic_operator.ArithmeticOperator.TheVariants as operators;
ghost use Rattle.dbpl_rules_operators.specs.Rules.{lawful};

use dbpl_core::{ArithmeticOperator, LogicalOperator, Relation, Sign};

/// The least and the greatest whole constant.
const LEAST: i64 = -2_147_483_648;

const GREATEST: i64 = 4_294_967_295;

/// The constant, where it keeps the rule.
fn kept_constant(n: i64) -> Option<Option<i64>>
    ensures { result ≡ lawful (Some n) }
{
    if LEAST <= n && n <= GREATEST {
        Some(Some(n))
    } else {
        None
    }
}

fn sum(n: i64, other: i64) -> Option<Option<i64>>
    ensures { result ≡ lawful (Some (n +ℤ other)) }
{
    match n.checked_add(other) {
        Some(sum) => kept_constant(sum),
        None => None,
    }
}

fn difference(n: i64, other: i64) -> Option<Option<i64>>
    ensures { result ≡ lawful (Some (n -ℤ other)) }
{
    match n.checked_sub(other) {
        Some(difference) => kept_constant(difference),
        None => None,
    }
}

fn product(n: i64, other: i64) -> Option<Option<i64>>
    ensures { result ≡ lawful (Some (n *ℤ other)) }
{
    match n.checked_mul(other) {
        Some(product) => kept_constant(product),
        None => None,
    }
}

fn opposite(n: i64) -> Option<Option<i64>>
    ensures { result ≡ lawful (Some (neg_ℤ n)) }
{
    match n.checked_neg() {
        Some(opposite) => kept_constant(opposite),
        None => None,
    }
}

fn quotient(n: i64, other: i64) -> Option<Option<i64>>
    ensures { result ≡ lawful (computed_of operators.Div n other) }
{
    if other > 0 {
        kept_constant(n.div_euclid(other))
    } else {
        Some(None)
    }
}

fn remainder(n: i64, other: i64) -> Option<Option<i64>>
    ensures { result ≡ lawful (computed_of operators.Mod n other) }
{
    if other > 0 {
        kept_constant(n.rem_euclid(other))
    } else {
        Some(None)
    }
}

fn computed(operator: ArithmeticOperator, n: i64, other: i64) -> Option<Option<i64>>
    ensures { result ≡ lawful (computed_of operator n other) }
{
    match operator {
        ArithmeticOperator::Plus => sum(n, other),
        ArithmeticOperator::Minus => difference(n, other),
        ArithmeticOperator::Times => product(n, other),
        ArithmeticOperator::Div => quotient(n, other),
        ArithmeticOperator::Mod => remainder(n, other),
    }
}

/// What an operator makes of constants, where that keeps the rule on whole constants.
pub(crate) fn reckoned(
    operator: ArithmeticOperator,
    a: Option<i64>,
    b: Option<i64>,
) -> Option<Option<i64>>
    ensures { result ≡ lawful (reckoned_of operator a b) }
{
    match (a, b) {
        (Some(n), Some(other)) => computed(operator, n, other),
        _ => Some(None),
    }
}

/// What a sign makes of a constant, where that keeps the rule on whole constants.
pub(crate) fn reckoned_sign(sign: Sign, a: Option<i64>) -> Option<Option<i64>>
    ensures { result ≡ lawful (sign_of sign a) }
{
    match (a, sign) {
        (Some(n), Sign::Plus) => kept_constant(n),
        (Some(n), Sign::Minus) => opposite(n),
        (None, _) => Some(None),
    }
}

fn truth(holds: bool) -> i64
    ensures { result ≡ truth_of holds }
{
    if holds { 1 } else { 0 }
}

fn decided(operator: LogicalOperator, p: i64, q: i64) -> i64
    ensures { result ≡ decided_of operator p q }
{
    match operator {
        LogicalOperator::And => truth(p == 1 && q == 1),
        LogicalOperator::Or => truth(p == 1 || q == 1),
    }
}

pub(crate) fn reckoned_logic(
    operator: LogicalOperator,
    a: Option<i64>,
    b: Option<i64>,
) -> Option<i64>
    ensures { result ≡ logic_of operator a b }
{
    match (a, b) {
        (Some(p), Some(q)) => Some(decided(operator, p, q)),
        _ => None,
    }
}

pub(crate) fn reckoned_not(a: Option<i64>) -> Option<i64>
    ensures { result ≡ not_of a }
{
    match a {
        Some(p) => Some(truth(p != 1)),
        None => None,
    }
}

fn related(relation: Relation, n: i64, other: i64) -> bool
    ensures { result ≡ related_of relation n other }
{
    match relation {
        Relation::Equal => n == other,
        Relation::Unequal => n != other,
        Relation::Less => n < other,
        Relation::LessEqual => n <= other,
        Relation::Greater => n > other,
        Relation::GreaterEqual => n >= other,
    }
}

pub(crate) fn reckoned_relation(relation: Relation, a: Option<i64>, b: Option<i64>) -> Option<i64>
    ensures { result ≡ relation_of relation a b }
{
    match (a, b) {
        (Some(n), Some(other)) => Some(truth(related(relation, n, other))),
        _ => None,
    }
}
