//! Which operator a spelling is.
ghost use Rattle.std.specs.Prelude.{◌≡◌, option_map};
ghost use Rattle.dbpl_judging.specs.Judgements.{of_both};
ghost use Rattle.dbpl_judging.specs.Judging.{Judges};
ghost use Rattle.dbpl_rules_expr.specs.Productions.{multiplied as judged_product, placed as placed_at, relation_of as relation_meant, sign_of as sign_meant, summed as judged_sum};

use dbpl_base::{Memory, Place};
use dbpl_core::{ArithmeticOperator, LogicalOperator, Relation as CoreRelation, Sign};
use dbpl_judging::{Checker, Facts, Typed};
use dbpl_rules_operators::{arithmetic, logical};
use dbpl_tree::{AddingOperator, MultiplyingOperator, Relation, SignOperator};
use std::alloc::Global;

/// Two factors with this operator between them, which stands at this place.
pub(crate) fn multiplied(
    alloc: Global,
    checker: &mut Checker,
    place: Place,
    operator: MultiplyingOperator,
    a: Option<Typed>,
    b: Option<Typed>,
) -> Result<Option<Typed>, Memory>
    ensures { Judges (of_both (judged_product place operator) a b) result checker.old checker.new }
{
    match operator {
        MultiplyingOperator::Times => {
            arithmetic(alloc, checker, place, ArithmeticOperator::Times, a, b)
        }
        MultiplyingOperator::Div => {
            arithmetic(alloc, checker, place, ArithmeticOperator::Div, a, b)
        }
        MultiplyingOperator::Mod => {
            arithmetic(alloc, checker, place, ArithmeticOperator::Mod, a, b)
        }
        MultiplyingOperator::And | MultiplyingOperator::Ampersand => {
            logical(alloc, checker, place, LogicalOperator::And, a, b)
        }
    }
}

/// Two terms with this operator between them, which stands at this place.
pub(crate) fn summed(
    alloc: Global,
    checker: &mut Checker,
    place: Place,
    operator: AddingOperator,
    a: Option<Typed>,
    b: Option<Typed>,
) -> Result<Option<Typed>, Memory>
    ensures { Judges (of_both (judged_sum place operator) a b) result checker.old checker.new }
{
    match operator {
        AddingOperator::Plus => arithmetic(alloc, checker, place, ArithmeticOperator::Plus, a, b),
        AddingOperator::Minus => arithmetic(alloc, checker, place, ArithmeticOperator::Minus, a, b),
        AddingOperator::Or => logical(alloc, checker, place, LogicalOperator::Or, a, b),
    }
}

pub(crate) fn sign_of(sign: SignOperator) -> Sign
    ensures { result ≡ sign_meant sign }
{
    match sign {
        SignOperator::Plus => Sign::Plus,
        SignOperator::Minus => Sign::Minus,
    }
}

pub(crate) fn relation_of(relation: Relation) -> CoreRelation
    ensures { result ≡ relation_meant relation }
{
    match relation {
        Relation::Equal => CoreRelation::Equal,
        Relation::Hash | Relation::Unequal => CoreRelation::Unequal,
        Relation::Less => CoreRelation::Less,
        Relation::LessEqual => CoreRelation::LessEqual,
        Relation::Greater => CoreRelation::Greater,
        Relation::GreaterEqual => CoreRelation::GreaterEqual,
    }
}

/// A phrase that begins at this place, where its parenthesis stands.
pub(crate) fn placed(place: Place, e: Option<Typed>) -> Option<Typed>
    ensures { result ≡ option_map (placed_at place) e }
{
    match e {
        Some(e) => {
            let facts = Facts {
                place,
                kind: e.facts.kind,
                number: e.facts.number,
            };
            Some(Typed {
                facts,
                tree: e.tree,
            })
        }
        None => None,
    }
}
