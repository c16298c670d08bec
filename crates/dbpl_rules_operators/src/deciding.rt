//! `AND`, `OR` and `NOT`.
ghost use Rattle.std.specs.Prelude.{◌≡◌, ◌&&◌, IfOk};
ghost use Rattle.dbpl_judging.specs.Judgements.{of, of_both};
ghost use Rattle.dbpl_judging.specs.Judging.{Judges};
ghost use Rattle.dbpl_rules_operators.specs.Operators.{boolean as boolean_of, logical as judged, logical_facts as judged_facts, negated as judged_not, negated_facts as judged_not_facts};
ghost use Rattle.dbpl_rules_operators.specs.Hosts.{host};
ghost use Rattle.dbpl_rules_operators.specs.Rules.{S26};

use crate::constants::{reckoned_logic, reckoned_not};
use crate::hosts::phrase_host;
use dbpl_base::{Memory, Place, Shared};
use dbpl_core::{CoreExpr, LogicalOperator};
use dbpl_judging::{Checker, Facts, Kind, Typed, both_of, boxed, kept};
use dbpl_value::DbType;
use std::alloc::Global;

/// What is known of a phrase that is TRUE or FALSE.
pub(crate) fn boolean(alloc: Global, place: Place, number: Option<i64>) -> Result<Facts, Memory>
    ensures { IfOk result (λ facts. facts ≡ boolean_of place number) }
{
    let kind = Kind::Of(Shared::new(alloc, DbType::Bool)?);
    Ok(Facts {
        place,
        kind,
        number,
    })
}

fn are_conditions(a: &Kind, b: &Kind) -> bool
    ensures { result ≡ (S26 (host a.now) && S26 (host b.now)) }
{
    phrase_host(a).is_boolean() && phrase_host(b).is_boolean()
}

#[tactic(auto, unfolding(crate::specs::Operators::logical_facts))]
fn logical_facts(
    alloc: Global,
    checker: &mut Checker,
    place: Place,
    operator: LogicalOperator,
    a: &Facts,
    b: &Facts,
) -> Result<Option<Facts>, Memory>
    ensures { Judges (judged_facts place operator a.now b.now) result checker.old checker.new }
{
    if !checker.asks(26, place, are_conditions(&a.kind, &b.kind)) {
        return Ok(None);
    }
    let number = reckoned_logic(operator, a.number, b.number);
    Ok(Some(boolean(alloc, a.place, number)?))
}

/// `AND` or `OR`, which stands at this place, between two operands.
#[tactic(auto, unfolding(crate::specs::Operators::logical))]
pub fn logical(
    alloc: Global,
    checker: &mut Checker,
    place: Place,
    operator: LogicalOperator,
    a: Option<Typed>,
    b: Option<Typed>,
) -> Result<Option<Typed>, Memory>
    ensures { Judges (of_both (judged place operator) a b) result checker.old checker.new }
{
    let Some((a, b)) = both_of(a, b) else {
        return Ok(None);
    };
    let facts = logical_facts(alloc, checker, place, operator, &a.facts, &b.facts);
    let Some(((a, b), facts)) = kept((a, b), facts)? else {
        return Ok(None);
    };
    let tree = CoreExpr::Logical(a.facts.place, operator, a.tree, b.tree);
    let (facts, tree) = boxed(alloc, facts, tree)?;
    Ok(Some(Typed { facts, tree }))
}

#[tactic(auto, unfolding(crate::specs::Operators::negated_facts))]
fn negated_facts(
    alloc: Global,
    checker: &mut Checker,
    place: Place,
    a: &Facts,
) -> Result<Option<Facts>, Memory>
    ensures { Judges (judged_not_facts place a.now) result checker.old checker.new }
{
    if !checker.asks(26, place, phrase_host(&a.kind).is_boolean()) {
        return Ok(None);
    }
    Ok(Some(boolean(alloc, place, reckoned_not(a.number))?))
}

/// `NOT`, which stands at this place, before an operand.
#[tactic(auto, unfolding(crate::specs::Operators::negated))]
pub fn negated(
    alloc: Global,
    checker: &mut Checker,
    place: Place,
    a: Option<Typed>,
) -> Result<Option<Typed>, Memory>
    ensures { Judges (of (judged_not place) a) result checker.old checker.new }
{
    let Some(a) = a else {
        return Ok(None);
    };
    let facts = negated_facts(alloc, checker, place, &a.facts);
    let Some((a, facts)) = kept(a, facts)? else {
        return Ok(None);
    };
    let (facts, tree) = boxed(alloc, facts, CoreExpr::Not(place, a.tree))?;
    Ok(Some(Typed { facts, tree }))
}
