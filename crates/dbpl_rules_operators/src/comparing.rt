//! Comparisons.
ghost use Rattle.std.specs.Prelude.{◌≡◌, is_some, IfOk};
ghost use Rattle.dbpl_judging.specs.Checking.{noting};
ghost use Rattle.dbpl_judging.specs.Judgements.{of_both};
ghost use Rattle.dbpl_judging.specs.Judging.{Judges};
ghost use Rattle.dbpl_rules_operators.specs.Operators.{compared as judged, compared_as as comparison_of, compared_facts as judged_facts, compared_rules as judged_rules, compared_tree as tree_of, operand as operand_of, relation_rule as rule_of};

use crate::constants::reckoned_relation;
use crate::deciding::boolean;
use crate::fitting::{as_ordinal, as_type};
use crate::hosts::phrase_host;
use crate::reckoning::beside;
use crate::rules::may_compare;
use dbpl_base::{Boxed, Memory, Place};
use dbpl_core::{Comparison, CoreExpr, Relation};
use dbpl_judging::{Checker, Facts, Kind, Typed, both_of, boxed, kept, pair};
use std::alloc::Global;

fn relation_rule(relation: Relation) -> u16
    ensures { result ≡ rule_of relation }
{
    match relation {
        Relation::Equal | Relation::Unequal => 27,
        _ => 28,
    }
}

#[tactic(auto, unfolding(crate::specs::Operators::compared_rules))]
fn compared_rules(
    checker: &mut Checker,
    place: Place,
    relation: Relation,
    a: &Facts,
    b: &Facts,
) -> bool
    ensures answer { result ≡ is_some (judged_rules place relation a.now b.now).core }
    ensures noted { checker.new ≡ noting (judged_rules place relation a.now b.now).breaches checker.old }
{
    let comparable = may_compare(relation, &a.kind, &b.kind);
    let alike = checker.asks(relation_rule(relation), place, comparable);
    let beside = beside(checker, a, b);
    alike && beside
}

#[tactic(auto, unfolding(crate::specs::Operators::compared_facts))]
fn compared_facts(
    alloc: Global,
    checker: &mut Checker,
    place: Place,
    relation: Relation,
    a: &Facts,
    b: &Facts,
) -> Result<Option<Facts>, Memory>
    ensures { Judges (judged_facts place relation a.now b.now) result checker.old checker.new }
{
    if !compared_rules(checker, place, relation, a, b) {
        return Ok(None);
    }
    let number = reckoned_relation(relation, a.number, b.number);
    Ok(Some(boolean(alloc, a.place, number)?))
}

fn compared_as(one: &Kind, other: &Kind) -> Comparison
    ensures { result ≡ comparison_of one.now other.now }
{
    if phrase_host(one).is_other() || phrase_host(other).is_other() {
        Comparison::Values
    } else {
        Comparison::Numbers
    }
}

/// An operand beside one of this kind.
#[tactic(auto, unfolding(crate::specs::Operators::operand))]
fn operand(
    alloc: Global,
    kind: &Kind,
    facts: &Facts,
    tree: Boxed<CoreExpr>,
) -> Result<Boxed<CoreExpr>, Memory>
    ensures { IfOk result (λ made. made ≡ operand_of kind.now (record { facts = facts.now; tree = tree })) }
{
    match kind {
        Kind::Of(t) => as_type(alloc, t, facts, tree),
        _ => as_ordinal(alloc, facts, tree),
    }
}

/// Two operands, each beside the other.
fn operands(alloc: Global, a: Typed, b: Typed) -> Result<(Boxed<CoreExpr>, Boxed<CoreExpr>), Memory>
    ensures { IfOk result (λ both. (both.0 ≡ operand_of b.facts.kind a) × (both.1 ≡ operand_of a.facts.kind b)) }
{
    let Typed {
        facts: one,
        tree: left,
    } = a;
    let Typed {
        facts: other,
        tree: right,
    } = b;
    let (right, left) = pair(right, operand(alloc, &other.kind, &one, left))?;
    pair(left, operand(alloc, &one.kind, &other, right))
}

#[tactic(auto, unfolding(crate::specs::Operators::compared_tree))]
fn compared_tree(
    alloc: Global,
    place: Place,
    relation: Relation,
    a: Typed,
    b: Typed,
) -> Result<CoreExpr, Memory>
    ensures { IfOk result (λ tree. tree ≡ tree_of place relation a b) }
{
    let first = a.facts.place;
    let comparison = compared_as(&a.facts.kind, &b.facts.kind);
    let (left, right) = operands(alloc, a, b)?;
    Ok(CoreExpr::Compared(first, place, relation, comparison, left, right))
}

/// A relation, which stands at this place, between two operands.
#[tactic(auto, unfolding(crate::specs::Operators::compared))]
pub fn compared(
    alloc: Global,
    checker: &mut Checker,
    place: Place,
    relation: Relation,
    a: Option<Typed>,
    b: Option<Typed>,
) -> Result<Option<Typed>, Memory>
    ensures { Judges (of_both (judged place relation) a b) result checker.old checker.new }
{
    let Some((a, b)) = both_of(a, b) else {
        return Ok(None);
    };
    let facts = compared_facts(alloc, checker, place, relation, &a.facts, &b.facts);
    let Some(((a, b), facts)) = kept((a, b), facts)? else {
        return Ok(None);
    };
    let (facts, tree) = pair(facts, compared_tree(alloc, place, relation, a, b))?;
    let (facts, tree) = boxed(alloc, facts, tree)?;
    Ok(Some(Typed { facts, tree }))
}
