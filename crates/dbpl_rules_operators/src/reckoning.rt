//! `+`, `-`, `*`, `DIV` and `MOD`.
ghost use Rattle.std.specs.Prelude.{◌≡◌, is_some};
ghost use Rattle.dbpl_judging.specs.Checking.{noting};
ghost use Rattle.dbpl_judging.specs.Judgements.{of_both};
ghost use Rattle.dbpl_judging.specs.Judging.{Judges};
ghost use Rattle.dbpl_rules_operators.specs.Operators.{arithmetic as judged, arithmetic_facts as judged_facts, arithmetic_rules as judged_rules, beside as judged_beside};

use crate::constants::reckoned;
use crate::hosts::phrase_host;
use crate::rules::{lies_beside, may_divide, may_reckon};
use dbpl_base::{Memory, Place};
use dbpl_core::{ArithmeticOperator, CoreExpr};
use dbpl_judging::{Checker, Facts, Typed, both_of, boxed, kept};
use std::alloc::Global;

/// Two operands, each beside the other.
#[tactic(auto, unfolding(crate::specs::Operators::beside))]
pub(crate) fn beside(checker: &mut Checker, a: &Facts, b: &Facts) -> bool
    ensures answer { result ≡ is_some (judged_beside a.now b.now).core }
    ensures noted { checker.new ≡ noting (judged_beside a.now b.now).breaches checker.old }
{
    let first = checker.asks(29, a.place, lies_beside(a, phrase_host(&b.kind)));
    let second = checker.asks(29, b.place, lies_beside(b, phrase_host(&a.kind)));
    first && second
}

#[tactic(auto, unfolding(crate::specs::Operators::arithmetic_rules))]
fn arithmetic_rules(
    checker: &mut Checker,
    place: Place,
    operator: ArithmeticOperator,
    a: &Facts,
    b: &Facts,
) -> bool
    ensures answer { result ≡ is_some (judged_rules place operator a.now b.now).core }
    ensures noted { checker.new ≡ noting (judged_rules place operator a.now b.now).breaches checker.old }
{
    let one = phrase_host(&a.kind);
    let other = phrase_host(&b.kind);
    let alike = checker.asks(25, place, may_reckon(one, other));
    let divides = checker.asks(15, place, may_divide(operator, one, other, b.number));
    let beside = beside(checker, a, b);
    alike && divides && beside
}

#[tactic(auto, unfolding(crate::specs::Operators::arithmetic_facts))]
fn arithmetic_facts(
    alloc: Global,
    checker: &mut Checker,
    place: Place,
    operator: ArithmeticOperator,
    a: &Facts,
    b: &Facts,
) -> Result<Option<Facts>, Memory>
    ensures { Judges (judged_facts place operator a.now b.now) result checker.old checker.new }
{
    if !arithmetic_rules(checker, place, operator, a, b) {
        return Ok(None);
    }
    let Some(number) = reckoned(operator, a.number, b.number) else {
        checker.breaks(15, place);
        return Ok(None);
    };
    let host = phrase_host(&a.kind).joined(phrase_host(&b.kind));
    let kind = host.whole_kind(alloc)?;
    Ok(Some(Facts {
        place: a.place,
        kind,
        number,
    }))
}

/// An arithmetic operator, which stands at this place, between two operands.
#[tactic(auto, unfolding(crate::specs::Operators::arithmetic))]
pub fn arithmetic(
    alloc: Global,
    checker: &mut Checker,
    place: Place,
    operator: ArithmeticOperator,
    a: Option<Typed>,
    b: Option<Typed>,
) -> Result<Option<Typed>, Memory>
    ensures { Judges (of_both (judged place operator) a b) result checker.old checker.new }
{
    let Some((a, b)) = both_of(a, b) else {
        return Ok(None);
    };
    let facts = arithmetic_facts(alloc, checker, place, operator, &a.facts, &b.facts);
    let Some(((a, b), facts)) = kept((a, b), facts)? else {
        return Ok(None);
    };
    let host = phrase_host(&a.facts.kind).joined(phrase_host(&b.facts.kind));
    let tree = CoreExpr::Arithmetic(
        a.facts.place,
        place,
        operator,
        host.result_host(),
        a.tree,
        b.tree,
    );
    let (facts, tree) = boxed(alloc, facts, tree)?;
    Ok(Some(Typed { facts, tree }))
}
