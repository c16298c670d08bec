//! Signs.
ghost use Rattle.dbpl_judging.specs.Judgements.{of};
ghost use Rattle.dbpl_judging.specs.Judging.{Judges};
ghost use Rattle.dbpl_rules_operators.specs.Operators.{signed as judged, signed_facts as judged_facts};

use crate::constants::reckoned_sign;
use crate::hosts::phrase_host;
use crate::rules::takes_sign;
use dbpl_base::{Memory, Place};
use dbpl_core::{CoreExpr, Sign};
use dbpl_judging::{Checker, Facts, Typed, boxed, kept};
use std::alloc::Global;

#[tactic(auto, unfolding(crate::specs::Operators::signed_facts))]
fn signed_facts(
    alloc: Global,
    checker: &mut Checker,
    place: Place,
    sign: Sign,
    a: &Facts,
) -> Result<Option<Facts>, Memory>
    ensures { Judges (judged_facts place sign a.now) result checker.old checker.new }
{
    let host = phrase_host(&a.kind);
    if !checker.asks(30, place, takes_sign(host)) {
        return Ok(None);
    }
    let Some(number) = reckoned_sign(sign, a.number) else {
        checker.breaks(15, place);
        return Ok(None);
    };
    let kind = host.whole_kind(alloc)?;
    Ok(Some(Facts {
        place,
        kind,
        number,
    }))
}

/// A sign, which stands at this place, before an operand.
#[tactic(auto, unfolding(crate::specs::Operators::signed))]
pub fn signed(
    alloc: Global,
    checker: &mut Checker,
    place: Place,
    sign: Sign,
    a: Option<Typed>,
) -> Result<Option<Typed>, Memory>
    ensures { Judges (of (judged place sign) a) result checker.old checker.new }
{
    let Some(a) = a else {
        return Ok(None);
    };
    let facts = signed_facts(alloc, checker, place, sign, &a.facts);
    let Some((a, facts)) = kept(a, facts)? else {
        return Ok(None);
    };
    let host = phrase_host(&a.facts.kind).result_host();
    let (facts, tree) = boxed(alloc, facts, CoreExpr::Signed(place, sign, host, a.tree))?;
    Ok(Some(Typed { facts, tree }))
}
