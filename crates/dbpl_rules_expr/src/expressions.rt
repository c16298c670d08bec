//! Expressions, factors, aggregates and elements, which stand inside one another. Each function judges the parts of a phrase and
//! hands them on.
ghost use Rattle.dbpl_judging.specs.Judgements.{each, each_at, good, of};
ghost use Rattle.dbpl_judging.specs.Judging.{Judges};
ghost use Rattle.dbpl_rules_expr.specs.Designators.{kind_behind as type_behind};
ghost use Rattle.dbpl_rules_expr.specs.Expressions.{alone_judged, argument_at, argument_judged, call_judged, callee_judged, changed_judged, element_opened, elements_judged, exprs_judged, factor_opened, factor_value, first_judged, indices_judged, judge_aggregate as aggregate_judged, judge_element as element_judged, judge_expr as expr_judged, kind_given, kind_judged, negated_judged, nothing_given, operand_judged, parenthesized_judged, part_judged, parts_judged, simple_judged, target_given, target_judged, term_judged, unasked_judged, variable_given, variable_judged, whole_judged};
ghost use Rattle.dbpl_rules_expr.specs.Reaching.{Reaches, reach};
ghost use Rattle.dbpl_tree.specs.Plain.{arguments_in, exprs_in};

use crate::Reached;
use crate::aggregates::{counted_kind, packed};
use crate::designators::{
    CoreStep, asks_change, at_field, at_subscripts, begun, built, ended, kind_behind, kind_of,
    part_of, read,
};
use crate::lone::lone_designator;
use crate::meanings::{brace_named, callee, constant_named, is_kind_or_module, kind};
use crate::names::{is_whole, parts_of, whole_name};
use crate::parts::{breaks_known, count_of_arguments, first_of, nothing_of, one_more, second_of};
use crate::productions::{multiplied, placed, relation_of, sign_of, summed};
use crate::variables::variable_named;
use dbpl_base::{List, Memory, Place, Shared};
use dbpl_judging::{Checker, Typed, pair, pushed};
use dbpl_rules_calls::{
    Argument, Asked, Denoted, asked_at, called, characters_argument, counted_argument,
    function_rules, kind_argument, standard_argument, value_argument, variable_argument,
};
use dbpl_rules_operators::{character, compared, instead, negated, number, signed, text};
use dbpl_symbols::Decl;
use dbpl_tree::{
    Aggregate, Arguments, Compared, Designator, Element, Expr, Exprs, Factor, Part, Simple, Term,
};
use dbpl_value::DbType;
use std::alloc::Global;

/// A factor behind `NOT` or `~`, which stands at this place.
#[cycle(judged_phrases)]
fn judge_negated(
    alloc: Global,
    checker: &mut Checker,
    place: Place,
    f: &Factor,
) -> Result<Option<Typed>, Memory>
    ensures { Judges (negated_judged checker.old.setting place f.now) result checker.old checker.new }
{
    let e = judge_factor(alloc, checker, f)?;
    negated(alloc, checker, place, e)
}

/// An expression in parentheses, the first of which stands at this place.
#[cycle(judged_phrases)]
fn judge_parenthesized(
    alloc: Global,
    checker: &mut Checker,
    place: Place,
    e: &Expr,
) -> Result<Option<Typed>, Memory>
    ensures { Judges (parenthesized_judged checker.old.setting place e.now) result checker.old checker.new }
{
    let e = judge_expr(alloc, checker, e)?;
    Ok(placed(place, e))
}

/// A factor by its kind.
#[tactic(auto, unfolding(crate::specs::Expressions::judge_expr))]
#[cycle(judged_phrases)]
fn judge_opened(alloc: Global, checker: &mut Checker, f: &Factor) -> Result<Option<Typed>, Memory>
    ensures { Judges (factor_opened checker.old.setting f.now) result checker.old checker.new }
{
    match f {
        Factor::Number(place, n) => number(alloc, checker, *place, *n),
        Factor::CharCode(place, code) => character(alloc, checker, *place, *code),
        Factor::Text(place, bytes) => text(alloc, checker, *place, bytes),
        Factor::Aggregate(a) => judge_aggregate(alloc, checker, a.get()),
        Factor::Designator(d, a) => match a {
            Some(a) => {
                let decl = judge_callee(alloc, checker, d)?;
                judge_call(alloc, checker, d.place(), decl, a.get())
            }
            None => judge_operand(alloc, checker, d),
        },
        Factor::Parenthesized(place, e) => judge_parenthesized(alloc, checker, *place, e.get()),
        Factor::Not(place, _, f) => judge_negated(alloc, checker, *place, f.get()),
        Factor::Quantified(_, _, _, _, _) => {
            checker.unbuilt();
            Ok(None)
        }
    }
}

#[cycle(judged_phrases)]
fn judge_factor(alloc: Global, checker: &mut Checker, f: &Factor) -> Result<Option<Typed>, Memory>
    ensures { Judges (factor_value checker.old.setting f.now) result checker.old checker.new }
{
    judge_opened(alloc, checker, f)
}

// ---- productions

#[cycle(judged_phrases)]
fn judge_term(alloc: Global, checker: &mut Checker, t: &Term) -> Result<Option<Typed>, Memory>
    ensures { Judges (term_judged checker.old.setting t.now) result checker.old checker.new }
{
    let mut left = judge_factor(alloc, checker, &t.first)?;
    for m in t.others.as_slice() {
        let (one, other) = pair(left, judge_factor(alloc, checker, &m.factor))?;
        left = multiplied(alloc, checker, m.place, m.operator, one, other)?;
    }
    Ok(left)
}

#[cycle(judged_phrases)]
fn judge_first(alloc: Global, checker: &mut Checker, s: &Simple) -> Result<Option<Typed>, Memory>
    ensures { Judges (first_judged checker.old.setting s.now) result checker.old checker.new }
{
    let first = judge_term(alloc, checker, &s.first)?;
    match s.sign {
        Some(sign) => signed(alloc, checker, s.place, sign_of(sign), first),
        None => Ok(first),
    }
}

#[cycle(judged_phrases)]
fn judge_simple(alloc: Global, checker: &mut Checker, s: &Simple) -> Result<Option<Typed>, Memory>
    ensures { Judges (simple_judged checker.old.setting s.now) result checker.old checker.new }
{
    let mut left = judge_first(alloc, checker, s)?;
    for a in s.others.as_slice() {
        let (one, other) = pair(left, judge_term(alloc, checker, &a.term))?;
        left = summed(alloc, checker, a.place, a.operator, one, other)?;
    }
    Ok(left)
}

/// An expression in its setting.
#[tactic(auto, unfolding(crate::specs::Expressions::judge_expr))]
#[cycle(judged_phrases)]
pub fn judge_expr(alloc: Global, checker: &mut Checker, e: &Expr) -> Result<Option<Typed>, Memory>
    ensures { Judges (expr_judged checker.old.setting e.now) result checker.old checker.new }
{
    let left = judge_simple(alloc, checker, &e.left)?;
    match &e.right {
        Some(c) => {
            let c = c.get();
            let (left, right) = pair(left, judge_simple(alloc, checker, &c.right))?;
            compared(
                alloc,
                checker,
                c.place,
                relation_of(c.relation),
                left,
                right,
            )
        }
        None => Ok(left),
    }
}

#[cycle(judged_phrases)]
fn judge_exprs(
    alloc: Global,
    checker: &mut Checker,
    es: &Exprs,
) -> Result<Option<List<Typed>>, Memory>
    ensures { Judges (exprs_judged checker.old.setting (exprs_in es.now)) result checker.old checker.new }
{
    let first = judge_expr(alloc, checker, es.first.get());
    let mut list = pushed(Some(List::new(alloc)), first)?;
    for e in es.others.as_slice() {
        list = pushed(list, judge_expr(alloc, checker, e))?;
    }
    Ok(list)
}

// ---- designators

/// One part more, behind steps that lead to this type.
#[cycle(judged_phrases)]
fn judge_part(
    alloc: Global,
    checker: &mut Checker,
    part: &Part,
    t: &DbType,
    steps: Option<List<CoreStep>>,
) -> Result<Option<List<CoreStep>>, Memory>
    ensures { Reaches (part_judged checker.old.setting part.now (reach t.now steps)) (type_behind part.now t.now) result checker.old checker.new }
{
    match part {
        Part::Field(x) => at_field(checker, x.place, &x.name, t, steps),
        Part::Subscripts(place, es) => {
            let before = built(checker, t, steps);
            let (before, indices) = pair(before, judge_exprs(alloc, checker, es))?;
            at_subscripts(alloc, checker, *place, es.place(), t, before, indices)
        }
    }
}

/// Where parts lead, one behind the other, from a variable of this type.
#[cycle(judged_phrases)]
fn judge_parts(
    alloc: Global,
    checker: &mut Checker,
    parts: &[Part],
    t: &DbType,
    steps: Option<List<CoreStep>>,
) -> Result<Option<Reached>, Memory>
    ensures { Judges (parts_judged checker.old.setting (of good (reach t.now steps)) parts.now) result checker.old checker.new }
{
    let mut t = t;
    let mut steps = steps;
    for part in parts {
        steps = judge_part(alloc, checker, part, t, steps)?;
        t = kind_behind(part, t);
    }
    ended(alloc, checker, t, steps)
}

/// A variable, with parts behind it.
#[cycle(judged_phrases)]
fn judge_whole(
    alloc: Global,
    checker: &mut Checker,
    whole: Option<Denoted>,
    parts: &[Part],
) -> Result<Option<Denoted>, Memory>
    ensures { Judges (whole_judged checker.old.setting parts.now whole) result checker.old checker.new }
{
    if is_whole(parts) {
        return Ok(whole);
    }
    let other = DbType::Int;
    let steps = begun(alloc, &whole);
    let reached = judge_parts(alloc, checker, parts, kind_of(&whole, &other), steps);
    let (whole, reached) = pair(whole, reached)?;
    Ok(part_of(whole, reached))
}

/// A designator as a variable.
#[cycle(judged_phrases)]
fn judge_variable(
    alloc: Global,
    checker: &mut Checker,
    d: &Designator,
) -> Result<Option<Denoted>, Memory>
    ensures { Judges (variable_judged checker.old.setting d.now) result checker.old checker.new }
{
    let whole = variable_named(alloc, checker, d)?;
    let parts = parts_of(checker.setting(), d);
    judge_whole(alloc, checker, whole, parts)
}

/// A variable that is to be changed, with parts behind it.
#[cycle(judged_phrases)]
fn judge_changed(
    alloc: Global,
    checker: &mut Checker,
    whole: Option<Denoted>,
    parts: &[Part],
) -> Result<Option<Denoted>, Memory>
    ensures { Judges (changed_judged checker.old.setting parts.now whole) result checker.old checker.new }
{
    let change = asks_change(checker, &whole);
    let denoted = judge_whole(alloc, checker, whole, parts)?;
    Ok(second_of(change, denoted))
}

/// A designator as a variable that is to be changed.
#[cycle(judged_phrases)]
fn judge_target(
    alloc: Global,
    checker: &mut Checker,
    d: &Designator,
) -> Result<Option<Denoted>, Memory>
    ensures { Judges (target_judged checker.old.setting d.now) result checker.old checker.new }
{
    let whole = variable_named(alloc, checker, d)?;
    let parts = parts_of(checker.setting(), d);
    judge_changed(alloc, checker, whole, parts)
}

/// A designator as an operand.
#[cycle(judged_phrases)]
fn judge_operand(
    alloc: Global,
    checker: &mut Checker,
    d: &Designator,
) -> Result<Option<Typed>, Memory>
    ensures { Judges (operand_judged checker.old.setting d.now) result checker.old checker.new }
{
    match constant_named(alloc, checker.setting(), d)? {
        Some(constant) => Ok(Some(constant)),
        None => {
            let denoted = judge_variable(alloc, checker, d)?;
            read(alloc, denoted)
        }
    }
}

#[cycle(judged_phrases)]
fn judge_indices(
    alloc: Global,
    checker: &mut Checker,
    part: &Part,
) -> Result<Option<List<Typed>>, Memory>
    ensures { Judges (indices_judged checker.old.setting part.now) result checker.old checker.new }
{
    match part {
        Part::Field(_) => Ok(Some(List::new(alloc))),
        Part::Subscripts(_, es) => judge_exprs(alloc, checker, es),
    }
}

#[cycle(judged_phrases)]
fn judge_all_indices(
    alloc: Global,
    checker: &mut Checker,
    parts: &[Part],
) -> Result<Option<List<List<Typed>>>, Memory>
    ensures { Judges (each (indices_judged checker.old.setting) parts.now) result checker.old checker.new }
{
    let mut list = Some(List::new(alloc));
    for part in parts {
        list = pushed(list, judge_indices(alloc, checker, part))?;
    }
    Ok(list)
}

/// A designator that is to stand alone.
#[cycle(judged_phrases)]
fn judge_alone(alloc: Global, checker: &mut Checker, d: &Designator) -> Result<Option<Decl>, Memory>
    ensures { Judges (alone_judged checker.old.setting d.now) result checker.old checker.new }
{
    let decl = whole_name(checker, d)?;
    let parts = parts_of(checker.setting(), d);
    let (decl, indices) = pair(decl, judge_all_indices(alloc, checker, parts))?;
    Ok(first_of(decl, indices))
}

/// A designator as the name of a type.
#[cycle(judged_phrases)]
fn judge_kind(
    alloc: Global,
    checker: &mut Checker,
    d: &Designator,
) -> Result<Option<Shared<DbType>>, Memory>
    ensures { Judges (kind_judged checker.old.setting d.now) result checker.old checker.new }
{
    let decl = judge_alone(alloc, checker, d)?;
    let t = kind(checker, d.place(), &decl);
    instead(decl, t)
}

/// A designator as the name of what is called.
#[cycle(judged_phrases)]
fn judge_callee(
    alloc: Global,
    checker: &mut Checker,
    d: &Designator,
) -> Result<Option<Decl>, Memory>
    ensures { Judges (callee_judged checker.old.setting d.now) result checker.old checker.new }
{
    let decl = judge_alone(alloc, checker, d)?;
    Ok(callee(checker, d.place(), decl))
}

// ---- calls

/// An expression where a variable is asked for.
#[cycle(judged_phrases)]
fn judge_as_variable(
    alloc: Global,
    checker: &mut Checker,
    e: &Expr,
) -> Result<Option<Denoted>, Memory>
    ensures { Judges (variable_given checker.old.setting e.now) result checker.old checker.new }
{
    match lone_designator(e) {
        Some(d) => judge_variable(alloc, checker, d),
        None => {
            let value = judge_expr(alloc, checker, e)?;
            Ok(breaks_known(checker, 38, e.place, value))
        }
    }
}

/// An expression where a variable that is to be changed is asked for.
#[cycle(judged_phrases)]
fn judge_as_target(
    alloc: Global,
    checker: &mut Checker,
    e: &Expr,
) -> Result<Option<Denoted>, Memory>
    ensures { Judges (target_given checker.old.setting e.now) result checker.old checker.new }
{
    match lone_designator(e) {
        Some(d) => judge_target(alloc, checker, d),
        None => {
            let value = judge_expr(alloc, checker, e)?;
            Ok(breaks_known(checker, 53, e.place, value))
        }
    }
}

/// An expression where the name of a type is asked for.
#[cycle(judged_phrases)]
fn judge_as_kind(
    alloc: Global,
    checker: &mut Checker,
    e: &Expr,
) -> Result<Option<Shared<DbType>>, Memory>
    ensures { Judges (kind_given checker.old.setting e.now) result checker.old checker.new }
{
    match lone_designator(e) {
        Some(d) => judge_kind(alloc, checker, d),
        None => {
            let value = judge_expr(alloc, checker, e)?;
            Ok(breaks_known(checker, 40, e.place, value))
        }
    }
}

/// A designator of which nothing is asked.
#[cycle(judged_phrases)]
fn judge_unasked(
    alloc: Global,
    checker: &mut Checker,
    d: &Designator,
) -> Result<Option<Argument>, Memory>
    ensures { Judges (unasked_judged checker.old.setting d.now) result checker.old checker.new }
{
    if is_kind_or_module(checker.setting(), d) {
        return Ok(Some(Argument::Nothing));
    }
    let value = judge_operand(alloc, checker, d)?;
    Ok(nothing_of(value))
}

/// An expression of which nothing is asked.
#[cycle(judged_phrases)]
fn judge_as_nothing(
    alloc: Global,
    checker: &mut Checker,
    e: &Expr,
) -> Result<Option<Argument>, Memory>
    ensures { Judges (nothing_given checker.old.setting e.now) result checker.old checker.new }
{
    match lone_designator(e) {
        Some(d) => judge_unasked(alloc, checker, d),
        None => {
            let value = judge_expr(alloc, checker, e)?;
            Ok(nothing_of(value))
        }
    }
}

/// An argument by what its place asks for.
#[cycle(judged_phrases)]
fn judge_argument(
    alloc: Global,
    checker: &mut Checker,
    asked: &Asked,
    e: &Expr,
) -> Result<Option<Argument>, Memory>
    ensures { Judges (argument_judged checker.old.setting asked.now e.now) result checker.old checker.new }
{
    match asked {
        Asked::Value(t) => {
            let value = judge_expr(alloc, checker, e)?;
            value_argument(alloc, checker, t, value)
        }
        Asked::Variable(t) => {
            let denoted = judge_as_variable(alloc, checker, e)?;
            variable_argument(checker, t.get(), denoted)
        }
        Asked::Standard(which) => {
            let value = judge_expr(alloc, checker, e)?;
            standard_argument(alloc, checker, *which, value)
        }
        Asked::Counted => {
            let denoted = judge_as_target(alloc, checker, e)?;
            counted_argument(checker, denoted)
        }
        Asked::Kind => {
            let t = judge_as_kind(alloc, checker, e)?;
            kind_argument(checker, e.place, t)
        }
        Asked::Characters => {
            let value = judge_expr(alloc, checker, e)?;
            characters_argument(checker, value)
        }
        Asked::Nothing => judge_as_nothing(alloc, checker, e),
    }
}

/// The argument of this number.
#[cycle(judged_phrases)]
fn judge_argument_at(
    alloc: Global,
    checker: &mut Checker,
    decl: &Option<Decl>,
    count: usize,
    number: usize,
    e: &Expr,
) -> Result<Option<Argument>, Memory>
    ensures { Judges (argument_at decl.now count checker.old.setting number e.now) result checker.old checker.new }
{
    let asked = asked_at(decl.as_ref(), count, number)?;
    let argument = judge_argument(alloc, checker, &asked, e);
    instead(asked, argument)
}

#[cycle(judged_phrases)]
fn judge_arguments(
    alloc: Global,
    checker: &mut Checker,
    decl: &Option<Decl>,
    count: usize,
    es: &Exprs,
) -> Result<Option<List<Argument>>, Memory>
    ensures { Judges (each_at (argument_at decl.now count checker.old.setting) 0 (exprs_in es.now)) result checker.old checker.new }
{
    let first = judge_argument_at(alloc, checker, decl, count, 0, es.first.get());
    let mut list = pushed(Some(List::new(alloc)), first)?;
    let mut number = 1;
    for e in es.others.as_slice() {
        list = pushed(
            list,
            judge_argument_at(alloc, checker, decl, count, number, e),
        )?;
        number = one_more(number)?;
    }
    Ok(list)
}

/// What stands in the parentheses of a call.
#[cycle(judged_phrases)]
fn judge_given(
    alloc: Global,
    checker: &mut Checker,
    decl: &Option<Decl>,
    count: usize,
    a: &Arguments,
) -> Result<Option<List<Argument>>, Memory>
    ensures { Judges (each_at (argument_at decl.now count checker.old.setting) 0 (arguments_in a.now)) result checker.old checker.new }
{
    match &a.exprs {
        Some(es) => judge_arguments(alloc, checker, decl, count, es),
        None => Ok(Some(List::new(alloc))),
    }
}

/// A call of what is declared there.
#[cycle(judged_phrases)]
fn judge_call(
    alloc: Global,
    checker: &mut Checker,
    place: Place,
    decl: Option<Decl>,
    a: &Arguments,
) -> Result<Option<Typed>, Memory>
    ensures { Judges (call_judged checker.old.setting place (arguments_in a.now) decl) result checker.old checker.new }
{
    let count = count_of_arguments(a)?;
    let named = function_rules(checker, place, count, decl.as_ref());
    let (decl, named) = pair(decl, named)?;
    let given = judge_given(alloc, checker, &decl, count, a);
    let (named, given) = pair(named, instead(decl, given))?;
    called(alloc, checker, place, named, given)
}

// ---- aggregates

#[cycle(judged_phrases)]
fn judge_elements(
    alloc: Global,
    checker: &mut Checker,
    elements: &List<Element>,
) -> Result<Option<List<Typed>>, Memory>
    ensures { Judges (elements_judged checker.old.setting elements.now) result checker.old checker.new }
{
    let mut list = Some(List::new(alloc));
    for element in elements.as_slice() {
        list = pushed(list, judge_element(alloc, checker, element))?;
    }
    Ok(list)
}

/// An element by its kind.
#[tactic(auto, unfolding(crate::specs::Expressions::judge_expr))]
#[cycle(judged_phrases)]
fn judge_opened_element(
    alloc: Global,
    checker: &mut Checker,
    element: &Element,
) -> Result<Option<Typed>, Memory>
    ensures { Judges (element_opened checker.old.setting element.now) result checker.old checker.new }
{
    match element {
        Element::Plain(e) => judge_expr(alloc, checker, e),
        _ => {
            checker.unbuilt();
            Ok(None)
        }
    }
}

#[cycle(judged_phrases)]
fn judge_element(
    alloc: Global,
    checker: &mut Checker,
    element: &Element,
) -> Result<Option<Typed>, Memory>
    ensures { Judges (element_judged element.now checker.old.setting) result checker.old checker.new }
{
    judge_opened_element(alloc, checker, element)
}

#[cycle(judged_phrases)]
fn judge_aggregate(
    alloc: Global,
    checker: &mut Checker,
    a: &Aggregate,
) -> Result<Option<Typed>, Memory>
    ensures { Judges (aggregate_judged a.now checker.old.setting) result checker.old checker.new }
{
    let t = brace_named(checker, &a.kind)?;
    let t = counted_kind(checker, a.place(), a.elements.len(), t);
    let (t, parts) = pair(t, judge_elements(alloc, checker, &a.elements))?;
    packed(alloc, checker, a.place(), t, parts)
}
