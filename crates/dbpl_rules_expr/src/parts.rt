//! Parts that are handed on, and let go of here, where their type is any.
ghost use Rattle.std.specs.Prelude.{◌≡◌, ◌+◌, ◌++◌, [], ◌∷◌, IfOk, IsOkAnd, length, None, Ok, option_map, option_to_list};
ghost use Rattle.dbpl_judging.specs.Judgements.{breaks as judged_break, of, paired};
ghost use Rattle.dbpl_judging.specs.Judging.{Judges};
ghost use Rattle.dbpl_rules_calls.specs.declared.argument.Argument.TheVariants as arguments;
ghost use Rattle.dbpl_rules_expr.specs.Designators.{only as only_of};
ghost use Rattle.dbpl_tree.specs.Plain.{arguments_in};

use dbpl_base::{List, Memory, Place};
use dbpl_judging::Checker;
use dbpl_rules_calls::Argument;
use dbpl_tree::Arguments;

/// The item of a list that has one.
pub(crate) fn only<T: Drop>(list: List<T>) -> Option<T>
    ensures { result ≡ only_of list }
{
    let mut list = list;
    let last = list.pop()?;
    if list.is_empty() { Some(last) } else { None }
}

/// The first of two parts, where both are there.
pub(crate) fn first_of<A: Drop, B: Drop>(one: Option<A>, other: Option<B>) -> Option<A>
    ensures { result ≡ option_map (λ both. both.0) (paired one other) }
{
    match (one, other) {
        (Some(one), Some(_)) => Some(one),
        _ => None,
    }
}

/// The second of two parts, where both are there.
pub(crate) fn second_of<A: Drop, B: Drop>(one: Option<A>, other: Option<B>) -> Option<B>
    ensures { result ≡ option_map (λ both. both.1) (paired one other) }
{
    match (one, other) {
        (Some(_), Some(other)) => Some(other),
        _ => None,
    }
}

/// A part that is known breaks this rule at this place.
pub(crate) fn breaks_known<A: Drop, B>(
    checker: &mut Checker,
    rule: u16,
    place: Place,
    part: Option<A>,
) -> Option<B>
    ensures { Judges (of (λ known. judged_break {A = B} rule place) part) (Ok result) checker.old checker.new }
{
    if part.is_some() {
        checker.breaks(rule, place);
    }
    None
}

/// An argument of which nothing is asked, where the part is known.
pub(crate) fn nothing_of<A: Drop>(part: Option<A>) -> Option<Argument>
    ensures { result ≡ option_map (λ known. arguments.Nothing) part }
{
    match part {
        Some(_) => Some(Argument::Nothing),
        None => None,
    }
}

/// The list with one item more.
pub(crate) fn with_item<T: Drop>(list: List<T>, item: Result<T, Memory>) -> Result<List<T>, Memory>
    ensures { IfOk result (λ longer. IsOkAnd item (λ item. longer ≡ list ++ item ∷ [])) }
{
    let item = item?;
    let mut list = list;
    list.push(item)?;
    Ok(list)
}

/// The list with one item more, where there is one.
pub(crate) fn with_found<T: Drop>(
    list: List<T>,
    item: Result<Option<T>, Memory>,
) -> Result<List<T>, Memory>
    ensures { IfOk result (λ longer. IsOkAnd item (λ item. longer ≡ list ++ option_to_list item)) }
{
    let mut list = list;
    match item? {
        Some(item) => {
            list.push(item)?;
            Ok(list)
        }
        None => Ok(list),
    }
}

/// Lets a part go.
pub(crate) fn none_of<A: Drop, B>(_part: A) -> Option<B>
    ensures { result ≡ None }
{
    None
}

/// The next number.
pub(crate) fn one_more(number: usize) -> Result<usize, Memory>
    ensures { IfOk result (λ next. next ≡ number + 1) }
{
    match number.checked_add(1) {
        Some(next) => Ok(next),
        None => Err(Memory),
    }
}

/// How many arguments stand between the parentheses.
pub(crate) fn count_of_arguments(a: &Arguments) -> Result<usize, Memory>
    ensures { IfOk result (λ count. count ≡ length (arguments_in a.now)) }
{
    match &a.exprs {
        Some(es) => one_more(es.others.len()),
        None => Ok(0),
    }
}
