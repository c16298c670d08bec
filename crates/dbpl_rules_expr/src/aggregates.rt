//! Aggregates, once their elements are judged.
ghost use Rattle.std.specs.Prelude.{◌≡◌, IfOk, is_some, map, option_map, slice_get, Ok};
ghost use Rattle.dbpl_judging.specs.Checking.{noting};
ghost use Rattle.dbpl_judging.specs.Judgements.{of, of_both};
ghost use Rattle.dbpl_judging.specs.Judging.{Judges};
ghost use Rattle.dbpl_rules_expr.specs.Aggregates.{counted_kind as judged_number, fitted_fields as fields_fitted, fitted_parts as parts_fitted, packed as judged_packed, packed_rules as judged_rules, packed_value as value_packed};
ghost use Rattle.dbpl_rules_operators.specs.Fitting.{fitted as fitted_to};

use crate::parts::{none_of, one_more, with_found, with_item};
use crate::rules::{fit_parts, has_parts, is_number_of_parts};
use dbpl_base::{List, Memory, Place, Shared};
use dbpl_core::CoreExpr;
use dbpl_judging::{Checker, Facts, Kind, Typed, both_of, boxed, pair};
use dbpl_rules_operators::{fitted, kept_where};
use dbpl_value::{DbType, Field, fields_of};
use std::alloc::Global;

/// The type of an aggregate with so many elements, which begins at this place.
#[tactic(auto, unfolding(crate::specs::Aggregates::counted_kind))]
pub(crate) fn counted_kind(
    checker: &mut Checker,
    place: Place,
    count: usize,
    t: Option<Shared<DbType>>,
) -> Option<Shared<DbType>>
    ensures { Judges (of (judged_number place count) t) (Ok result) checker.old checker.new }
{
    let t = t?;
    let holds = checker.asks(42, place, is_number_of_parts(t.get(), count));
    kept_where(holds, t)
}

/// The tree of an element of this type.
fn fitted_element(alloc: Global, t: &Shared<DbType>, part: Typed) -> Result<CoreExpr, Memory>
    ensures { IfOk result (λ tree. tree ≡ fitted_to t.now part) }
{
    let Typed { facts, tree } = part;
    let tree = fitted(alloc, t, &facts, tree)?;
    Ok(tree.into_inner())
}

/// The elements of an array.
fn fitted_elements(
    alloc: Global,
    t: &Shared<DbType>,
    parts: List<Typed>,
) -> Result<List<CoreExpr>, Memory>
    ensures { IfOk result (λ trees. trees ≡ map (fitted_to t.now) parts) }
{
    let mut trees = List::new(alloc);
    for part in parts.into_vec() {
        trees = with_item(trees, fitted_element(alloc, t, part))?;
    }
    Ok(trees)
}

/// The element for the field of this number. The field's type is copied, where the checker has room for it.
fn fitted_field(
    alloc: Global,
    checker: &mut Checker,
    fields: &[Field],
    number: usize,
    part: Typed,
) -> Result<Option<CoreExpr>, Memory>
    ensures fitted { IfOk result (λ tree. tree ≡ option_map (λ field. fitted_to field.kind part) (slice_get fields.now number)) }
    ensures same { checker.new ≡ checker.old }
{
    let Some(field) = fields.get(number) else {
        return Ok(none_of(part));
    };
    let (part, t) = pair(part, checker.copy_type(alloc, &field.kind))?;
    let tree = fitted_element(alloc, &t, part)?;
    Ok(Some(tree))
}

/// The elements of a record.
fn fitted_fields(
    alloc: Global,
    checker: &mut Checker,
    fields: &[Field],
    parts: List<Typed>,
) -> Result<List<CoreExpr>, Memory>
    ensures fitted { IfOk result (λ trees. trees ≡ fields_fitted (map (λ field. field.kind) fields.now) parts) }
    ensures same { checker.new ≡ checker.old }
{
    let mut trees = List::new(alloc);
    let mut number = 0;
    for part in parts.into_vec() {
        trees = with_found(trees, fitted_field(alloc, checker, fields, number, part))?;
        number = one_more(number)?;
    }
    Ok(trees)
}

/// The elements, each of the type of the part for which it stands. The type of an array's elements is copied once.
fn fitted_parts(
    alloc: Global,
    checker: &mut Checker,
    t: &DbType,
    parts: List<Typed>,
) -> Result<List<CoreExpr>, Memory>
    ensures fitted { IfOk result (λ trees. trees ≡ parts_fitted t.now parts) }
    ensures same { checker.new ≡ checker.old }
{
    match t {
        DbType::Arr(_, element) => {
            let (parts, t) = pair(parts, checker.copy_type(alloc, element.get()))?;
            fitted_elements(alloc, &t, parts)
        }
        _ => fitted_fields(alloc, checker, fields_of(t), parts),
    }
}

/// An aggregate that breaks no rule.
fn packed_value(
    alloc: Global,
    checker: &mut Checker,
    place: Place,
    t: Shared<DbType>,
    parts: List<Typed>,
) -> Result<Typed, Memory>
    ensures packed { IfOk result (λ e. e ≡ value_packed place t parts) }
    ensures same { checker.new ≡ checker.old }
{
    let trees = fitted_parts(alloc, checker, t.get(), parts);
    let (t, trees) = pair(t, trees)?;
    let kind = t.share();
    let ((t, trees), kind) = pair((t, trees), kind)?;
    let facts = Facts {
        place,
        kind: Kind::Of(kind),
        number: None,
    };
    let (facts, tree) = boxed(alloc, facts, CoreExpr::Packed(place, t, trees))?;
    Ok(Typed { facts, tree })
}

#[tactic(auto, unfolding(crate::specs::Aggregates::packed_rules))]
fn packed_rules(checker: &mut Checker, place: Place, t: &DbType, parts: &[Typed]) -> bool
    ensures answer { result ≡ is_some (judged_rules place t.now (map (λ part. part.facts) parts.now)).core }
    ensures noted { checker.new ≡ noting (judged_rules place t.now (map (λ part. part.facts) parts.now)).breaches checker.old }
{
    checker.asks(41, place, has_parts(t)) && checker.asks(42, place, fit_parts(t, parts))
}

/// An aggregate, which begins at this place.
#[tactic(auto, unfolding(crate::specs::Aggregates::packed))]
pub(crate) fn packed(
    alloc: Global,
    checker: &mut Checker,
    place: Place,
    t: Option<Shared<DbType>>,
    parts: Option<List<Typed>>,
) -> Result<Option<Typed>, Memory>
    ensures { Judges (of_both (judged_packed place) t parts) result checker.old checker.new }
{
    let Some((t, parts)) = both_of(t, parts) else {
        return Ok(None);
    };
    let holds = packed_rules(checker, place, t.get(), parts.as_slice());
    let Some((t, parts)) = kept_where(holds, (t, parts)) else {
        return Ok(None);
    };
    Ok(Some(packed_value(alloc, checker, place, t, parts)?))
}
