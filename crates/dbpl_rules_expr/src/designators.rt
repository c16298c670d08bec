//! Parts of variables, once the indices in them are judged.
ghost use Rattle.std.specs.Prelude.{◌≡◌, [], IfOk, Ok, is_some, map, option_map};
ghost use Rattle.std.specs.Option.{option_map_or};
ghost use Rattle.dbpl_judging.specs.Checking.{noting};
ghost use Rattle.dbpl_judging.specs.Judgements.{asks as judged_question, of, of_both, paired};
ghost use Rattle.dbpl_rules_expr.specs.Designators.{at_field as judged_field, at_subscripts as judged_subscripts, built as judged_built, index_range as range_of_index, index_rules as judged_rules, index_step as step_of_index, kind_behind as type_behind, part_of as part_reached, read as read_of};
ghost use Rattle.dbpl_judging.specs.Judging.{Judges};
ghost use Rattle.dbpl_rules_expr.specs.Reaching.{Reaches, reach};
ghost use Rattle.dbpl_rules_expr.specs.Rules.{S53};
ghost use Rattle.dbpl_core.specs.declared.step_of.CoreStepOf.TheVariants as steps;
ghost use Rattle.dbpl_value.specs.Types.{element_of as element_type, fields_of as fields_in, type_named as type_of_name};

use crate::Reached;
use crate::parts::only;
use crate::rules::{changes, field_position, is_array, is_index, is_relation};
use dbpl_base::{List, Memory, Name, Place};
use dbpl_core::{CoreDesignatorOf, CoreExpr, CoreStepOf};
use dbpl_judging::{Checker, Facts, Kind, Typed, both_of, boxed, pair, pushed};
use dbpl_rules_calls::Denoted;
use dbpl_rules_operators::{as_ordinal, index_of, instead, kept_where};
use dbpl_tree::Part;
use dbpl_value::{DbType, Range, element_of, fields_of, range_of, type_named};
use std::alloc::Global;

pub(crate) type CoreStep = CoreStepOf<CoreExpr>;

/// The type to which a part leads from this one.
pub(crate) fn kind_behind<'a>(part: &Part, t: &'a DbType) -> &'a DbType
    ensures { result.now ≡ type_behind part.now t.now }
{
    match part {
        Part::Field(x) => type_named(t, fields_of(t), &x.name),
        Part::Subscripts(_, _) => element_of(t),
    }
}

fn field_step(position: Option<usize>) -> Result<Option<CoreStep>, Memory>
    ensures { IfOk result (λ step. step ≡ option_map steps.Field position) }
{
    match position {
        Some(position) => match u32::try_from(position) {
            Ok(position) => Ok(Some(CoreStepOf::Field(position))),
            Err(_) => Err(Memory),
        },
        None => Ok(None),
    }
}

/// A field of this name, which stands at this place.
#[tactic(auto, unfolding(crate::specs::Designators::at_field))]
pub(crate) fn at_field(
    checker: &mut Checker,
    place: Place,
    name: &Name,
    t: &DbType,
    steps: Option<List<CoreStep>>,
) -> Result<Option<List<CoreStep>>, Memory>
    ensures { Reaches (of (judged_field place name.now) (reach t.now steps)) (type_of_name t.now (fields_in t.now) name.now) result checker.old checker.new }
{
    let position = field_position(t, name);
    if steps.is_some() && position.is_none() {
        checker.breaks(32, place);
    }
    pushed(steps, field_step(position))
}

/// Brackets after a relation aren't built yet.
pub(crate) fn built(
    checker: &mut Checker,
    t: &DbType,
    steps: Option<List<CoreStep>>,
) -> Option<List<CoreStep>>
    ensures { Reaches (of judged_built (reach t.now steps)) t.now (Ok result) checker.old checker.new }
{
    let steps = steps?;
    let is_relation = is_relation(t);
    if is_relation {
        checker.unbuilt();
    }
    kept_where(!is_relation, steps)
}

fn index_range(t: &DbType) -> Range
    ensures { result ≡ range_of_index t.now }
{
    match range_of(index_of(t)) {
        Some(range) => range,
        None => Range {
            least: 0,
            greatest: 0,
        },
    }
}

fn index_step(alloc: Global, t: &DbType, index: Option<Typed>) -> Result<Option<CoreStep>, Memory>
    ensures { IfOk result (λ step. step ≡ option_map (step_of_index t.now) index) }
{
    let Some(Typed { facts, tree }) = index else {
        return Ok(None);
    };
    let tree = as_ordinal(alloc, &facts, tree)?;
    Ok(Some(CoreStepOf::Index(facts.place, index_range(t), tree.into_inner())))
}

#[tactic(auto, unfolding(crate::specs::Designators::index_rules))]
fn index_rules(
    checker: &mut Checker,
    place: Place,
    first: Place,
    t: &DbType,
    indices: &[Typed],
) -> bool
    ensures answer { result ≡ is_some (judged_rules place first t.now (map (λ index. index.facts) indices.now)).core }
    ensures noted { checker.new ≡ noting (judged_rules place first t.now (map (λ index. index.facts) indices.now)).breaches checker.old }
{
    checker.asks(33, place, is_array(t)) && checker.asks(34, first, is_index(t, indices))
}

/// Brackets at this place, with indices the first of which begins at `first`.
#[tactic(auto, unfolding(crate::specs::Designators::at_subscripts))]
pub(crate) fn at_subscripts(
    alloc: Global,
    checker: &mut Checker,
    place: Place,
    first: Place,
    t: &DbType,
    steps: Option<List<CoreStep>>,
    indices: Option<List<Typed>>,
) -> Result<Option<List<CoreStep>>, Memory>
    ensures { Reaches (of_both (judged_subscripts place first) (reach t.now steps) indices) (element_type t.now) result checker.old checker.new }
{
    let Some((steps, indices)) = both_of(steps, indices) else {
        return Ok(None);
    };
    let holds = index_rules(checker, place, first, t, indices.as_slice());
    let Some((steps, indices)) = kept_where(holds, (steps, indices)) else {
        return Ok(None);
    };
    pushed(Some(steps), index_step(alloc, t, only(indices)))
}

/// Whether a variable may be changed.
pub(crate) fn asks_change(checker: &mut Checker, whole: &Option<Denoted>) -> Option<()>
    ensures { Judges (of (λ known. judged_question 53 known.designator.place (S53 known)) whole.now) (Ok result) checker.old checker.new }
{
    match whole {
        Some(known) if checker.asks(53, known.designator.place, changes(known)) => Some(()),
        _ => None,
    }
}

/// No step yet.
pub(crate) fn begun(alloc: Global, whole: &Option<Denoted>) -> Option<List<CoreStep>>
    ensures { result ≡ option_map (λ known. []) whole.now }
{
    match whole {
        Some(_) => Some(List::new(alloc)),
        None => None,
    }
}

/// The type of a variable, and another where there is none.
pub(crate) fn kind_of<'a>(whole: &'a Option<Denoted>, other: &'a DbType) -> &'a DbType
    ensures { result.now ≡ option_map_or (λ known. known.kind) whole.now other.now }
{
    match whole {
        Some(whole) => whole.kind.get(),
        None => other,
    }
}

/// Where the steps lead in the end. The type there is copied, where the checker has room for it.
pub(crate) fn ended(
    alloc: Global,
    checker: &mut Checker,
    t: &DbType,
    steps: Option<List<CoreStep>>,
) -> Result<Option<Reached>, Memory>
    ensures ended { IfOk result (λ reached. reached ≡ reach t.now steps) }
    ensures same { checker.new ≡ checker.old }
{
    let Some(steps) = steps else {
        return Ok(None);
    };
    let (steps, kind) = pair(steps, checker.copy_type(alloc, t))?;
    Ok(Some(Reached { steps, kind }))
}

/// The part of a variable to which steps lead.
pub(crate) fn part_of(whole: Option<Denoted>, reached: Option<Reached>) -> Option<Denoted>
    ensures { result ≡ option_map (λ known. part_reached known.0 known.1) (paired whole reached) }
{
    let (whole, reached) = both_of(whole, reached)?;
    let designator = CoreDesignatorOf {
        place: whole.designator.place,
        root: whole.designator.root,
        root_kind: whole.designator.root_kind,
        steps: instead(whole.designator.steps, reached.steps),
    };
    Some(Denoted {
        designator,
        kind: instead(whole.kind, reached.kind),
        may_change: whole.may_change,
    })
}

/// The value of a variable.
pub(crate) fn read(alloc: Global, denoted: Option<Denoted>) -> Result<Option<Typed>, Memory>
    ensures { IfOk result (λ e. e ≡ option_map read_of denoted) }
{
    let Some(denoted) = denoted else {
        return Ok(None);
    };
    let Denoted {
        designator,
        kind,
        ..
    } = denoted;
    let place = designator.place;
    let shared = kind.share();
    let ((designator, kind), shared) = pair((designator, kind), shared)?;
    let facts = Facts {
        place,
        kind: Kind::Of(shared),
        number: None,
    };
    let (facts, tree) = boxed(alloc, facts, CoreExpr::Read(designator, kind))?;
    Ok(Some(Typed { facts, tree }))
}
