//! Arguments, once the phrases are judged.
ghost use Rattle.std.specs.Prelude.{◌≡◌, IfOk};
ghost use Rattle.dbpl_judging.specs.Checking.{noting};
ghost use Rattle.dbpl_judging.specs.Judgements.{of};
ghost use Rattle.dbpl_judging.specs.Judging.{Judges};
ghost use Rattle.dbpl_rules_calls.specs.Arguments.{built_where, is_built as is_procedure_built, characters_argument as judged_characters, counted_argument as judged_counted, kind_argument as judged_kind, standard_argument as judged_standard, standard_tree as tree_for, value_argument as judged_value, variable_argument as judged_variable};

use crate::rules::{are_characters, is_built, takes_type, takes_value, takes_variable};
use crate::{Argument, Denoted};
use dbpl_base::{Boxed, Memory, Place, Shared};
use dbpl_core::CoreExpr;
use dbpl_judging::{Checker, Facts, Typed, pair};
use dbpl_rules_operators::{as_ordinal, fits, fitted, kept_where};
use dbpl_symbols::StandardProcedure;
use dbpl_value::DbType;
use std::alloc::Global;

/// For a parameter of this type that stands for a value.
#[tactic(auto, unfolding(crate::specs::Arguments::value_argument))]
pub fn value_argument(
    alloc: Global,
    checker: &mut Checker,
    t: &Shared<DbType>,
    e: Option<Typed>,
) -> Result<Option<Argument>, Memory>
    ensures { Judges (of (judged_value t.now) e) result checker.old checker.new }
{
    let Some(e) = e else {
        return Ok(None);
    };
    let holds = checker.asks(37, e.facts.place, fits(t.get(), &e.facts));
    let Some(e) = kept_where(holds, e) else {
        return Ok(None);
    };
    let Typed { facts, tree } = e;
    let tree = fitted(alloc, t, &facts, tree);
    let (facts, tree) = pair(facts, tree)?;
    Ok(Some(Argument::Value(Typed { facts, tree })))
}

/// For a VAR parameter of this type.
#[tactic(auto, unfolding(crate::specs::Arguments::variable_argument))]
pub fn variable_argument(
    checker: &mut Checker,
    t: &DbType,
    denoted: Option<Denoted>,
) -> Result<Option<Argument>, Memory>
    ensures { Judges (of (judged_variable t.now) denoted) result checker.old checker.new }
{
    let Some(denoted) = denoted else {
        return Ok(None);
    };
    let holds = checker.asks(38, denoted.designator.place, takes_variable(t, &denoted));
    let Some(denoted) = kept_where(holds, denoted) else {
        return Ok(None);
    };
    Ok(Some(Argument::Variable(denoted)))
}

fn standard_tree(
    alloc: Global,
    which: StandardProcedure,
    facts: &Facts,
    tree: Boxed<CoreExpr>,
) -> Result<Boxed<CoreExpr>, Memory>
    ensures { IfOk result (λ made. made ≡ tree_for which (record { facts = facts.now; tree = tree })) }
{
    match which {
        StandardProcedure::Abs => {
            let (tree, t) = pair(tree, Shared::new(alloc, DbType::Int))?;
            fitted(alloc, &t, facts, tree)
        }
        _ => as_ordinal(alloc, facts, tree),
    }
}

/// Whether a standard procedure is built. Where it isn't, that is noted.
fn built(checker: &mut Checker, which: StandardProcedure) -> bool
    ensures answer { result ≡ is_procedure_built which }
    ensures noted { checker.new ≡ noting (built_where (is_procedure_built which)).breaches checker.old }
{
    let built = is_built(which);
    if !built {
        checker.unbuilt();
    }
    built
}

/// For a standard procedure that takes a value.
#[tactic(auto, unfolding(crate::specs::Arguments::standard_argument))]
pub fn standard_argument(
    alloc: Global,
    checker: &mut Checker,
    which: StandardProcedure,
    e: Option<Typed>,
) -> Result<Option<Argument>, Memory>
    ensures { Judges (of (judged_standard which) e) result checker.old checker.new }
{
    let Some(e) = e else {
        return Ok(None);
    };
    let holds = checker.asks(40, e.facts.place, takes_value(which, &e.facts));
    let Some(e) = kept_where(holds, e) else {
        return Ok(None);
    };
    let Some(e) = kept_where(built(checker, which), e) else {
        return Ok(None);
    };
    let Typed { facts, tree } = e;
    let tree = standard_tree(alloc, which, &facts, tree);
    let (facts, tree) = pair(facts, tree)?;
    Ok(Some(Argument::Value(Typed { facts, tree })))
}

/// For INC and DEC, which change the variable: that it may be changed is asked where it is denoted.
#[tactic(auto, unfolding(crate::specs::Arguments::counted_argument))]
pub fn counted_argument(
    checker: &mut Checker,
    denoted: Option<Denoted>,
) -> Result<Option<Argument>, Memory>
    ensures { Judges (of judged_counted denoted) result checker.old checker.new }
{
    let Some(denoted) = denoted else {
        return Ok(None);
    };
    let holds = checker.asks(40, denoted.designator.place, takes_type(denoted.kind.get()));
    let Some(denoted) = kept_where(holds, denoted) else {
        return Ok(None);
    };
    Ok(Some(Argument::Variable(denoted)))
}

/// For MIN, MAX and VAL: the name of a type, which stands at this place.
#[tactic(auto, unfolding(crate::specs::Arguments::kind_argument))]
pub fn kind_argument(
    checker: &mut Checker,
    place: Place,
    t: Option<Shared<DbType>>,
) -> Result<Option<Argument>, Memory>
    ensures { Judges (of (judged_kind place) t) result checker.old checker.new }
{
    let Some(t) = t else {
        return Ok(None);
    };
    if !checker.asks(40, place, takes_type(t.get())) {
        return Ok(None);
    }
    Ok(Some(Argument::Kind(t)))
}

/// For WriteString.
#[tactic(auto, unfolding(crate::specs::Arguments::characters_argument))]
pub fn characters_argument(
    checker: &mut Checker,
    e: Option<Typed>,
) -> Result<Option<Argument>, Memory>
    ensures { Judges (of judged_characters e) result checker.old checker.new }
{
    let Some(e) = e else {
        return Ok(None);
    };
    let holds = checker.asks(40, e.facts.place, are_characters(&e.facts.kind));
    let Some(e) = kept_where(holds, e) else {
        return Ok(None);
    };
    Ok(Some(Argument::Value(e)))
}
