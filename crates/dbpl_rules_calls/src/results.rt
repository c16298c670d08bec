//! What a call gives in an expression.
ghost use Rattle.std.specs.Prelude.{◌≡◌, Some, IfOk, IsOkAnd, filter_map};
ghost use Rattle.dbpl_judging.specs.Judgements.{of_both};
ghost use Rattle.dbpl_judging.specs.Judging.{Judges};
ghost use Rattle.dbpl_rules_calls.specs.Results.{applied as applied_to, bound_of as bound_of_procedure, call_tree as tree_of_call, called as judged, computed_facts as facts_of, converted as converted_to, core_argument as argument_of, host_constant as constant_of, of_one as of_one_argument, of_two as of_two_arguments, of_type as of_given_type, of_value as of_given_value, order_facts as facts_of_order, routine_result as result_of_routine, standard_result as result_of_standard};
ghost use Rattle.dbpl_rules_operators.specs.Hosts.{host_type as type_of_host};
ghost use Rattle.dbpl_value.specs.declared.db_type.DbType.TheVariants as kinds;

use crate::Argument;
use crate::parts::{one_or_two, with_part};
use dbpl_base::{Boxed, List, Memory, Name, Place, Shared};
use dbpl_core::{CoreArgument, CoreArgumentOf, CoreCallOf, CoreExpr, StandardFunction};
use dbpl_judging::{Checker, Facts, Kind, Typed, both_of, boxed, pair};
use dbpl_rules_operators::{ordinal_constant, type_host, whole_constant};
use dbpl_symbols::{Decl, StandardProcedure};
use dbpl_value::{DbType, Head, Range, range_of};
use std::alloc::Global;

// ---- routines

/// What a routine gets of an argument.
fn core_argument(argument: Argument) -> Option<CoreArgument>
    ensures { result ≡ argument_of argument }
{
    match argument {
        Argument::Value(e) => Some(CoreArgumentOf::Value(e.tree.into_inner())),
        Argument::Variable(denoted) => Some(CoreArgumentOf::Variable(denoted.designator)),
        _ => None,
    }
}

fn core_arguments(alloc: Global, given: List<Argument>) -> Result<List<CoreArgument>, Memory>
    ensures { IfOk result (λ arguments. arguments ≡ filter_map argument_of given) }
{
    let mut arguments = List::new(alloc);
    for argument in given.into_vec() {
        arguments = with_part(arguments, core_argument(argument))?;
    }
    Ok(arguments)
}

fn call_tree(
    alloc: Global,
    place: Place,
    owner: Shared<Name>,
    head: Shared<Head>,
    given: List<Argument>,
    t: Shared<DbType>,
) -> Result<CoreExpr, Memory>
    ensures { IfOk result (λ tree. tree ≡ tree_of_call place owner head given t) }
{
    let arguments = core_arguments(alloc, given)?;
    let call = CoreCallOf {
        place,
        owner,
        head,
        arguments,
    };
    Ok(CoreExpr::Call(call, t))
}

fn routine_result(
    alloc: Global,
    place: Place,
    owner: Shared<Name>,
    head: Shared<Head>,
    given: List<Argument>,
) -> Result<Option<Typed>, Memory>
    ensures { IfOk result (λ e. e ≡ result_of_routine place owner head given) }
{
    let Some(t) = &head.get().result else {
        return Ok(None);
    };
    let (given, kind) = pair(given, t.share())?;
    let (given, t) = pair(given, t.share())?;
    let (kind, tree) = pair(kind, call_tree(alloc, place, owner, head, given, t))?;
    let facts = Facts {
        place,
        kind: Kind::Of(kind),
        number: None,
    };
    let (facts, tree) = boxed(alloc, facts, tree)?;
    Ok(Some(Typed { facts, tree }))
}

// ---- standard functions

/// The type of the host once more. The host of a subrange is copied, where the checker has room for it; every other type
/// has one owner more.
fn host_owner(
    alloc: Global,
    checker: &mut Checker,
    t: &Shared<DbType>,
) -> Result<Shared<DbType>, Memory>
    ensures made { IfOk result (λ host. host ≡ type_of_host t.now) }
    ensures same { checker.new ≡ checker.old }
{
    match t.get() {
        DbType::Sub(host, _, _) => checker.copy_type(alloc, host.get()),
        _ => t.share(),
    }
}

fn host_constant(
    alloc: Global,
    checker: &mut Checker,
    place: Place,
    t: &Shared<DbType>,
    n: i64,
) -> Result<Typed, Memory>
    ensures made { IfOk result (λ e. e ≡ constant_of place t.now n) }
    ensures same { checker.new ≡ checker.old }
{
    if type_host(t.get()).is_whole() {
        whole_constant(alloc, place, n)
    } else {
        ordinal_constant(alloc, host_owner(alloc, checker, t)?, place, n)
    }
}

fn bound_of(which: StandardProcedure, range: Range) -> Option<i64>
    ensures { result ≡ bound_of_procedure which range }
{
    match which {
        StandardProcedure::Min => Some(range.least),
        StandardProcedure::Max => Some(range.greatest),
        _ => None,
    }
}

/// Of the name of a type.
fn of_type(
    alloc: Global,
    checker: &mut Checker,
    place: Place,
    which: StandardProcedure,
    t: &Shared<DbType>,
) -> Result<Option<Typed>, Memory>
    ensures made { IfOk result (λ e. e ≡ of_given_type place which t.now) }
    ensures same { checker.new ≡ checker.old }
{
    let Some(range) = range_of(t.get()) else {
        return Ok(None);
    };
    match bound_of(which, range) {
        Some(n) => Ok(Some(host_constant(alloc, checker, place, t, n)?)),
        None => Ok(None),
    }
}

fn computed_facts(alloc: Global, place: Place, t: DbType) -> Result<Facts, Memory>
    ensures { IfOk result (λ facts. facts ≡ facts_of place t) }
{
    Ok(Facts {
        place,
        kind: Kind::Of(Shared::new(alloc, t)?),
        number: None,
    })
}

fn character_facts(alloc: Global, place: Place, number: Option<i64>) -> Result<Facts, Memory>
    ensures { IfOk result (λ facts. facts ≡ record (facts_of place kinds.Char) { number = number }) }
{
    Ok(Facts {
        place,
        kind: Kind::Of(Shared::new(alloc, DbType::Char)?),
        number,
    })
}

fn order_facts(alloc: Global, place: Place, number: Option<i64>) -> Result<Facts, Memory>
    ensures { IfOk result (λ facts. facts ≡ facts_of_order place number) }
{
    match number {
        Some(_) => Ok(Facts {
            place,
            kind: Kind::Whole,
            number,
        }),
        None => computed_facts(alloc, place, DbType::Card),
    }
}

/// A standard function of an argument with this tree, where there was memory for what is known of what it gives.
fn applied(
    alloc: Global,
    place: Place,
    function: StandardFunction,
    tree: Boxed<CoreExpr>,
    facts: Result<Facts, Memory>,
) -> Result<Option<Typed>, Memory>
    ensures { IfOk result (λ e. IsOkAnd facts (λ facts. e ≡ Some (applied_to place function tree facts))) }
{
    let (tree, facts) = pair(tree, facts)?;
    let (facts, tree) = boxed(alloc, facts, CoreExpr::Standard(place, function, tree))?;
    Ok(Some(Typed { facts, tree }))
}

/// Of a value.
fn of_value(
    alloc: Global,
    place: Place,
    which: StandardProcedure,
    e: Typed,
) -> Result<Option<Typed>, Memory>
    ensures { IfOk result (λ made. made ≡ of_given_value place which e) }
{
    let Typed { facts, tree } = e;
    let number = facts.number;
    match which {
        StandardProcedure::Abs => {
            let facts = computed_facts(alloc, place, DbType::Int);
            applied(alloc, place, StandardFunction::Abs, tree, facts)
        }
        StandardProcedure::Odd => {
            let facts = computed_facts(alloc, place, DbType::Bool);
            applied(alloc, place, StandardFunction::Odd, tree, facts)
        }
        StandardProcedure::Cap => {
            let facts = computed_facts(alloc, place, DbType::Char);
            applied(alloc, place, StandardFunction::Cap, tree, facts)
        }
        StandardProcedure::Chr => {
            let facts = character_facts(alloc, place, number);
            applied(alloc, place, StandardFunction::Chr, tree, facts)
        }
        StandardProcedure::Ord => {
            let facts = order_facts(alloc, place, number);
            applied(alloc, place, StandardFunction::Ord, tree, facts)
        }
        _ => Ok(None),
    }
}

/// VAL of a type and a value.
fn converted(
    alloc: Global,
    place: Place,
    t: Shared<DbType>,
    e: Typed,
) -> Result<Option<Typed>, Memory>
    ensures { IfOk result (λ made. made ≡ Some (converted_to place t e)) }
{
    let (e, kind) = pair(e, t.share())?;
    let facts = Facts {
        place,
        kind: Kind::Of(kind),
        number: None,
    };
    applied(alloc, place, StandardFunction::Val(t), e.tree, Ok(facts))
}

fn of_one(
    alloc: Global,
    checker: &mut Checker,
    place: Place,
    which: StandardProcedure,
    given: Argument,
) -> Result<Option<Typed>, Memory>
    ensures made { IfOk result (λ e. e ≡ of_one_argument place which given) }
    ensures same { checker.new ≡ checker.old }
{
    match given {
        Argument::Kind(t) => of_type(alloc, checker, place, which, &t),
        Argument::Value(e) => of_value(alloc, place, which, e),
        _ => Ok(None),
    }
}

fn of_two(
    alloc: Global,
    place: Place,
    first: Argument,
    second: Argument,
) -> Result<Option<Typed>, Memory>
    ensures { IfOk result (λ e. e ≡ of_two_arguments place first second) }
{
    match (first, second) {
        (Argument::Kind(t), Argument::Value(e)) => converted(alloc, place, t, e),
        _ => Ok(None),
    }
}

fn standard_result(
    alloc: Global,
    checker: &mut Checker,
    place: Place,
    which: StandardProcedure,
    given: List<Argument>,
) -> Result<Option<Typed>, Memory>
    ensures made { IfOk result (λ e. e ≡ result_of_standard place which given) }
    ensures same { checker.new ≡ checker.old }
{
    let Some((before, last)) = one_or_two(given) else {
        return Ok(None);
    };
    match before {
        Some(first) => of_two(alloc, place, first, last),
        None => of_one(alloc, checker, place, which, last),
    }
}

// ---- calls

/// What a call, which stands at this place, gives of these arguments.
#[tactic(auto, unfolding(crate::specs::Results::called))]
pub fn called(
    alloc: Global,
    checker: &mut Checker,
    place: Place,
    decl: Option<Decl>,
    given: Option<List<Argument>>,
) -> Result<Option<Typed>, Memory>
    ensures { Judges (of_both (judged place) decl given) result checker.old checker.new }
{
    let Some((decl, given)) = both_of(decl, given) else {
        return Ok(None);
    };
    match decl {
        Decl::Routine(owner, head) => routine_result(alloc, place, owner, head, given),
        Decl::Standard(which) => standard_result(alloc, checker, place, which, given),
        _ => Ok(None),
    }
}
