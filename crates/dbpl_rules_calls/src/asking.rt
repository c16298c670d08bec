//! What the places between the parentheses of a call ask for.
ghost use Rattle.std.specs.Prelude.{◌≡◌, [], ◌∷◌, IfOk, map, slice_get, unwrap_or};
ghost use Rattle.std.specs.Option.{option_copied};
ghost use Rattle.dbpl_rules_calls.specs.Asking.{asked_by as places_of, parameter_asks as place_of, standard_asks as places_of_procedure};
ghost use Rattle.dbpl_rules_calls.specs.declared.asked.Asked.TheVariants as places;

use crate::Asked;
use crate::rules::is_count_of;
use dbpl_base::Memory;
use dbpl_symbols::{Decl, StandardProcedure};
use dbpl_value::Param;

fn parameter_asks(param: &Param) -> Result<Asked, Memory>
    ensures { IfOk result (λ asked. asked ≡ place_of param.now) }
{
    let t = param.kind.share()?;
    if param.by_ref {
        Ok(Asked::Variable(t))
    } else {
        Ok(Asked::Value(t))
    }
}

/// What the parameter of this number asks for.
#[tactic(auto, using(crate::proofs::Listing::asked_of_parameter))]
fn heading_asks(params: &[Param], number: usize) -> Result<Asked, Memory>
    ensures { IfOk result (λ asked. asked ≡ unwrap_or (slice_get (map place_of params.now) number) places.Nothing) }
{
    match params.get(number) {
        Some(param) => parameter_asks(param),
        None => Ok(Asked::Nothing),
    }
}

fn first_asked(which: StandardProcedure) -> Asked
    ensures { result ≡ unwrap_or (slice_get (places_of_procedure which) 0) places.Nothing }
{
    match which {
        StandardProcedure::Val | StandardProcedure::Min | StandardProcedure::Max => Asked::Kind,
        StandardProcedure::Inc | StandardProcedure::Dec => Asked::Counted,
        StandardProcedure::Halt | StandardProcedure::Abort => Asked::Nothing,
        _ => Asked::Standard(which),
    }
}

fn second_asked(which: StandardProcedure) -> Asked
    ensures { result ≡ unwrap_or (slice_get (places_of_procedure which) 1) places.Nothing }
{
    match which {
        StandardProcedure::Val | StandardProcedure::Inc | StandardProcedure::Dec => {
            Asked::Standard(which)
        }
        _ => Asked::Nothing,
    }
}

fn standard_asks(which: StandardProcedure, number: usize) -> Asked
    ensures { result ≡ unwrap_or (slice_get (places_of_procedure which) number) places.Nothing }
{
    match number {
        0 => first_asked(which),
        1 => second_asked(which),
        _ => Asked::Nothing,
    }
}

fn character_asks(number: usize) -> Asked
    ensures { result ≡ unwrap_or (slice_get (places.Characters ∷ []) number) places.Nothing }
{
    if number == 0 {
        Asked::Characters
    } else {
        Asked::Nothing
    }
}

/// What the place of this number, counted from 0, asks for in a call with so many arguments. A type isn't copied, but has one
/// owner more.
pub fn asked_at(decl: Option<&Decl>, count: usize, number: usize) -> Result<Asked, Memory>
    ensures { IfOk result (λ asked. asked ≡ unwrap_or (slice_get (places_of (option_copied decl.entry) count) number) places.Nothing) }
{
    match decl {
        Some(Decl::Routine(_, head)) => heading_asks(head.get().params.as_slice(), number),
        Some(Decl::InOut(_, Some(head))) => heading_asks(head.get().params.as_slice(), number),
        Some(Decl::InOut(_, None)) => Ok(character_asks(number)),
        Some(Decl::Standard(which)) if is_count_of(*which, count) => {
            Ok(standard_asks(*which, number))
        }
        _ => Ok(Asked::Nothing),
    }
}
