//! Units: what a whole text may be.
ghost use Rattle.std.specs.Prelude.{◌≡◌, drop};
ghost use Rattle.dbpl_grammar.specs.Units as spec;
ghost use Rattle.dbpl_parse_expr.specs.Gives.{Reads};

use crate::modules::{data_unit, definition_unit, program};
use dbpl_base::Token;
use dbpl_base::words::{DEFINITION, IMPLEMENTATION, MODULE};
use dbpl_parse_expr::ReadErr;
use dbpl_parse_expr::tokens::{begins_word, here, word};
use dbpl_tree::Unit;
use std::alloc::Global;

/// An implementation module.
#[tactic(auto, unfolding(dbpl_grammar::specs::Units::implementation))]
fn implementation(
    alloc: Global,
    tokens: &[Token],
    at: usize,
    depth: u8,
) -> Result<(Unit, usize), ReadErr>
    ensures { Reads tokens.now result (spec.implementation depth (drop at tokens.now)) }
{
    let place = here(tokens, at)?;
    let at = word(tokens, at, IMPLEMENTATION)?;
    let (found, at) = program(alloc, tokens, at, depth)?;
    Ok((Unit::Implementation(place, found), at))
}

/// A unit.
#[tactic(auto, unfolding(dbpl_grammar::specs::Units::unit))]
pub fn unit(alloc: Global, tokens: &[Token], at: usize, depth: u8) -> Result<(Unit, usize), ReadErr>
    ensures { Reads tokens.now result (spec.unit depth (drop at tokens.now)) }
{
    if begins_word(tokens, at, MODULE) {
        let (found, at) = program(alloc, tokens, at, depth)?;
        return Ok((Unit::Program(found), at));
    }
    if begins_word(tokens, at, IMPLEMENTATION) {
        return implementation(alloc, tokens, at, depth);
    }
    if begins_word(tokens, at, DEFINITION) {
        let (found, at) = definition_unit(alloc, tokens, at, depth)?;
        return Ok((Unit::Definition(found), at));
    }
    let (found, at) = data_unit(alloc, tokens, at, depth)?;
    Ok((Unit::Data(found), at))
}
