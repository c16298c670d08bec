//! Factors of one token.
ghost use Rattle.std.specs.Prelude.{◌≡◌, drop};
ghost use Rattle.dbpl_grammar.specs.Expressions as spec;
ghost use Rattle.dbpl_parse_expr.specs.Gives.{Reads};

use crate::ReadErr;
use crate::tokens::{code, here, string, whole};
use dbpl_base::Token;
use dbpl_tree::Factor;
use std::alloc::Global;

/// A number as a factor.
#[tactic(auto, unfolding(dbpl_grammar::specs::Expressions::number))]
pub fn number(tokens: &[Token], at: usize) -> Result<(Factor, usize), ReadErr>
    ensures { Reads tokens.now result (spec.number (drop at tokens.now)) }
{
    let place = here(tokens, at)?;
    let (number, at) = whole(tokens, at)?;
    Ok((Factor::Number(place, number), at))
}

/// A character by its code as a factor.
#[tactic(auto, unfolding(dbpl_grammar::specs::Expressions::char_code))]
pub fn char_code(tokens: &[Token], at: usize) -> Result<(Factor, usize), ReadErr>
    ensures { Reads tokens.now result (spec.char_code (drop at tokens.now)) }
{
    let place = here(tokens, at)?;
    let (code, at) = code(tokens, at)?;
    Ok((Factor::CharCode(place, code), at))
}

/// A string as a factor.
#[tactic(auto, unfolding(dbpl_grammar::specs::Expressions::text))]
pub fn text(alloc: Global, tokens: &[Token], at: usize) -> Result<(Factor, usize), ReadErr>
    ensures { Reads tokens.now result (spec.text (drop at tokens.now)) }
{
    let place = here(tokens, at)?;
    let (text, at) = string(alloc, tokens, at)?;
    Ok((Factor::Text(place, text), at))
}
