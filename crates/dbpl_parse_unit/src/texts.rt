//! Whole texts.
ghost use Rattle.std.specs.Prelude.{◌≡◌, drop};
ghost use Rattle.dbpl_base.specs.declared.lexeme.Lexeme.TheVariants as lexemes;
ghost use Rattle.dbpl_grammar.specs.Reading as reading;
ghost use Rattle.dbpl_grammar.specs.Units as spec;
ghost use Rattle.dbpl_parse_expr.specs.Gives.{Gives, Leads};

use crate::units::unit;
use dbpl_base::limits::PHRASE_DEPTH;
use dbpl_base::{Lexeme, Token};
use dbpl_parse_expr::ReadErr;
use dbpl_parse_expr::pair::closing;
use dbpl_parse_expr::tokens::lexeme_at;
use dbpl_tree::Unit;
use std::alloc::Global;

/// The position behind the end of the text.
fn finish(tokens: &[Token], at: usize) -> Result<usize, ReadErr>
    ensures { Leads tokens.now result (reading.expect lexemes.Finish (drop at tokens.now)) }
{
    match lexeme_at(tokens, at) {
        Some(Lexeme::Finish) => Ok(at + 1),
        _ => Err(ReadErr::Wrong(at)),
    }
}

/// This unit, if nothing stands behind it.
fn at_end(tokens: &[Token], found: Unit, at: usize) -> Result<Unit, ReadErr>
    ensures { Gives (λ unit. unit) tokens.now result (spec.at_end found (drop at tokens.now)) }
{
    match lexeme_at(tokens, at) {
        None => Ok(found),
        Some(_) => Err(ReadErr::Wrong(at)),
    }
}

/// The unit that these tokens are, whose last is the end of the text.
#[tactic(auto, using(dbpl_parse_expr::proofs::Pairs::pairs), unfolding(dbpl_grammar::specs::Units::whole_unit))]
pub fn whole_unit(alloc: Global, tokens: &[Token]) -> Result<Unit, ReadErr>
    ensures { Gives (λ unit. unit) tokens.now result (spec.whole_unit spec.depth_limit tokens.now) }
{
    let (found, at) = unit(alloc, tokens, 0, PHRASE_DEPTH)?;
    let (found, at) = closing(found, finish(tokens, at))?;
    at_end(tokens, found, at)
}
