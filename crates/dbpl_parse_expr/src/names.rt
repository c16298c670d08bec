//! Identifiers, and names of two parts.
ghost use Rattle.std.specs.Prelude.{◌≡◌, ◌∷◌, [], drop};
ghost use Rattle.dbpl_grammar.specs.Expressions as spec;
ghost use Rattle.dbpl_tree.specs.Words as lexeme;
ghost use Rattle.dbpl_grammar.specs.Reading.{after, many};
ghost use Rattle.dbpl_parse_expr.specs.Gives.{Reads};

use crate::ReadErr;
use crate::tokens::{begins_sign, here, name, sign, turns};
use dbpl_base::words::{COMMA, FULL_STOP};
use dbpl_base::{List, Token};
use dbpl_tree::{Ident, Idents, Qual};
use std::alloc::Global;

/// An identifier.
#[tactic(auto, unfolding(dbpl_grammar::specs::Expressions::ident))]
pub fn ident(alloc: Global, tokens: &[Token], at: usize) -> Result<(Ident, usize), ReadErr>
    ensures { Reads tokens.now result (spec.ident (drop at tokens.now)) }
{
    let place = here(tokens, at)?;
    let (name, at) = name(alloc, tokens, at)?;
    Ok((Ident { place, name }, at))
}

/// Further identifiers, each behind a comma.
#[tactic(auto, using(crate::proofs::Loops::loops))]
fn other_idents(alloc: Global, tokens: &[Token], at: usize) -> Result<(List<Ident>, usize), ReadErr>
    ensures { Reads tokens.now result (many (lexeme.comma ∷ []) (after lexeme.comma spec.ident) (drop at tokens.now)) }
{
    let mut found = List::new(alloc);
    let mut next = at;
    for _turn in 0..turns(tokens, at) {
        if !begins_sign(tokens, next, COMMA) {
            return Ok((found, next));
        }
        let behind = sign(tokens, next, COMMA)?;
        let (one, behind) = ident(alloc, tokens, behind)?;
        found.push(one)?;
        next = behind;
    }
    Err(ReadErr::Wrong(next))
}

/// Identifiers with commas between them.
#[tactic(auto, unfolding(dbpl_grammar::specs::Expressions::idents))]
pub fn idents(alloc: Global, tokens: &[Token], at: usize) -> Result<(Idents, usize), ReadErr>
    ensures { Reads tokens.now result (spec.idents (drop at tokens.now)) }
{
    let (first, at) = ident(alloc, tokens, at)?;
    let (others, at) = other_idents(alloc, tokens, at)?;
    Ok((Idents { first, others }, at))
}

/// A name, or the name of a module and one of its names.
#[tactic(auto, unfolding(dbpl_grammar::specs::Expressions::qual))]
pub fn qual(alloc: Global, tokens: &[Token], at: usize) -> Result<(Qual, usize), ReadErr>
    ensures { Reads tokens.now result (spec.qual (drop at tokens.now)) }
{
    let (first, at) = ident(alloc, tokens, at)?;
    if !begins_sign(tokens, at, FULL_STOP) {
        return Ok((
            Qual {
                first,
                second: None,
            },
            at,
        ));
    }
    let at = sign(tokens, at, FULL_STOP)?;
    let (second, at) = ident(alloc, tokens, at)?;
    Ok((
        Qual {
            first,
            second: Some(second),
        },
        at,
    ))
}
