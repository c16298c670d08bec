//! What every kind of module may declare.
ghost use Rattle.std.specs.Prelude.{◌≡◌, drop};
ghost use Rattle.dbpl_grammar.specs.Expressions.{aggregate, at_depth, ident, qual};
ghost use Rattle.dbpl_grammar.specs.Reading.{◌⊗◌, after, closed, many};
ghost use Rattle.dbpl_grammar.specs.Units as spec;
ghost use Rattle.dbpl_parse_expr.specs.Gives.{Reads};
ghost use Rattle.dbpl_tree.specs.Words as lexeme;

use crate::headings::optional_params;
use crate::plain::plain_decl;
use crate::sets::begins_common;
use dbpl_base::words::{COLON, CONSTRUCTOR, FOR, IN, SELECTOR, SEMICOLON};
use dbpl_base::{List, Token};
use dbpl_parse_expr::ReadErr;
use dbpl_parse_expr::names::{ident, qual};
use dbpl_parse_expr::pair::{closing, pair};
use dbpl_parse_expr::phrases::{aggregate, boxed_expr};
use dbpl_parse_expr::tokens::{begins_word, here, sign, turns, word};
use dbpl_tree::{Aggregate, BoxedExpr, Common, Ident, Qual};
use std::alloc::Global;

/// A colon, what is to hold, and a semicolon.
#[tactic(auto, using(dbpl_parse_expr::proofs::Pairs::pairs))]
fn predicate(
    alloc: Global,
    tokens: &[Token],
    at: usize,
    depth: u8,
) -> Result<(BoxedExpr, usize), ReadErr>
    ensures { Reads tokens.now result (after lexeme.colon (closed (at_depth depth).expr lexeme.semicolon) (drop at tokens.now)) }
{
    let at = sign(tokens, at, COLON)?;
    let (found, at) = boxed_expr(alloc, tokens, at, depth)?;
    let (found, at) = closing(found, sign(tokens, at, SEMICOLON))?;
    Ok((found, at))
}

/// What a selector selects from, and where its predicate holds.
#[tactic(auto, using(dbpl_parse_expr::proofs::Pairs::pairs))]
fn selected(
    alloc: Global,
    tokens: &[Token],
    at: usize,
    depth: u8,
) -> Result<((Ident, (Qual, BoxedExpr)), usize), ReadErr>
    ensures { Reads tokens.now result (after lexeme.word_for (ident ⊗ after lexeme.word_in (qual ⊗ after lexeme.colon (closed (at_depth depth).expr lexeme.semicolon))) (drop at tokens.now)) }
{
    let at = word(tokens, at, FOR)?;
    let (variable, at) = ident(alloc, tokens, at)?;
    let (variable, at) = closing(variable, word(tokens, at, IN))?;
    let ((variable, kind), at) = pair(variable, qual(alloc, tokens, at))?;
    let (((variable, kind), predicate), at) = pair(
        (variable, kind),
        predicate(alloc, tokens, at, depth),
    )?;
    Ok(((variable, (kind, predicate)), at))
}

/// A selector.
#[tactic(auto, using(dbpl_parse_expr::proofs::Pairs::pairs), unfolding(dbpl_grammar::specs::Units::selector))]
fn selector(
    alloc: Global,
    tokens: &[Token],
    at: usize,
    depth: u8,
) -> Result<(Common, usize), ReadErr>
    ensures { Reads tokens.now result (spec.selector depth (drop at tokens.now)) }
{
    let place = here(tokens, at)?;
    let at = word(tokens, at, SELECTOR)?;
    let (name, at) = ident(alloc, tokens, at)?;
    let ((name, params), at) = pair(name, optional_params(alloc, tokens, at))?;
    let (((name, params), (variable, (kind, predicate))), at) = pair(
        (name, params),
        selected(alloc, tokens, at, depth),
    )?;
    Ok((
        Common::Selector(place, name, params, variable, kind, predicate),
        at,
    ))
}

/// The aggregate that a constructor makes.
#[tactic(auto, using(dbpl_parse_expr::proofs::Pairs::pairs))]
fn constructed(
    alloc: Global,
    tokens: &[Token],
    at: usize,
    depth: u8,
) -> Result<(Aggregate, usize), ReadErr>
    ensures { Reads tokens.now result (after lexeme.colon (closed (aggregate (at_depth depth)) lexeme.semicolon) (drop at tokens.now)) }
{
    let at = sign(tokens, at, COLON)?;
    let (found, at) = aggregate(alloc, tokens, at, depth)?;
    let (found, at) = closing(found, sign(tokens, at, SEMICOLON))?;
    Ok((found, at))
}

/// A constructor.
#[tactic(auto, using(dbpl_parse_expr::proofs::Pairs::pairs), unfolding(dbpl_grammar::specs::Units::constructor))]
fn constructor(
    alloc: Global,
    tokens: &[Token],
    at: usize,
    depth: u8,
) -> Result<(Common, usize), ReadErr>
    ensures { Reads tokens.now result (spec.constructor depth (drop at tokens.now)) }
{
    let place = here(tokens, at)?;
    let at = word(tokens, at, CONSTRUCTOR)?;
    let (name, at) = ident(alloc, tokens, at)?;
    let ((name, params), at) = pair(name, optional_params(alloc, tokens, at))?;
    let (((name, params), made), at) = pair((name, params), constructed(alloc, tokens, at, depth))?;
    Ok((Common::Constructor(place, name, params, made), at))
}

/// A declaration that every kind of module may have.
#[tactic(auto, unfolding(dbpl_grammar::specs::Units::common))]
pub fn common(
    alloc: Global,
    tokens: &[Token],
    at: usize,
    depth: u8,
) -> Result<(Common, usize), ReadErr>
    ensures { Reads tokens.now result (spec.common depth (drop at tokens.now)) }
{
    if begins_word(tokens, at, SELECTOR) {
        return selector(alloc, tokens, at, depth);
    }
    if begins_word(tokens, at, CONSTRUCTOR) {
        return constructor(alloc, tokens, at, depth);
    }
    let (found, at) = plain_decl(alloc, tokens, at, depth)?;
    Ok((Common::Plain(found), at))
}

/// Declarations that every kind of module may have, as many as there are.
#[tactic(auto, using(dbpl_parse_expr::proofs::Loops::loops))]
pub fn commons(
    alloc: Global,
    tokens: &[Token],
    at: usize,
    depth: u8,
) -> Result<(List<Common>, usize), ReadErr>
    ensures { Reads tokens.now result (many spec.common_first (spec.common depth) (drop at tokens.now)) }
{
    let mut found = List::new(alloc);
    let mut next = at;
    for _turn in 0..turns(tokens, at) {
        if !begins_common(tokens, next) {
            return Ok((found, next));
        }
        let (one, behind) = common(alloc, tokens, next, depth)?;
        found.push(one)?;
        next = behind;
    }
    Err(ReadErr::Wrong(next))
}
