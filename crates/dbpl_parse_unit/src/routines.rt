//! Procedures and transactions, and the declarations of the modules that have them.
ghost use Rattle.std.specs.Prelude.{◌≡◌, drop};
ghost use Rattle.dbpl_grammar.specs.Expressions.{ident};
ghost use Rattle.dbpl_grammar.specs.Reading.{◌⊗◌, after, closed, here, many};
ghost use Rattle.dbpl_grammar.specs.Units as spec;
ghost use Rattle.dbpl_parse_expr.specs.Gives.{Reads};
ghost use Rattle.dbpl_parse_expr.specs.Made.{made};
ghost use Rattle.dbpl_tree.specs.Words as lexeme;
ghost use Rattle.dbpl_tree.specs.declared.decl.DefinitionItem.TheVariants as items;

use crate::commons::common;
use crate::headings::heading;
use crate::plain::plain_decls;
use crate::sets::{begins_decl, begins_routine};
use dbpl_base::words::{BEGIN, END, SEMICOLON};
use dbpl_base::{Boxed, List, Place, Token};
use dbpl_parse_expr::ReadErr;
use dbpl_parse_expr::names::ident;
use dbpl_parse_expr::pair::{closing, pair};
use dbpl_parse_expr::tokens::{begins_word, here, sign, turns, word};
use dbpl_parse_statement::statements;
use dbpl_tree::{Decl, DefinitionItem, Heading, Ident, PlainDecl, Routine, Statements};
use std::alloc::Global;

/// The word BEGIN and statements, where they stand.
#[tactic(auto, unfolding(dbpl_grammar::specs::Units::body))]
pub fn body(
    alloc: Global,
    tokens: &[Token],
    at: usize,
    depth: u8,
) -> Result<(Option<Statements>, usize), ReadErr>
    ensures { Reads tokens.now result (spec.body depth (drop at tokens.now)) }
{
    if !begins_word(tokens, at, BEGIN) {
        return Ok((None, at));
    }
    let at = word(tokens, at, BEGIN)?;
    let (found, at) = statements(alloc, tokens, at, depth)?;
    Ok((Some(found), at))
}

/// The place of the word END, and the name behind it.
#[tactic(auto, using(dbpl_parse_expr::proofs::Pairs::pairs))]
fn routine_end(
    alloc: Global,
    tokens: &[Token],
    at: usize,
) -> Result<((Place, Ident), usize), ReadErr>
    ensures { Reads tokens.now result ((here ⊗ after lexeme.word_end (closed ident lexeme.semicolon)) (drop at tokens.now)) }
{
    let place = here(tokens, at)?;
    let at = word(tokens, at, END)?;
    let (name, at) = ident(alloc, tokens, at)?;
    let (name, at) = closing(name, sign(tokens, at, SEMICOLON))?;
    Ok(((place, name), at))
}

/// A body and an end.
#[tactic(auto, using(dbpl_parse_expr::proofs::Pairs::pairs))]
fn ended_body(
    alloc: Global,
    tokens: &[Token],
    at: usize,
    depth: u8,
) -> Result<((Option<Statements>, (Place, Ident)), usize), ReadErr>
    ensures { Reads tokens.now result ((spec.body depth ⊗ here ⊗ after lexeme.word_end (closed ident lexeme.semicolon)) (drop at tokens.now)) }
{
    let (body, at) = body(alloc, tokens, at, depth)?;
    let ((body, end), at) = pair(body, routine_end(alloc, tokens, at))?;
    Ok(((body, end), at))
}

/// What follows a heading: declarations, a body and an end.
#[tactic(auto, using(dbpl_parse_expr::proofs::Pairs::pairs))]
fn routine_rest(
    alloc: Global,
    tokens: &[Token],
    at: usize,
    depth: u8,
) -> Result<
    (
        (List<PlainDecl>, (Option<Statements>, (Place, Ident))),
        usize,
    ),
    ReadErr,
>
    ensures { Reads tokens.now result ((many spec.plain_first (spec.plain_decl depth) ⊗ spec.body depth ⊗ here ⊗ after lexeme.word_end (closed ident lexeme.semicolon)) (drop at tokens.now)) }
{
    let (declarations, at) = plain_decls(alloc, tokens, at, depth)?;
    let ((declarations, rest), at) = pair(declarations, ended_body(alloc, tokens, at, depth))?;
    Ok(((declarations, rest), at))
}

/// A heading and the semicolon behind it.
#[tactic(auto, using(dbpl_parse_expr::proofs::Pairs::pairs))]
fn ended_heading(alloc: Global, tokens: &[Token], at: usize) -> Result<(Heading, usize), ReadErr>
    ensures { Reads tokens.now result (closed spec.heading lexeme.semicolon (drop at tokens.now)) }
{
    let (found, at) = heading(alloc, tokens, at)?;
    let (found, at) = closing(found, sign(tokens, at, SEMICOLON))?;
    Ok((found, at))
}

/// A procedure or a transaction.
#[tactic(auto, using(dbpl_parse_expr::proofs::Pairs::pairs), unfolding(dbpl_grammar::specs::Units::routine))]
fn routine(
    alloc: Global,
    tokens: &[Token],
    at: usize,
    depth: u8,
) -> Result<(Routine, usize), ReadErr>
    ensures { Reads tokens.now result (spec.routine depth (drop at tokens.now)) }
{
    let (heading, at) = ended_heading(alloc, tokens, at)?;
    let ((heading, (declarations, (body, (end, end_name)))), at) = pair(
        heading,
        routine_rest(alloc, tokens, at, depth),
    )?;
    Ok((
        Routine {
            heading,
            declarations,
            body,
            end,
            end_name,
        },
        at,
    ))
}

/// A declaration of a module that has a body.
#[tactic(auto, unfolding(dbpl_grammar::specs::Units::decl))]
fn decl(alloc: Global, tokens: &[Token], at: usize, depth: u8) -> Result<(Decl, usize), ReadErr>
    ensures { Reads tokens.now result (spec.decl depth (drop at tokens.now)) }
{
    if begins_routine(tokens, at) {
        let (found, at) = routine(alloc, tokens, at, depth)?;
        return Ok((Decl::Routine(Boxed::new(alloc, found)?), at));
    }
    let (found, at) = common(alloc, tokens, at, depth)?;
    Ok((Decl::Common(found), at))
}

/// Declarations of a module that has a body, as many as there are.
#[tactic(auto, using(dbpl_parse_expr::proofs::Loops::loops))]
pub fn decls(
    alloc: Global,
    tokens: &[Token],
    at: usize,
    depth: u8,
) -> Result<(List<Decl>, usize), ReadErr>
    ensures { Reads tokens.now result (many spec.decl_first (spec.decl depth) (drop at tokens.now)) }
{
    let mut found = List::new(alloc);
    let mut next = at;
    for _turn in 0..turns(tokens, at) {
        if !begins_decl(tokens, next) {
            return Ok((found, next));
        }
        let (one, behind) = decl(alloc, tokens, next, depth)?;
        found.push(one)?;
        next = behind;
    }
    Err(ReadErr::Wrong(next))
}

/// A heading with the semicolon behind it, as a declaration.
fn heading_item(
    alloc: Global,
    tokens: &[Token],
    at: usize,
) -> Result<(DefinitionItem, usize), ReadErr>
    ensures { Reads tokens.now result (made items.Heading (closed spec.heading lexeme.semicolon) (drop at tokens.now)) }
{
    let (found, at) = ended_heading(alloc, tokens, at)?;
    Ok((DefinitionItem::Heading(found), at))
}

/// A declaration of a definition module.
#[tactic(auto, unfolding(dbpl_grammar::specs::Units::definition_item))]
fn definition_item(
    alloc: Global,
    tokens: &[Token],
    at: usize,
    depth: u8,
) -> Result<(DefinitionItem, usize), ReadErr>
    ensures { Reads tokens.now result (spec.definition_item depth (drop at tokens.now)) }
{
    if begins_routine(tokens, at) {
        return heading_item(alloc, tokens, at);
    }
    let (found, at) = common(alloc, tokens, at, depth)?;
    Ok((DefinitionItem::Common(found), at))
}

/// Declarations of a definition module, as many as there are.
#[tactic(auto, using(dbpl_parse_expr::proofs::Loops::loops))]
pub fn definition_items(
    alloc: Global,
    tokens: &[Token],
    at: usize,
    depth: u8,
) -> Result<(List<DefinitionItem>, usize), ReadErr>
    ensures { Reads tokens.now result (many spec.decl_first (spec.definition_item depth) (drop at tokens.now)) }
{
    let mut found = List::new(alloc);
    let mut next = at;
    for _turn in 0..turns(tokens, at) {
        if !begins_decl(tokens, next) {
            return Ok((found, next));
        }
        let (one, behind) = definition_item(alloc, tokens, next, depth)?;
        found.push(one)?;
        next = behind;
    }
    Err(ReadErr::Wrong(next))
}
