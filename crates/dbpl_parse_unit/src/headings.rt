//! Headings, and the parameters in them.
ghost use Rattle.std.specs.Prelude.{◌≡◌, ◌∷◌, [], drop};
ghost use Rattle.dbpl_grammar.specs.Expressions.{qual};
ghost use Rattle.dbpl_grammar.specs.Reading.{◌⊗◌, after, flag, leaf, many, optional};
ghost use Rattle.dbpl_grammar.specs.Units as spec;
ghost use Rattle.dbpl_parse_expr.specs.Gives.{Reads};
ghost use Rattle.dbpl_tree.specs.Words as lexeme;

use crate::sets::begins_section;
use dbpl_base::words::{
    COLON, LEFT_PARENTHESIS, PROCEDURE, RIGHT_PARENTHESIS, SEMICOLON, TRANSACTION, VAR,
};
use dbpl_base::{Lexeme, List, Token};
use dbpl_parse_expr::ReadErr;
use dbpl_parse_expr::lists::all_of;
use dbpl_parse_expr::names::{ident, idents, qual};
use dbpl_parse_expr::pair::{closing, pair};
use dbpl_parse_expr::tokens::{begins_sign, begins_word, here, lexeme_at, sign, turns, word};
use dbpl_tree::{Heading, Params, Qual, RoutineWord, Section, Signature};
use std::alloc::Global;

/// Whether the word VAR stands there.
fn by_reference(tokens: &[Token], at: usize) -> Result<(bool, usize), ReadErr>
    ensures { Reads tokens.now result (flag lexeme.word_var (drop at tokens.now)) }
{
    if !begins_word(tokens, at, VAR) {
        return Ok((false, at));
    }
    let at = word(tokens, at, VAR)?;
    Ok((true, at))
}

/// Parameters of one type.
#[tactic(auto, using(dbpl_parse_expr::proofs::Pairs::pairs), unfolding(dbpl_grammar::specs::Units::section))]
fn section(alloc: Global, tokens: &[Token], at: usize) -> Result<(Section, usize), ReadErr>
    ensures { Reads tokens.now result (spec.section (drop at tokens.now)) }
{
    let place = here(tokens, at)?;
    let (by_reference, at) = by_reference(tokens, at)?;
    let (names, at) = idents(alloc, tokens, at)?;
    let (names, at) = closing(names, sign(tokens, at, COLON))?;
    let ((names, kind), at) = pair(names, qual(alloc, tokens, at))?;
    Ok((
        Section {
            place,
            by_reference,
            names,
            kind,
        },
        at,
    ))
}

/// A semicolon and a section.
fn further_section(alloc: Global, tokens: &[Token], at: usize) -> Result<(Section, usize), ReadErr>
    ensures { Reads tokens.now result (after lexeme.semicolon spec.section (drop at tokens.now)) }
{
    let at = sign(tokens, at, SEMICOLON)?;
    section(alloc, tokens, at)
}

/// Further sections, each behind a semicolon.
#[tactic(auto, using(dbpl_parse_expr::proofs::Loops::loops))]
fn other_sections(
    alloc: Global,
    tokens: &[Token],
    at: usize,
) -> Result<(List<Section>, usize), ReadErr>
    ensures { Reads tokens.now result (many (lexeme.semicolon ∷ []) (after lexeme.semicolon spec.section) (drop at tokens.now)) }
{
    let mut found = List::new(alloc);
    let mut next = at;
    for _turn in 0..turns(tokens, at) {
        if !begins_sign(tokens, next, SEMICOLON) {
            return Ok((found, next));
        }
        let (one, behind) = further_section(alloc, tokens, next)?;
        found.push(one)?;
        next = behind;
    }
    Err(ReadErr::Wrong(next))
}

/// The first section and the others, if one begins.
#[tactic(auto, using(dbpl_parse_expr::proofs::Pairs::pairs))]
fn sections(
    alloc: Global,
    tokens: &[Token],
    at: usize,
) -> Result<(Option<(Section, List<Section>)>, usize), ReadErr>
    ensures { Reads tokens.now result (optional spec.section_first (spec.section ⊗ many (lexeme.semicolon ∷ []) (after lexeme.semicolon spec.section)) (drop at tokens.now)) }
{
    if !begins_section(tokens, at) {
        return Ok((None, at));
    }
    let (first, at) = section(alloc, tokens, at)?;
    let ((first, others), at) = pair(first, other_sections(alloc, tokens, at))?;
    Ok((Some((first, others)), at))
}

/// Parameters in parentheses.
#[tactic(auto, using(dbpl_parse_expr::proofs::Pairs::pairs), unfolding(dbpl_grammar::specs::Units::params))]
fn params(alloc: Global, tokens: &[Token], at: usize) -> Result<(Params, usize), ReadErr>
    ensures { Reads tokens.now result (spec.params (drop at tokens.now)) }
{
    let place = here(tokens, at)?;
    let at = sign(tokens, at, LEFT_PARENTHESIS)?;
    let (found, at) = sections(alloc, tokens, at)?;
    let (found, at) = closing(found, sign(tokens, at, RIGHT_PARENTHESIS))?;
    let sections = all_of(alloc, found)?;
    Ok((Params { place, sections }, at))
}

/// Parameters, if there are any.
pub fn optional_params(
    alloc: Global,
    tokens: &[Token],
    at: usize,
) -> Result<(Option<Params>, usize), ReadErr>
    ensures { Reads tokens.now result (optional (lexeme.left_parenthesis ∷ []) spec.params (drop at tokens.now)) }
{
    if !begins_sign(tokens, at, LEFT_PARENTHESIS) {
        return Ok((None, at));
    }
    let (params, at) = params(alloc, tokens, at)?;
    Ok((Some(params), at))
}

/// The type of a function's result, if there is one.
fn optional_result(
    alloc: Global,
    tokens: &[Token],
    at: usize,
) -> Result<(Option<Qual>, usize), ReadErr>
    ensures { Reads tokens.now result (optional (lexeme.colon ∷ []) (after lexeme.colon qual) (drop at tokens.now)) }
{
    if !begins_sign(tokens, at, COLON) {
        return Ok((None, at));
    }
    let at = sign(tokens, at, COLON)?;
    let (kind, at) = qual(alloc, tokens, at)?;
    Ok((Some(kind), at))
}

/// Parameters and the type of the result.
#[tactic(auto, using(dbpl_parse_expr::proofs::Pairs::pairs), unfolding(dbpl_grammar::specs::Units::signature))]
fn signature(alloc: Global, tokens: &[Token], at: usize) -> Result<(Signature, usize), ReadErr>
    ensures { Reads tokens.now result (spec.signature (drop at tokens.now)) }
{
    let (params, at) = params(alloc, tokens, at)?;
    let ((params, result), at) = pair(params, optional_result(alloc, tokens, at))?;
    Ok((Signature { params, result }, at))
}

/// A signature, if there is one.
fn optional_signature(
    alloc: Global,
    tokens: &[Token],
    at: usize,
) -> Result<(Option<Signature>, usize), ReadErr>
    ensures { Reads tokens.now result (optional (lexeme.left_parenthesis ∷ []) spec.signature (drop at tokens.now)) }
{
    if !begins_sign(tokens, at, LEFT_PARENTHESIS) {
        return Ok((None, at));
    }
    let (signature, at) = signature(alloc, tokens, at)?;
    Ok((Some(signature), at))
}

/// The word that a heading begins with.
#[tactic(auto, unfolding(dbpl_grammar::specs::Units::routine_of))]
fn routine_word(tokens: &[Token], at: usize) -> Result<(RoutineWord, usize), ReadErr>
    ensures { Reads tokens.now result (leaf spec.routine_of (drop at tokens.now)) }
{
    match lexeme_at(tokens, at) {
        Some(Lexeme::Reserved(PROCEDURE)) => Ok((RoutineWord::Procedure, at + 1)),
        Some(Lexeme::Reserved(TRANSACTION)) => Ok((RoutineWord::Transaction, at + 1)),
        _ => Err(ReadErr::Wrong(at)),
    }
}

/// A heading.
#[tactic(auto, using(dbpl_parse_expr::proofs::Pairs::pairs), unfolding(dbpl_grammar::specs::Units::heading))]
pub fn heading(alloc: Global, tokens: &[Token], at: usize) -> Result<(Heading, usize), ReadErr>
    ensures { Reads tokens.now result (spec.heading (drop at tokens.now)) }
{
    let place = here(tokens, at)?;
    let (word, at) = routine_word(tokens, at)?;
    let (name, at) = ident(alloc, tokens, at)?;
    let ((name, signature), at) = pair(name, optional_signature(alloc, tokens, at))?;
    Ok((
        Heading {
            place,
            word,
            name,
            signature,
        },
        at,
    ))
}
