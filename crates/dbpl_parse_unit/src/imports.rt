//! What a module takes from others.
ghost use Rattle.std.specs.Prelude.{◌≡◌, drop};
ghost use Rattle.dbpl_grammar.specs.Expressions.{idents};
ghost use Rattle.dbpl_grammar.specs.Reading.{after, closed, many};
ghost use Rattle.dbpl_grammar.specs.Units as spec;
ghost use Rattle.dbpl_parse_expr.specs.Gives.{Reads};
ghost use Rattle.dbpl_tree.specs.Words as lexeme;

use crate::sets::begins_import;
use dbpl_base::words::{FROM, IMPORT, SEMICOLON};
use dbpl_base::{List, Token};
use dbpl_parse_expr::ReadErr;
use dbpl_parse_expr::names::{ident, idents};
use dbpl_parse_expr::pair::{closing, pair};
use dbpl_parse_expr::tokens::{begins_word, here, sign, turns, word};
use dbpl_tree::{Idents, Import};
use std::alloc::Global;

/// The word IMPORT and names.
#[tactic(auto, using(dbpl_parse_expr::proofs::Pairs::pairs))]
fn imported(alloc: Global, tokens: &[Token], at: usize) -> Result<(Idents, usize), ReadErr>
    ensures { Reads tokens.now result (after lexeme.word_import (closed idents lexeme.semicolon) (drop at tokens.now)) }
{
    let at = word(tokens, at, IMPORT)?;
    let (names, at) = idents(alloc, tokens, at)?;
    let (names, at) = closing(names, sign(tokens, at, SEMICOLON))?;
    Ok((names, at))
}

/// Whole modules.
#[tactic(auto, unfolding(dbpl_grammar::specs::Units::import_whole))]
fn import_whole(alloc: Global, tokens: &[Token], at: usize) -> Result<(Import, usize), ReadErr>
    ensures { Reads tokens.now result (spec.import_whole (drop at tokens.now)) }
{
    let place = here(tokens, at)?;
    let (names, at) = imported(alloc, tokens, at)?;
    Ok((Import::Whole(place, names), at))
}

/// Names of one module.
#[tactic(auto, using(dbpl_parse_expr::proofs::Pairs::pairs), unfolding(dbpl_grammar::specs::Units::import_from))]
fn import_from(alloc: Global, tokens: &[Token], at: usize) -> Result<(Import, usize), ReadErr>
    ensures { Reads tokens.now result (spec.import_from (drop at tokens.now)) }
{
    let place = here(tokens, at)?;
    let at = word(tokens, at, FROM)?;
    let (module, at) = ident(alloc, tokens, at)?;
    let ((module, names), at) = pair(module, imported(alloc, tokens, at))?;
    Ok((Import::From(place, module, names), at))
}

/// An import.
#[tactic(auto, unfolding(dbpl_grammar::specs::Units::import))]
fn import(alloc: Global, tokens: &[Token], at: usize) -> Result<(Import, usize), ReadErr>
    ensures { Reads tokens.now result (spec.import (drop at tokens.now)) }
{
    if begins_word(tokens, at, IMPORT) {
        import_whole(alloc, tokens, at)
    } else {
        import_from(alloc, tokens, at)
    }
}

/// Imports, as many as there are.
#[tactic(auto, using(dbpl_parse_expr::proofs::Loops::loops))]
pub fn imports(alloc: Global, tokens: &[Token], at: usize) -> Result<(List<Import>, usize), ReadErr>
    ensures { Reads tokens.now result (many spec.import_first spec.import (drop at tokens.now)) }
{
    let mut found = List::new(alloc);
    let mut next = at;
    for _turn in 0..turns(tokens, at) {
        if !begins_import(tokens, next) {
            return Ok((found, next));
        }
        let (one, behind) = import(alloc, tokens, next)?;
        found.push(one)?;
        next = behind;
    }
    Err(ReadErr::Wrong(next))
}
