//! The kinds of modules.
ghost use Rattle.std.specs.Prelude.{◌≡◌, drop};
ghost use Rattle.dbpl_grammar.specs.Expressions.{ident};
ghost use Rattle.dbpl_grammar.specs.Reading.{◌⊗◌, after, closed, many};
ghost use Rattle.dbpl_grammar.specs.Units as spec;
ghost use Rattle.dbpl_parse_expr.specs.Gives.{Reads};
ghost use Rattle.dbpl_tree.specs.Words as lexeme;

use crate::commons::commons;
use crate::imports::imports;
use crate::routines::{body, decls, definition_items};
use dbpl_base::words::{DATABASE, DEFINITION, END, FULL_STOP, MODULE, SEMICOLON};
use dbpl_base::{List, Token};
use dbpl_parse_expr::ReadErr;
use dbpl_parse_expr::names::ident;
use dbpl_parse_expr::pair::{closing, pair};
use dbpl_parse_expr::tokens::{here, sign, word};
use dbpl_tree::{
    Common, DataUnit, Decl, DefinitionItem, DefinitionUnit, Ident, Import, Program, Statements,
};
use std::alloc::Global;

/// The name behind the word END.
#[tactic(auto, using(dbpl_parse_expr::proofs::Pairs::pairs))]
fn module_end(alloc: Global, tokens: &[Token], at: usize) -> Result<(Ident, usize), ReadErr>
    ensures { Reads tokens.now result (after lexeme.word_end (closed ident lexeme.full_stop) (drop at tokens.now)) }
{
    let at = word(tokens, at, END)?;
    let (name, at) = ident(alloc, tokens, at)?;
    let (name, at) = closing(name, sign(tokens, at, FULL_STOP))?;
    Ok((name, at))
}

/// What follows the declarations of a program: a body and an end.
#[tactic(auto, using(dbpl_parse_expr::proofs::Pairs::pairs))]
fn program_end(
    alloc: Global,
    tokens: &[Token],
    at: usize,
    depth: u8,
) -> Result<((Option<Statements>, Ident), usize), ReadErr>
    ensures { Reads tokens.now result ((spec.body depth ⊗ after lexeme.word_end (closed ident lexeme.full_stop)) (drop at tokens.now)) }
{
    let (body, at) = body(alloc, tokens, at, depth)?;
    let ((body, end_name), at) = pair(body, module_end(alloc, tokens, at))?;
    Ok(((body, end_name), at))
}

/// What follows the name of a program: imports, declarations, a body and an end.
#[tactic(auto, using(dbpl_parse_expr::proofs::Pairs::pairs))]
fn program_rest(
    alloc: Global,
    tokens: &[Token],
    at: usize,
    depth: u8,
) -> Result<
    (
        (List<Import>, (List<Decl>, (Option<Statements>, Ident))),
        usize,
    ),
    ReadErr,
>
    ensures { Reads tokens.now result ((many spec.import_first spec.import ⊗ many spec.decl_first (spec.decl depth) ⊗ spec.body depth ⊗ after lexeme.word_end (closed ident lexeme.full_stop)) (drop at tokens.now)) }
{
    let (imports, at) = imports(alloc, tokens, at)?;
    let ((imports, declarations), at) = pair(imports, decls(alloc, tokens, at, depth))?;
    let (((imports, declarations), (body, end_name)), at) = pair(
        (imports, declarations),
        program_end(alloc, tokens, at, depth),
    )?;
    Ok(((imports, (declarations, (body, end_name))), at))
}

/// A program, or an implementation without its first word.
#[tactic(auto, using(dbpl_parse_expr::proofs::Pairs::pairs), unfolding(dbpl_grammar::specs::Units::program))]
pub fn program(
    alloc: Global,
    tokens: &[Token],
    at: usize,
    depth: u8,
) -> Result<(Program, usize), ReadErr>
    ensures { Reads tokens.now result (spec.program depth (drop at tokens.now)) }
{
    let place = here(tokens, at)?;
    let at = word(tokens, at, MODULE)?;
    let (name, at) = ident(alloc, tokens, at)?;
    let (name, at) = closing(name, sign(tokens, at, SEMICOLON))?;
    let ((name, (imports, (declarations, (body, end_name)))), at) = pair(
        name,
        program_rest(alloc, tokens, at, depth),
    )?;
    Ok((
        Program {
            place,
            name,
            imports,
            declarations,
            body,
            end_name,
        },
        at,
    ))
}

/// What follows the name of a definition module: imports, declarations and an end.
#[tactic(auto, using(dbpl_parse_expr::proofs::Pairs::pairs))]
fn definition_rest(
    alloc: Global,
    tokens: &[Token],
    at: usize,
    depth: u8,
) -> Result<((List<Import>, (List<DefinitionItem>, Ident)), usize), ReadErr>
    ensures { Reads tokens.now result ((many spec.import_first spec.import ⊗ many spec.decl_first (spec.definition_item depth) ⊗ after lexeme.word_end (closed ident lexeme.full_stop)) (drop at tokens.now)) }
{
    let (imports, at) = imports(alloc, tokens, at)?;
    let ((imports, items), at) = pair(imports, definition_items(alloc, tokens, at, depth))?;
    let (((imports, items), end_name), at) = pair((imports, items), module_end(alloc, tokens, at))?;
    Ok(((imports, (items, end_name)), at))
}

/// A definition module.
#[tactic(auto, using(dbpl_parse_expr::proofs::Pairs::pairs), unfolding(dbpl_grammar::specs::Units::definition_unit))]
pub fn definition_unit(
    alloc: Global,
    tokens: &[Token],
    at: usize,
    depth: u8,
) -> Result<(DefinitionUnit, usize), ReadErr>
    ensures { Reads tokens.now result (spec.definition_unit depth (drop at tokens.now)) }
{
    let place = here(tokens, at)?;
    let at = word(tokens, at, DEFINITION)?;
    let at = word(tokens, at, MODULE)?;
    let (name, at) = ident(alloc, tokens, at)?;
    let (name, at) = closing(name, sign(tokens, at, SEMICOLON))?;
    let ((name, (imports, (items, end_name))), at) = pair(
        name,
        definition_rest(alloc, tokens, at, depth),
    )?;
    Ok((
        DefinitionUnit {
            place,
            name,
            imports,
            items,
            end_name,
        },
        at,
    ))
}

/// What follows the name of a database module: imports, declarations and an end.
#[tactic(auto, using(dbpl_parse_expr::proofs::Pairs::pairs))]
fn data_rest(
    alloc: Global,
    tokens: &[Token],
    at: usize,
    depth: u8,
) -> Result<((List<Import>, (List<Common>, Ident)), usize), ReadErr>
    ensures { Reads tokens.now result ((many spec.import_first spec.import ⊗ many spec.common_first (spec.common depth) ⊗ after lexeme.word_end (closed ident lexeme.full_stop)) (drop at tokens.now)) }
{
    let (imports, at) = imports(alloc, tokens, at)?;
    let ((imports, items), at) = pair(imports, commons(alloc, tokens, at, depth))?;
    let (((imports, items), end_name), at) = pair((imports, items), module_end(alloc, tokens, at))?;
    Ok(((imports, (items, end_name)), at))
}

/// A database module.
#[tactic(auto, using(dbpl_parse_expr::proofs::Pairs::pairs), unfolding(dbpl_grammar::specs::Units::data_unit))]
pub fn data_unit(
    alloc: Global,
    tokens: &[Token],
    at: usize,
    depth: u8,
) -> Result<(DataUnit, usize), ReadErr>
    ensures { Reads tokens.now result (spec.data_unit depth (drop at tokens.now)) }
{
    let place = here(tokens, at)?;
    let at = word(tokens, at, DATABASE)?;
    let at = word(tokens, at, MODULE)?;
    let (name, at) = ident(alloc, tokens, at)?;
    let (name, at) = closing(name, sign(tokens, at, SEMICOLON))?;
    let ((name, (imports, (items, end_name))), at) = pair(
        name,
        data_rest(alloc, tokens, at, depth),
    )?;
    Ok((
        DataUnit {
            place,
            name,
            imports,
            items,
            end_name,
        },
        at,
    ))
}
