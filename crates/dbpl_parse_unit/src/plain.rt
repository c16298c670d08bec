//! Constants, types and variables.
ghost use Rattle.std.specs.Prelude.{◌≡◌, drop};
ghost use Rattle.dbpl_grammar.specs.Expressions.{at_depth, ident_first};
ghost use Rattle.dbpl_grammar.specs.Reading.{after, closed, many};
ghost use Rattle.dbpl_grammar.specs.Types.{type_at};
ghost use Rattle.dbpl_grammar.specs.Units as spec;
ghost use Rattle.dbpl_parse_expr.specs.Gives.{Reads};
ghost use Rattle.dbpl_tree.specs.Words as lexeme;

use crate::sets::begins_plain;
use dbpl_base::words::{COLON, CONST, EQUALS, SEMICOLON, TYPE, VAR};
use dbpl_base::{List, Token};
use dbpl_parse_expr::ReadErr;
use dbpl_parse_expr::names::{ident, idents};
use dbpl_parse_expr::pair::{closing, pair};
use dbpl_parse_expr::phrases::expr;
use dbpl_parse_expr::sets::begins_ident;
use dbpl_parse_expr::tokens::{begins_word, here, sign, turns, word};
use dbpl_parse_type::type_tree;
use dbpl_tree::{ConstDecl, Expr, PlainDecl, TypeDecl, TypeTree, VarDecl};
use std::alloc::Global;

/// An equal sign, an expression and a semicolon.
#[tactic(auto, using(dbpl_parse_expr::proofs::Pairs::pairs))]
fn value(alloc: Global, tokens: &[Token], at: usize, depth: u8) -> Result<(Expr, usize), ReadErr>
    ensures { Reads tokens.now result (after lexeme.equal_sign (closed (at_depth depth).expr lexeme.semicolon) (drop at tokens.now)) }
{
    let at = sign(tokens, at, EQUALS)?;
    let (found, at) = expr(alloc, tokens, at, depth)?;
    let (found, at) = closing(found, sign(tokens, at, SEMICOLON))?;
    Ok((found, at))
}

/// A constant.
#[tactic(auto, using(dbpl_parse_expr::proofs::Pairs::pairs), unfolding(dbpl_grammar::specs::Units::const_decl))]
fn const_decl(
    alloc: Global,
    tokens: &[Token],
    at: usize,
    depth: u8,
) -> Result<(ConstDecl, usize), ReadErr>
    ensures { Reads tokens.now result (spec.const_decl depth (drop at tokens.now)) }
{
    let (name, at) = ident(alloc, tokens, at)?;
    let ((name, value), at) = pair(name, value(alloc, tokens, at, depth))?;
    Ok((ConstDecl { name, value }, at))
}

/// Constants, as many as there are.
#[tactic(auto, using(dbpl_parse_expr::proofs::Loops::loops))]
fn const_decls(
    alloc: Global,
    tokens: &[Token],
    at: usize,
    depth: u8,
) -> Result<(List<ConstDecl>, usize), ReadErr>
    ensures { Reads tokens.now result (many ident_first (spec.const_decl depth) (drop at tokens.now)) }
{
    let mut found = List::new(alloc);
    let mut next = at;
    for _turn in 0..turns(tokens, at) {
        if !begins_ident(tokens, next) {
            return Ok((found, next));
        }
        let (one, behind) = const_decl(alloc, tokens, next, depth)?;
        found.push(one)?;
        next = behind;
    }
    Err(ReadErr::Wrong(next))
}

/// The word CONST and constants.
#[tactic(auto, unfolding(dbpl_grammar::specs::Units::constants))]
fn constants(
    alloc: Global,
    tokens: &[Token],
    at: usize,
    depth: u8,
) -> Result<(PlainDecl, usize), ReadErr>
    ensures { Reads tokens.now result (spec.constants depth (drop at tokens.now)) }
{
    let place = here(tokens, at)?;
    let at = word(tokens, at, CONST)?;
    let (found, at) = const_decls(alloc, tokens, at, depth)?;
    Ok((PlainDecl::Const(place, found), at))
}

/// A type and a semicolon.
#[tactic(auto, using(dbpl_parse_expr::proofs::Pairs::pairs))]
fn ended_type(
    alloc: Global,
    tokens: &[Token],
    at: usize,
    depth: u8,
) -> Result<(TypeTree, usize), ReadErr>
    ensures { Reads tokens.now result (closed (type_at depth) lexeme.semicolon (drop at tokens.now)) }
{
    let (found, at) = type_tree(alloc, tokens, at, depth)?;
    let (found, at) = closing(found, sign(tokens, at, SEMICOLON))?;
    Ok((found, at))
}

/// A type with its name.
#[tactic(auto, using(dbpl_parse_expr::proofs::Pairs::pairs), unfolding(dbpl_grammar::specs::Units::type_decl))]
fn type_decl(
    alloc: Global,
    tokens: &[Token],
    at: usize,
    depth: u8,
) -> Result<(TypeDecl, usize), ReadErr>
    ensures { Reads tokens.now result (spec.type_decl depth (drop at tokens.now)) }
{
    let (name, at) = ident(alloc, tokens, at)?;
    let (name, at) = closing(name, sign(tokens, at, EQUALS))?;
    let ((name, kind), at) = pair(name, ended_type(alloc, tokens, at, depth))?;
    Ok((TypeDecl { name, kind }, at))
}

/// Types with their names, as many as there are.
#[tactic(auto, using(dbpl_parse_expr::proofs::Loops::loops))]
fn type_decls(
    alloc: Global,
    tokens: &[Token],
    at: usize,
    depth: u8,
) -> Result<(List<TypeDecl>, usize), ReadErr>
    ensures { Reads tokens.now result (many ident_first (spec.type_decl depth) (drop at tokens.now)) }
{
    let mut found = List::new(alloc);
    let mut next = at;
    for _turn in 0..turns(tokens, at) {
        if !begins_ident(tokens, next) {
            return Ok((found, next));
        }
        let (one, behind) = type_decl(alloc, tokens, next, depth)?;
        found.push(one)?;
        next = behind;
    }
    Err(ReadErr::Wrong(next))
}

/// The word TYPE and types with their names.
#[tactic(auto, unfolding(dbpl_grammar::specs::Units::types))]
fn types(
    alloc: Global,
    tokens: &[Token],
    at: usize,
    depth: u8,
) -> Result<(PlainDecl, usize), ReadErr>
    ensures { Reads tokens.now result (spec.types depth (drop at tokens.now)) }
{
    let place = here(tokens, at)?;
    let at = word(tokens, at, TYPE)?;
    let (found, at) = type_decls(alloc, tokens, at, depth)?;
    Ok((PlainDecl::Type(place, found), at))
}

/// Variables of one type.
#[tactic(auto, using(dbpl_parse_expr::proofs::Pairs::pairs), unfolding(dbpl_grammar::specs::Units::var_decl))]
fn var_decl(
    alloc: Global,
    tokens: &[Token],
    at: usize,
    depth: u8,
) -> Result<(VarDecl, usize), ReadErr>
    ensures { Reads tokens.now result (spec.var_decl depth (drop at tokens.now)) }
{
    let (names, at) = idents(alloc, tokens, at)?;
    let (names, at) = closing(names, sign(tokens, at, COLON))?;
    let ((names, kind), at) = pair(names, ended_type(alloc, tokens, at, depth))?;
    Ok((VarDecl { names, kind }, at))
}

/// Variables of one type after another, as many as there are.
#[tactic(auto, using(dbpl_parse_expr::proofs::Loops::loops))]
fn var_decls(
    alloc: Global,
    tokens: &[Token],
    at: usize,
    depth: u8,
) -> Result<(List<VarDecl>, usize), ReadErr>
    ensures { Reads tokens.now result (many ident_first (spec.var_decl depth) (drop at tokens.now)) }
{
    let mut found = List::new(alloc);
    let mut next = at;
    for _turn in 0..turns(tokens, at) {
        if !begins_ident(tokens, next) {
            return Ok((found, next));
        }
        let (one, behind) = var_decl(alloc, tokens, next, depth)?;
        found.push(one)?;
        next = behind;
    }
    Err(ReadErr::Wrong(next))
}

/// The word VAR and variables.
#[tactic(auto, unfolding(dbpl_grammar::specs::Units::variables))]
fn variables(
    alloc: Global,
    tokens: &[Token],
    at: usize,
    depth: u8,
) -> Result<(PlainDecl, usize), ReadErr>
    ensures { Reads tokens.now result (spec.variables depth (drop at tokens.now)) }
{
    let place = here(tokens, at)?;
    let at = word(tokens, at, VAR)?;
    let (found, at) = var_decls(alloc, tokens, at, depth)?;
    Ok((PlainDecl::Var(place, found), at))
}

/// Constants, types or variables.
#[tactic(auto, unfolding(dbpl_grammar::specs::Units::plain_decl))]
pub fn plain_decl(
    alloc: Global,
    tokens: &[Token],
    at: usize,
    depth: u8,
) -> Result<(PlainDecl, usize), ReadErr>
    ensures { Reads tokens.now result (spec.plain_decl depth (drop at tokens.now)) }
{
    if begins_word(tokens, at, CONST) {
        return constants(alloc, tokens, at, depth);
    }
    if begins_word(tokens, at, TYPE) {
        return types(alloc, tokens, at, depth);
    }
    variables(alloc, tokens, at, depth)
}

/// Declarations of constants, types and variables, as many as there are.
#[tactic(auto, using(dbpl_parse_expr::proofs::Loops::loops))]
pub fn plain_decls(
    alloc: Global,
    tokens: &[Token],
    at: usize,
    depth: u8,
) -> Result<(List<PlainDecl>, usize), ReadErr>
    ensures { Reads tokens.now result (many spec.plain_first (spec.plain_decl depth) (drop at tokens.now)) }
{
    let mut found = List::new(alloc);
    let mut next = at;
    for _turn in 0..turns(tokens, at) {
        if !begins_plain(tokens, next) {
            return Ok((found, next));
        }
        let (one, behind) = plain_decl(alloc, tokens, next, depth)?;
        found.push(one)?;
        next = behind;
    }
    Err(ReadErr::Wrong(next))
}
