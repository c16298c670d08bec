//! Statements without statements in them: EXIT, RETURN and nothing.
ghost use Rattle.std.specs.Prelude.{◌≡◌, drop};
ghost use Rattle.dbpl_grammar.specs.Expressions.{at_depth, expr_first};
ghost use Rattle.dbpl_grammar.specs.Reading as reading;
ghost use Rattle.dbpl_grammar.specs.Reading.{optional};
ghost use Rattle.dbpl_grammar.specs.Statements as spec;
ghost use Rattle.dbpl_parse_expr.specs.Gives.{Reads};
ghost use Rattle.dbpl_parse_expr.specs.Made.{made};
ghost use Rattle.dbpl_tree.specs.declared.statement.Statement.TheVariants as statements;

use dbpl_base::Token;
use dbpl_base::words::{EXIT, RETURN};
use dbpl_parse_expr::ReadErr;
use dbpl_parse_expr::phrases::boxed_expr;
use dbpl_parse_expr::sets::begins_expr;
use dbpl_parse_expr::tokens::{here, word};
use dbpl_tree::{BoxedExpr, Statement};
use std::alloc::Global;

/// EXIT.
#[tactic(auto, unfolding(dbpl_grammar::specs::Statements::exit_statement))]
pub fn exit_statement(tokens: &[Token], at: usize) -> Result<(Statement, usize), ReadErr>
    ensures { Reads tokens.now result (spec.exit_statement (drop at tokens.now)) }
{
    let place = here(tokens, at)?;
    let at = word(tokens, at, EXIT)?;
    Ok((Statement::Exit(place), at))
}

/// An expression, if one begins.
fn optional_expr(
    alloc: Global,
    tokens: &[Token],
    at: usize,
    depth: u8,
) -> Result<(Option<BoxedExpr>, usize), ReadErr>
    ensures { Reads tokens.now result (optional expr_first (at_depth depth).expr (drop at tokens.now)) }
{
    if !begins_expr(tokens, at) {
        return Ok((None, at));
    }
    let (found, at) = boxed_expr(alloc, tokens, at, depth)?;
    Ok((Some(found), at))
}

/// RETURN, with a result or without.
#[tactic(auto, unfolding(dbpl_grammar::specs::Statements::return_statement))]
pub fn return_statement(
    alloc: Global,
    tokens: &[Token],
    at: usize,
    depth: u8,
) -> Result<(Statement, usize), ReadErr>
    ensures { Reads tokens.now result (spec.return_statement (at_depth depth) (drop at tokens.now)) }
{
    let place = here(tokens, at)?;
    let at = word(tokens, at, RETURN)?;
    let (value, at) = optional_expr(alloc, tokens, at, depth)?;
    Ok((Statement::Return(place, value), at))
}

/// An empty statement, which stands before any token.
pub fn empty_statement(tokens: &[Token], at: usize) -> Result<(Statement, usize), ReadErr>
    ensures { Reads tokens.now result (made (λ place. statements.Empty place) reading.here (drop at tokens.now)) }
{
    let place = here(tokens, at)?;
    Ok((Statement::Empty(place), at))
}
