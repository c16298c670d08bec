//! Statements that begin with a designator.
ghost use Rattle.std.specs.Prelude.{◌≡◌, drop};
ghost use Rattle.dbpl_grammar.specs.Expressions.{at_depth};
ghost use Rattle.dbpl_grammar.specs.Reading as reading;
ghost use Rattle.dbpl_grammar.specs.Reading.{◌⊗◌, leaf};
ghost use Rattle.dbpl_grammar.specs.Statements as spec;
ghost use Rattle.dbpl_parse_expr.specs.Gives.{Reads};

use crate::sets::begins_change;
use dbpl_base::words::{ADD, BECOMES, REMOVE, REPLACE};
use dbpl_base::{Lexeme, Place, Token};
use dbpl_parse_expr::ReadErr;
use dbpl_parse_expr::pair::pair;
use dbpl_parse_expr::phrases::{boxed_expr, designator, optional_arguments};
use dbpl_parse_expr::tokens::{here, lexeme_at};
use dbpl_tree::{BoxedExpr, ChangeOperator, Statement};
use std::alloc::Global;

/// What changes a target.
#[tactic(auto, unfolding(dbpl_grammar::specs::Statements::change_of))]
fn change(tokens: &[Token], at: usize) -> Result<(ChangeOperator, usize), ReadErr>
    ensures { Reads tokens.now result (leaf spec.change_of (drop at tokens.now)) }
{
    match lexeme_at(tokens, at) {
        Some(Lexeme::Sign(BECOMES)) => Ok((ChangeOperator::Becomes, at + 1)),
        Some(Lexeme::Sign(ADD)) => Ok((ChangeOperator::Add, at + 1)),
        Some(Lexeme::Sign(REMOVE)) => Ok((ChangeOperator::Remove, at + 1)),
        Some(Lexeme::Sign(REPLACE)) => Ok((ChangeOperator::Replace, at + 1)),
        _ => Err(ReadErr::Wrong(at)),
    }
}

/// The operator that changes a target, and its right side.
fn changed(
    alloc: Global,
    tokens: &[Token],
    at: usize,
    depth: u8,
) -> Result<((Place, (ChangeOperator, BoxedExpr)), usize), ReadErr>
    ensures { Reads tokens.now result ((reading.here ⊗ leaf spec.change_of ⊗ (at_depth depth).expr) (drop at tokens.now)) }
{
    let place = here(tokens, at)?;
    let (operator, at) = change(tokens, at)?;
    let (right, at) = boxed_expr(alloc, tokens, at, depth)?;
    Ok(((place, (operator, right)), at))
}

/// A change of a target, or a call.
#[tactic(auto, using(dbpl_parse_expr::proofs::Pairs::pairs), unfolding(dbpl_grammar::specs::Statements::action, dbpl_grammar::specs::Statements::acts))]
pub fn action(
    alloc: Global,
    tokens: &[Token],
    at: usize,
    depth: u8,
) -> Result<(Statement, usize), ReadErr>
    ensures { Reads tokens.now result (spec.action (at_depth depth) (drop at tokens.now)) }
{
    let (target, at) = designator(alloc, tokens, at, depth)?;
    if begins_change(tokens, at) {
        let ((target, (place, (operator, right))), at) = pair(
            target,
            changed(alloc, tokens, at, depth),
        )?;
        return Ok((Statement::Change(target, place, operator, right), at));
    }
    let ((target, arguments), at) = pair(target, optional_arguments(alloc, tokens, at, depth))?;
    Ok((Statement::Call(target, arguments), at))
}
