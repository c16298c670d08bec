//! The phrases of which only so many may stand inside one another, and what is read with these in it.
ghost use Rattle.std.specs.Prelude.{◌≡◌, ◌∷◌, [], drop, if◌then◌else◌};
ghost use Rattle.dbpl_grammar.specs.Expressions as spec;
ghost use Rattle.dbpl_grammar.specs.Reading.{optional};
ghost use Rattle.dbpl_parse_expr.specs.Gives.{Reads};
ghost use Rattle.dbpl_tree.specs.Words as lexeme;

use crate::ReadErr;
use crate::inner::Inner;
use crate::sets::{begins_expr, begins_ident, begins_negated};
use crate::tokens::begins_sign;
use dbpl_base::words::LEFT_PARENTHESIS;
use dbpl_base::{Place, Token};
use dbpl_tree::{
    Aggregate, BoxedArguments, BoxedExpr, BoxedRange, Designator, Expr, Factor, NotOperator, Range,
};
use std::alloc::Global;

/// Why no phrase stands where no more may stand inside one another.
pub fn too_deep(at: usize, begins: bool) -> ReadErr
    ensures { result ≡ (if begins then ReadErr.Deep at else ReadErr.Wrong at) }
{
    if begins {
        ReadErr::Deep(at)
    } else {
        ReadErr::Wrong(at)
    }
}

/// An expression.
#[cycle(phrases)]
pub fn expr(alloc: Global, tokens: &[Token], at: usize, depth: u8) -> Result<(Expr, usize), ReadErr>
    ensures { Reads tokens.now result ((spec.at_depth depth).expr (drop at tokens.now)) }
{
    if depth == 0 {
        return Err(too_deep(at, begins_expr(tokens, at)));
    }
    let inner = Inner {
        alloc,
        depth: depth - 1,
        expr,
        range,
        negated,
    };
    inner.whole_expr(tokens, at)
}

/// A range.
#[cycle(phrases)]
pub fn range(
    alloc: Global,
    tokens: &[Token],
    at: usize,
    depth: u8,
) -> Result<(Range, usize), ReadErr>
    ensures { Reads tokens.now result ((spec.at_depth depth).range (drop at tokens.now)) }
{
    if depth == 0 {
        return Err(too_deep(at, begins_ident(tokens, at)));
    }
    let inner = Inner {
        alloc,
        depth: depth - 1,
        expr,
        range,
        negated,
    };
    inner.whole_range(tokens, at)
}

/// An operator that negates, and its factor.
#[cycle(phrases)]
fn negated(
    alloc: Global,
    tokens: &[Token],
    at: usize,
    depth: u8,
) -> Result<((Place, (NotOperator, Factor)), usize), ReadErr>
    ensures { Reads tokens.now result ((spec.at_depth depth).negated (drop at tokens.now)) }
{
    if depth == 0 {
        return Err(too_deep(at, begins_negated(tokens, at)));
    }
    let inner = Inner {
        alloc,
        depth: depth - 1,
        expr,
        range,
        negated,
    };
    inner.whole_negated(tokens, at)
}

/// An expression in a box of its own.
pub fn boxed_expr(
    alloc: Global,
    tokens: &[Token],
    at: usize,
    depth: u8,
) -> Result<(BoxedExpr, usize), ReadErr>
    ensures { Reads tokens.now result ((spec.at_depth depth).expr (drop at tokens.now)) }
{
    let (found, at) = expr(alloc, tokens, at, depth)?;
    Ok((BoxedExpr::new(alloc, found)?, at))
}

/// A range in a box of its own.
pub fn boxed_range(
    alloc: Global,
    tokens: &[Token],
    at: usize,
    depth: u8,
) -> Result<(BoxedRange, usize), ReadErr>
    ensures { Reads tokens.now result ((spec.at_depth depth).range (drop at tokens.now)) }
{
    let (found, at) = range(alloc, tokens, at, depth)?;
    Ok((BoxedRange::new(alloc, found)?, at))
}

/// A designator, in which so many phrases may stand inside one another.
pub fn designator(
    alloc: Global,
    tokens: &[Token],
    at: usize,
    depth: u8,
) -> Result<(Designator, usize), ReadErr>
    ensures { Reads tokens.now result (spec.designator (spec.at_depth depth).expr (drop at tokens.now)) }
{
    let inner = Inner {
        alloc,
        depth,
        expr,
        range,
        negated,
    };
    inner.designator(tokens, at)
}

/// The arguments of a call, if there are any.
pub fn optional_arguments(
    alloc: Global,
    tokens: &[Token],
    at: usize,
    depth: u8,
) -> Result<(Option<BoxedArguments>, usize), ReadErr>
    ensures { Reads tokens.now result (optional (lexeme.left_parenthesis ∷ []) (spec.arguments (spec.at_depth depth).expr) (drop at tokens.now)) }
{
    if !begins_sign(tokens, at, LEFT_PARENTHESIS) {
        return Ok((None, at));
    }
    let inner = Inner {
        alloc,
        depth,
        expr,
        range,
        negated,
    };
    let (found, at) = inner.arguments(tokens, at)?;
    Ok((Some(BoxedArguments::new(alloc, found)?), at))
}

/// An aggregate, in which so many phrases may stand inside one another.
pub fn aggregate(
    alloc: Global,
    tokens: &[Token],
    at: usize,
    depth: u8,
) -> Result<(Aggregate, usize), ReadErr>
    ensures { Reads tokens.now result (spec.aggregate (spec.at_depth depth) (drop at tokens.now)) }
{
    let inner = Inner {
        alloc,
        depth,
        expr,
        range,
        negated,
    };
    inner.aggregate(tokens, at)
}
