//! Types that have no types in them.
ghost use Rattle.std.specs.Prelude.{◌≡◌, drop};
ghost use Rattle.dbpl_grammar.specs.Expressions.{at_depth, qual as reads_qual};
ghost use Rattle.dbpl_grammar.specs.Reading.{◌⊗◌, after, closed};
ghost use Rattle.dbpl_grammar.specs.Types as spec;
ghost use Rattle.dbpl_parse_expr.specs.Gives.{Reads};
ghost use Rattle.dbpl_parse_expr.specs.Made.{made};
ghost use Rattle.dbpl_tree.specs.Words as lexeme;
ghost use Rattle.dbpl_tree.specs.declared.type_tree.TypeTree.TheVariants as types;

use dbpl_base::Token;
use dbpl_base::words::{
    ELLIPSIS, LEFT_BRACKET, LEFT_PARENTHESIS, OF, RELATION, RIGHT_BRACKET, RIGHT_PARENTHESIS,
};
use dbpl_parse_expr::ReadErr;
use dbpl_parse_expr::names::{idents, qual};
use dbpl_parse_expr::pair::{closing, pair};
use dbpl_parse_expr::phrases::boxed_expr;
use dbpl_parse_expr::tokens::{here, sign, word};
use dbpl_tree::{BoxedExpr, TypeTree};
use std::alloc::Global;

/// A type whose values are listed by name.
#[tactic(auto, using(dbpl_parse_expr::proofs::Pairs::pairs), unfolding(dbpl_grammar::specs::Types::enumeration))]
pub fn enumeration(alloc: Global, tokens: &[Token], at: usize) -> Result<(TypeTree, usize), ReadErr>
    ensures { Reads tokens.now result (spec.enumeration (drop at tokens.now)) }
{
    let place = here(tokens, at)?;
    let at = sign(tokens, at, LEFT_PARENTHESIS)?;
    let (names, at) = idents(alloc, tokens, at)?;
    let (names, at) = closing(names, sign(tokens, at, RIGHT_PARENTHESIS))?;
    Ok((TypeTree::Enumeration(place, names), at))
}

/// What stands behind the lower bound of a subrange, with the upper one.
#[tactic(auto, using(dbpl_parse_expr::proofs::Pairs::pairs))]
fn upper_bound(
    alloc: Global,
    tokens: &[Token],
    at: usize,
    depth: u8,
) -> Result<(BoxedExpr, usize), ReadErr>
    ensures { Reads tokens.now result (after lexeme.ellipsis (closed (at_depth depth).expr lexeme.right_bracket) (drop at tokens.now)) }
{
    let at = sign(tokens, at, ELLIPSIS)?;
    let (high, at) = boxed_expr(alloc, tokens, at, depth)?;
    let (high, at) = closing(high, sign(tokens, at, RIGHT_BRACKET))?;
    Ok((high, at))
}

/// The bounds of a subrange, and its closing bracket.
#[tactic(auto, using(dbpl_parse_expr::proofs::Pairs::pairs))]
fn bounds(
    alloc: Global,
    tokens: &[Token],
    at: usize,
    depth: u8,
) -> Result<((BoxedExpr, BoxedExpr), usize), ReadErr>
    ensures { Reads tokens.now result (((at_depth depth).expr ⊗ after lexeme.ellipsis (closed (at_depth depth).expr lexeme.right_bracket)) (drop at tokens.now)) }
{
    let (low, at) = boxed_expr(alloc, tokens, at, depth)?;
    let ((low, high), at) = pair(low, upper_bound(alloc, tokens, at, depth))?;
    Ok(((low, high), at))
}

/// The values between two bounds, in which so many phrases may stand inside one another.
#[tactic(auto, unfolding(dbpl_grammar::specs::Types::subrange))]
pub fn subrange(
    alloc: Global,
    tokens: &[Token],
    at: usize,
    depth: u8,
) -> Result<(TypeTree, usize), ReadErr>
    ensures { Reads tokens.now result (spec.subrange (at_depth depth) (drop at tokens.now)) }
{
    let place = here(tokens, at)?;
    let at = sign(tokens, at, LEFT_BRACKET)?;
    let ((low, high), at) = bounds(alloc, tokens, at, depth)?;
    Ok((TypeTree::Subrange(place, low, high), at))
}

/// A type of relations: the fields of its key, and the type of its records.
#[tactic(auto, using(dbpl_parse_expr::proofs::Pairs::pairs), unfolding(dbpl_grammar::specs::Types::relation_type))]
pub fn relation_type(
    alloc: Global,
    tokens: &[Token],
    at: usize,
) -> Result<(TypeTree, usize), ReadErr>
    ensures { Reads tokens.now result (spec.relation_type (drop at tokens.now)) }
{
    let place = here(tokens, at)?;
    let at = word(tokens, at, RELATION)?;
    let (keys, at) = idents(alloc, tokens, at)?;
    let (keys, at) = closing(keys, word(tokens, at, OF))?;
    let ((keys, element), at) = pair(keys, qual(alloc, tokens, at))?;
    Ok((TypeTree::Relation(place, keys, element), at))
}

/// The name of a type.
pub fn named_type(alloc: Global, tokens: &[Token], at: usize) -> Result<(TypeTree, usize), ReadErr>
    ensures { Reads tokens.now result (made types.Named reads_qual (drop at tokens.now)) }
{
    let (name, at) = qual(alloc, tokens, at)?;
    Ok((TypeTree::Named(name), at))
}
