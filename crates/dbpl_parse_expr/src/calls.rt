//! What other crates call: trees from positions, and refusals by their places.
ghost use Rattle.std.specs.Prelude.{◌≡◌, ◌≢◌, ◌-◌, drop, IfErr, IfOk, List as Seq};
ghost use Rattle.dbpl_base.specs.declared.limits.TheConstants.{PHRASE_DEPTH};
ghost use Rattle.dbpl_base.specs.declared.token.Token.{Token as Item};
ghost use Rattle.dbpl_grammar.specs.Expressions as spec;
ghost use Rattle.dbpl_grammar.specs.Laws.{HasEnd, Stands};
ghost use Rattle.dbpl_parse_expr.specs.Calls as calls;
ghost use Rattle.dbpl_parse_expr.specs.Calls.{Answers, RefusedAt};
ghost use Rattle.dbpl_tree.specs.Depths.{aggregate_depth, designator_depth, expr_depth, factor_depth, range_depth};
ghost use Rattle.dbpl_tree.specs.Expressions.{designator_marks, expr_marks};
ghost use Rattle.dbpl_tree.specs.Factors.{aggregate_marks, factor_marks, range_marks};
ghost use Rattle.dbpl_tree.specs.declared.aggregate.Aggregate.{Aggregate as AnAggregate};
ghost use Rattle.dbpl_tree.specs.declared.designator.DesignatorOf.{DesignatorOf};
ghost use Rattle.dbpl_tree.specs.declared.expr.ExprOf.{ExprOf};
ghost use Rattle.dbpl_tree.specs.declared.factor.Factor.{Factor};
ghost use Rattle.dbpl_tree.specs.declared.range.Range.{Range as ARange};

use crate::phrases::{aggregate, designator, expr, range};
use crate::tokens::place_at;
use crate::{ParseErr, ReadErr};
use dbpl_base::Token;
use dbpl_base::limits::PHRASE_DEPTH;
use dbpl_grammar::{reads_aggregates, reads_designators, reads_expressions, reads_ranges};
use dbpl_tree::{Aggregate, Designator, Expr, Range};
use std::alloc::Global;

/// A refusal by the place of the token at which it shows.
fn placed(tokens: &[Token], error: ReadErr) -> ParseErr
    ensures { result ≡ calls.placed tokens.now error }
{
    match error {
        ReadErr::Wrong(at) => ParseErr::Syntax(place_at(tokens, at)),
        ReadErr::Deep(at) => ParseErr::Deep(place_at(tokens, at)),
        ReadErr::Memory => ParseErr::Memory,
    }
}

/// The same tree, or the refusal by its place.
pub fn answered<A>(tokens: &[Token], read: Result<A, ReadErr>) -> Result<A, ParseErr>
    ensures { result ≡ calls.answered tokens.now read }
{
    match read {
        Ok(found) => Ok(found),
        Err(error) => Err(placed(tokens, error)),
    }
}

/// The expression that begins at a position, inside so many phrases, and the position behind it.
pub fn parse_expr(
    alloc: Global,
    tokens: &[Token],
    at: usize,
    depth: u8,
) -> Result<(Expr, usize), ParseErr>
    ensures reads { Answers tokens.now result ((spec.at_depth (PHRASE_DEPTH - depth)).expr (drop at tokens.now)) }
    ensures found { HasEnd (drop at tokens.now) → IfOk result (λ answer. Stands (expr_marks factor_marks) (expr_depth factor_depth) (PHRASE_DEPTH - depth) (drop at tokens.now) answer.0 (drop answer.1 tokens.now)) }
    ensures only { IfOk result (λ answer. (phrase : ExprOf Factor) (rest : Seq Item) → Stands (expr_marks factor_marks) (expr_depth factor_depth) (PHRASE_DEPTH - depth) (drop at tokens.now) phrase rest → (phrase ≡ answer.0) × (rest ≡ drop answer.1 tokens.now)) }
    ensures refused { IfErr result (λ error. error ≢ ParseErr.Memory → (phrase : ExprOf Factor) (rest : Seq Item) → ¬ Stands (expr_marks factor_marks) (expr_depth factor_depth) (PHRASE_DEPTH - depth) (drop at tokens.now) phrase rest) }
    ensures placed { IfErr result (λ error. error ≢ ParseErr.Memory → HasEnd (drop at tokens.now) → RefusedAt (expr_marks factor_marks) (expr_depth factor_depth) (PHRASE_DEPTH - depth) (drop at tokens.now) error) }
{
    reads_expressions();
    answered(
        tokens,
        expr(alloc, tokens, at, PHRASE_DEPTH.saturating_sub(depth)),
    )
}

/// The designator that begins at a position, inside so many phrases, and the position behind it.
pub fn parse_designator(
    alloc: Global,
    tokens: &[Token],
    at: usize,
    depth: u8,
) -> Result<(Designator, usize), ParseErr>
    ensures reads { Answers tokens.now result (spec.designator (spec.at_depth (PHRASE_DEPTH - depth)).expr (drop at tokens.now)) }
    ensures found { HasEnd (drop at tokens.now) → IfOk result (λ answer. Stands (designator_marks factor_marks) (designator_depth factor_depth) (PHRASE_DEPTH - depth) (drop at tokens.now) answer.0 (drop answer.1 tokens.now)) }
    ensures only { IfOk result (λ answer. (phrase : DesignatorOf Factor) (rest : Seq Item) → Stands (designator_marks factor_marks) (designator_depth factor_depth) (PHRASE_DEPTH - depth) (drop at tokens.now) phrase rest → (phrase ≡ answer.0) × (rest ≡ drop answer.1 tokens.now)) }
    ensures refused { IfErr result (λ error. error ≢ ParseErr.Memory → (phrase : DesignatorOf Factor) (rest : Seq Item) → ¬ Stands (designator_marks factor_marks) (designator_depth factor_depth) (PHRASE_DEPTH - depth) (drop at tokens.now) phrase rest) }
    ensures placed { IfErr result (λ error. error ≢ ParseErr.Memory → HasEnd (drop at tokens.now) → RefusedAt (designator_marks factor_marks) (designator_depth factor_depth) (PHRASE_DEPTH - depth) (drop at tokens.now) error) }
{
    reads_designators();
    answered(
        tokens,
        designator(alloc, tokens, at, PHRASE_DEPTH.saturating_sub(depth)),
    )
}

/// The range that begins at a position, inside so many phrases, and the position behind it.
pub fn parse_range(
    alloc: Global,
    tokens: &[Token],
    at: usize,
    depth: u8,
) -> Result<(Range, usize), ParseErr>
    ensures reads { Answers tokens.now result ((spec.at_depth (PHRASE_DEPTH - depth)).range (drop at tokens.now)) }
    ensures found { HasEnd (drop at tokens.now) → IfOk result (λ answer. Stands range_marks range_depth (PHRASE_DEPTH - depth) (drop at tokens.now) answer.0 (drop answer.1 tokens.now)) }
    ensures only { IfOk result (λ answer. (phrase : ARange) (rest : Seq Item) → Stands range_marks range_depth (PHRASE_DEPTH - depth) (drop at tokens.now) phrase rest → (phrase ≡ answer.0) × (rest ≡ drop answer.1 tokens.now)) }
    ensures refused { IfErr result (λ error. error ≢ ParseErr.Memory → (phrase : ARange) (rest : Seq Item) → ¬ Stands range_marks range_depth (PHRASE_DEPTH - depth) (drop at tokens.now) phrase rest) }
    ensures placed { IfErr result (λ error. error ≢ ParseErr.Memory → HasEnd (drop at tokens.now) → RefusedAt range_marks range_depth (PHRASE_DEPTH - depth) (drop at tokens.now) error) }
{
    reads_ranges();
    answered(
        tokens,
        range(alloc, tokens, at, PHRASE_DEPTH.saturating_sub(depth)),
    )
}

/// The aggregate that begins at a position, inside so many phrases, and the position behind it.
pub fn parse_aggregate(
    alloc: Global,
    tokens: &[Token],
    at: usize,
    depth: u8,
) -> Result<(Aggregate, usize), ParseErr>
    ensures reads { Answers tokens.now result (spec.aggregate (spec.at_depth (PHRASE_DEPTH - depth)) (drop at tokens.now)) }
    ensures found { HasEnd (drop at tokens.now) → IfOk result (λ answer. Stands aggregate_marks aggregate_depth (PHRASE_DEPTH - depth) (drop at tokens.now) answer.0 (drop answer.1 tokens.now)) }
    ensures only { IfOk result (λ answer. (phrase : AnAggregate) (rest : Seq Item) → Stands aggregate_marks aggregate_depth (PHRASE_DEPTH - depth) (drop at tokens.now) phrase rest → (phrase ≡ answer.0) × (rest ≡ drop answer.1 tokens.now)) }
    ensures refused { IfErr result (λ error. error ≢ ParseErr.Memory → (phrase : AnAggregate) (rest : Seq Item) → ¬ Stands aggregate_marks aggregate_depth (PHRASE_DEPTH - depth) (drop at tokens.now) phrase rest) }
    ensures placed { IfErr result (λ error. error ≢ ParseErr.Memory → HasEnd (drop at tokens.now) → RefusedAt aggregate_marks aggregate_depth (PHRASE_DEPTH - depth) (drop at tokens.now) error) }
{
    reads_aggregates();
    answered(
        tokens,
        aggregate(alloc, tokens, at, PHRASE_DEPTH.saturating_sub(depth)),
    )
}
