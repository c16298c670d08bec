//! Factors.
ghost use Rattle.std.specs.Prelude.{◌≡◌, drop};
ghost use Rattle.dbpl_grammar.specs.Expressions as spec;
ghost use Rattle.dbpl_grammar.specs.Reading.{after, closed};
ghost use Rattle.dbpl_parse_expr.specs.Gives.{Reads};
ghost use Rattle.dbpl_tree.specs.Words as lexeme;
ghost use Rattle.dbpl_parse_expr.specs.Nests.{ReadsExpr, ReadsNegated, ReadsRange};

use crate::ReadErr;
use crate::inner::Inner;
use crate::kinds::{is_qual, qual_in};
use crate::literals::{char_code, number, text};
use crate::names::ident;
use crate::operators::{not_operator, quantifier};
use crate::pair::{closing, pair};
use crate::tokens::{begins_sign, here, lexeme_at, sign, word};
use dbpl_base::words::{
    ALL, IN, LEFT_BRACE, LEFT_PARENTHESIS, NOT, RIGHT_PARENTHESIS, SOME, TILDE,
};
use dbpl_base::{Boxed, Lexeme, Place, Token};
use dbpl_tree::{Aggregate, Expr, Factor, NotOperator, Range};
use std::alloc::Global;

impl<
    E: Fn(Global, &[Token], usize, u8) -> Result<(Expr, usize), ReadErr>,
    R: Fn(Global, &[Token], usize, u8) -> Result<(Range, usize), ReadErr>,
    N: Fn(Global, &[Token], usize, u8) -> Result<((Place, (NotOperator, Factor)), usize), ReadErr>,
> Inner<E, R, N> {
    /// The expression in parentheses.
    fn in_parentheses(&self, tokens: &[Token], at: usize) -> Result<(Boxed<Expr>, usize), ReadErr>
        requires expr { ReadsExpr self.now.depth (E.pre self.now.expr) (E.post self.now.expr) }
        ensures { Reads tokens.now result (after lexeme.left_parenthesis (closed (spec.at_depth self.now.depth).expr lexeme.right_parenthesis) (drop at tokens.now)) }
    {
        let at = sign(tokens, at, LEFT_PARENTHESIS)?;
        let (inner, at) = self.boxed_expr(tokens, at)?;
        let (inner, at) = closing(inner, sign(tokens, at, RIGHT_PARENTHESIS))?;
        Ok((inner, at))
    }

    /// An expression in parentheses.
    #[tactic(auto, unfolding(dbpl_grammar::specs::Expressions::parenthesized))]
    fn parenthesized(&self, tokens: &[Token], at: usize) -> Result<(Factor, usize), ReadErr>
        requires expr { ReadsExpr self.now.depth (E.pre self.now.expr) (E.post self.now.expr) }
        ensures { Reads tokens.now result (spec.parenthesized (spec.at_depth self.now.depth) (drop at tokens.now)) }
    {
        let place = here(tokens, at)?;
        let (inner, at) = self.in_parentheses(tokens, at)?;
        Ok((Factor::Parenthesized(place, inner), at))
    }

    /// A predicate that is to hold of some or of all records of a range.
    #[tactic(auto, unfolding(dbpl_grammar::specs::Expressions::quantified))]
    fn quantified(&self, tokens: &[Token], at: usize) -> Result<(Factor, usize), ReadErr>
        requires expr { ReadsExpr self.now.depth (E.pre self.now.expr) (E.post self.now.expr) }
        requires range { ReadsRange self.now.depth (R.pre self.now.range) (R.post self.now.range) }
        ensures { Reads tokens.now result (spec.quantified (spec.at_depth self.now.depth) (drop at tokens.now)) }
    {
        let place = here(tokens, at)?;
        let (quantifier, at) = quantifier(tokens, at)?;
        let (variable, at) = ident(self.alloc, tokens, at)?;
        let at = word(tokens, at, IN)?;
        let (range, at) = self.boxed_range(tokens, at)?;
        let (((variable, range), predicate), at) = pair(
            (variable, range),
            self.in_parentheses(tokens, at),
        )?;
        Ok((
            Factor::Quantified(place, quantifier, variable, range, predicate),
            at,
        ))
    }

    /// A factor that begins with a name.
    #[tactic(auto, unfolding(dbpl_grammar::specs::Expressions::named, dbpl_grammar::specs::Expressions::behind, dbpl_grammar::specs::Expressions::called))]
    fn named(&self, tokens: &[Token], at: usize) -> Result<(Factor, usize), ReadErr>
        requires expr { ReadsExpr self.now.depth (E.pre self.now.expr) (E.post self.now.expr) }
        requires range { ReadsRange self.now.depth (R.pre self.now.range) (R.post self.now.range) }
        ensures { Reads tokens.now result (spec.named (spec.at_depth self.now.depth) (drop at tokens.now)) }
    {
        let (found, at) = self.designator(tokens, at)?;
        if !is_qual(&found) || !begins_sign(tokens, at, LEFT_BRACE) {
            let ((found, arguments), at) = pair(found, self.optional_arguments(tokens, at))?;
            return Ok((Factor::Designator(found, arguments), at));
        }
        let ((found, elements), at) = pair(found, self.braced(tokens, at))?;
        let kind = qual_in(found);
        let aggregate = Boxed::new(self.alloc, Aggregate { kind, elements })?;
        Ok((Factor::Aggregate(aggregate), at))
    }

    /// An operator that negates, and its factor.
    #[tactic(auto, unfolding(dbpl_grammar::specs::Expressions::negated))]
    pub fn whole_negated(
        &self,
        tokens: &[Token],
        at: usize,
    ) -> Result<((Place, (NotOperator, Factor)), usize), ReadErr>
        requires expr { ReadsExpr self.now.depth (E.pre self.now.expr) (E.post self.now.expr) }
        requires range { ReadsRange self.now.depth (R.pre self.now.range) (R.post self.now.range) }
        requires negated { ReadsNegated self.now.depth (N.pre self.now.negated) (N.post self.now.negated) }
        ensures { Reads tokens.now result (spec.negated (spec.at_depth self.now.depth) (drop at tokens.now)) }
    {
        let place = here(tokens, at)?;
        let (operator, at) = not_operator(tokens, at)?;
        let (factor, at) = self.factor(tokens, at)?;
        Ok(((place, (operator, factor)), at))
    }

    /// A factor.
    #[tactic(auto, unfolding(dbpl_grammar::specs::Expressions::factor))]
    pub fn factor(&self, tokens: &[Token], at: usize) -> Result<(Factor, usize), ReadErr>
        requires expr { ReadsExpr self.now.depth (E.pre self.now.expr) (E.post self.now.expr) }
        requires range { ReadsRange self.now.depth (R.pre self.now.range) (R.post self.now.range) }
        requires negated { ReadsNegated self.now.depth (N.pre self.now.negated) (N.post self.now.negated) }
        ensures { Reads tokens.now result (spec.factor (spec.at_depth self.now.depth) (drop at tokens.now)) }
    {
        match lexeme_at(tokens, at) {
            Some(Lexeme::Number(_)) => number(tokens, at),
            Some(Lexeme::CharCode(_)) => char_code(tokens, at),
            Some(Lexeme::Text(_)) => text(self.alloc, tokens, at),
            Some(Lexeme::Sign(LEFT_PARENTHESIS)) => self.parenthesized(tokens, at),
            Some(Lexeme::Sign(TILDE) | Lexeme::Reserved(NOT)) => {
                let ((place, (operator, factor)), at) = self.negated(tokens, at)?;
                Ok((
                    Factor::Not(place, operator, Boxed::new(self.alloc, factor)?),
                    at,
                ))
            }
            Some(Lexeme::Reserved(SOME | ALL)) => self.quantified(tokens, at),
            _ => self.named(tokens, at),
        }
    }
}
