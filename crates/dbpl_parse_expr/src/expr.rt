//! Expressions, down to their factors.
ghost use Rattle.std.specs.Prelude.{◌≡◌, drop};
ghost use Rattle.dbpl_grammar.specs.Expressions as spec;
ghost use Rattle.dbpl_grammar.specs.Reading.{leaf, many, optional};
ghost use Rattle.dbpl_parse_expr.specs.Gives.{Reads};
ghost use Rattle.dbpl_parse_expr.specs.Nests.{ReadsExpr, ReadsNegated, ReadsRange};

use crate::ReadErr;
use crate::inner::Inner;
use crate::operators::{adding, multiplying, relation, sign_operator};
use crate::pair::pair;
use crate::sets::{begins_adding, begins_multiplying, begins_relation, begins_signed};
use crate::tokens::{here, turns};
use dbpl_base::{Boxed, List, Place, Token};
use dbpl_tree::{
    Added, AddedOf, Compared, ComparedOf, Expr, ExprOf, Factor, Multiplied, MultipliedOf,
    NotOperator, Range, SignOperator, Simple, SimpleOf, Term, TermOf,
};
use std::alloc::Global;

/// The sign before a term, if there is one.
fn optional_sign(tokens: &[Token], at: usize) -> Result<(Option<SignOperator>, usize), ReadErr>
    ensures { Reads tokens.now result (optional spec.signs_first (leaf spec.sign_of) (drop at tokens.now)) }
{
    if !begins_signed(tokens, at) {
        return Ok((None, at));
    }
    let (sign, at) = sign_operator(tokens, at)?;
    Ok((Some(sign), at))
}

impl<
    E: Fn(Global, &[Token], usize, u8) -> Result<(Expr, usize), ReadErr>,
    R: Fn(Global, &[Token], usize, u8) -> Result<(Range, usize), ReadErr>,
    N: Fn(Global, &[Token], usize, u8) -> Result<((Place, (NotOperator, Factor)), usize), ReadErr>,
> Inner<E, R, N> {
    /// An operator and its factor.
    #[tactic(auto, unfolding(dbpl_grammar::specs::Expressions::multiplied))]
    fn multiplied(&self, tokens: &[Token], at: usize) -> Result<(Multiplied, usize), ReadErr>
        requires expr { ReadsExpr self.now.depth (E.pre self.now.expr) (E.post self.now.expr) }
        requires range { ReadsRange self.now.depth (R.pre self.now.range) (R.post self.now.range) }
        requires negated { ReadsNegated self.now.depth (N.pre self.now.negated) (N.post self.now.negated) }
        ensures { Reads tokens.now result (spec.multiplied (spec.factor (spec.at_depth self.now.depth)) (drop at tokens.now)) }
    {
        let place = here(tokens, at)?;
        let (operator, at) = multiplying(tokens, at)?;
        let (factor, at) = self.factor(tokens, at)?;
        Ok((
            MultipliedOf {
                place,
                operator,
                factor,
            },
            at,
        ))
    }

    /// Further factors of a term.
    #[tactic(auto, using(crate::proofs::Loops::loops))]
    fn all_multiplied(
        &self,
        tokens: &[Token],
        at: usize,
    ) -> Result<(List<Multiplied>, usize), ReadErr>
        requires expr { ReadsExpr self.now.depth (E.pre self.now.expr) (E.post self.now.expr) }
        requires range { ReadsRange self.now.depth (R.pre self.now.range) (R.post self.now.range) }
        requires negated { ReadsNegated self.now.depth (N.pre self.now.negated) (N.post self.now.negated) }
        ensures { Reads tokens.now result (many spec.multiplying_first (spec.multiplied (spec.factor (spec.at_depth self.now.depth))) (drop at tokens.now)) }
    {
        let mut found = List::new(self.alloc);
        let mut next = at;
        for _turn in 0..turns(tokens, at) {
            if !begins_multiplying(tokens, next) {
                return Ok((found, next));
            }
            let (one, behind) = self.multiplied(tokens, next)?;
            found.push(one)?;
            next = behind;
        }
        Err(ReadErr::Wrong(next))
    }

    /// A term.
    #[tactic(auto, unfolding(dbpl_grammar::specs::Expressions::term))]
    fn term(&self, tokens: &[Token], at: usize) -> Result<(Term, usize), ReadErr>
        requires expr { ReadsExpr self.now.depth (E.pre self.now.expr) (E.post self.now.expr) }
        requires range { ReadsRange self.now.depth (R.pre self.now.range) (R.post self.now.range) }
        requires negated { ReadsNegated self.now.depth (N.pre self.now.negated) (N.post self.now.negated) }
        ensures { Reads tokens.now result (spec.term (spec.factor (spec.at_depth self.now.depth)) (drop at tokens.now)) }
    {
        let place = here(tokens, at)?;
        let (first, at) = self.factor(tokens, at)?;
        let ((first, others), at) = pair(first, self.all_multiplied(tokens, at))?;
        Ok((
            TermOf {
                place,
                first,
                others,
            },
            at,
        ))
    }

    /// An operator and its term.
    #[tactic(auto, unfolding(dbpl_grammar::specs::Expressions::added))]
    fn added(&self, tokens: &[Token], at: usize) -> Result<(Added, usize), ReadErr>
        requires expr { ReadsExpr self.now.depth (E.pre self.now.expr) (E.post self.now.expr) }
        requires range { ReadsRange self.now.depth (R.pre self.now.range) (R.post self.now.range) }
        requires negated { ReadsNegated self.now.depth (N.pre self.now.negated) (N.post self.now.negated) }
        ensures { Reads tokens.now result (spec.added (spec.factor (spec.at_depth self.now.depth)) (drop at tokens.now)) }
    {
        let place = here(tokens, at)?;
        let (operator, at) = adding(tokens, at)?;
        let (term, at) = self.term(tokens, at)?;
        Ok((
            AddedOf {
                place,
                operator,
                term,
            },
            at,
        ))
    }

    /// Further terms of a sum.
    #[tactic(auto, using(crate::proofs::Loops::loops))]
    fn all_added(&self, tokens: &[Token], at: usize) -> Result<(List<Added>, usize), ReadErr>
        requires expr { ReadsExpr self.now.depth (E.pre self.now.expr) (E.post self.now.expr) }
        requires range { ReadsRange self.now.depth (R.pre self.now.range) (R.post self.now.range) }
        requires negated { ReadsNegated self.now.depth (N.pre self.now.negated) (N.post self.now.negated) }
        ensures { Reads tokens.now result (many spec.adding_first (spec.added (spec.factor (spec.at_depth self.now.depth))) (drop at tokens.now)) }
    {
        let mut found = List::new(self.alloc);
        let mut next = at;
        for _turn in 0..turns(tokens, at) {
            if !begins_adding(tokens, next) {
                return Ok((found, next));
            }
            let (one, behind) = self.added(tokens, next)?;
            found.push(one)?;
            next = behind;
        }
        Err(ReadErr::Wrong(next))
    }

    /// A sum.
    #[tactic(auto, unfolding(dbpl_grammar::specs::Expressions::simple))]
    fn simple(&self, tokens: &[Token], at: usize) -> Result<(Simple, usize), ReadErr>
        requires expr { ReadsExpr self.now.depth (E.pre self.now.expr) (E.post self.now.expr) }
        requires range { ReadsRange self.now.depth (R.pre self.now.range) (R.post self.now.range) }
        requires negated { ReadsNegated self.now.depth (N.pre self.now.negated) (N.post self.now.negated) }
        ensures { Reads tokens.now result (spec.simple (spec.factor (spec.at_depth self.now.depth)) (drop at tokens.now)) }
    {
        let place = here(tokens, at)?;
        let (sign, at) = optional_sign(tokens, at)?;
        let (first, at) = self.term(tokens, at)?;
        let ((first, others), at) = pair(first, self.all_added(tokens, at))?;
        Ok((
            SimpleOf {
                place,
                sign,
                first,
                others,
            },
            at,
        ))
    }

    /// The operator of a comparison and its right side.
    #[tactic(auto, unfolding(dbpl_grammar::specs::Expressions::compared))]
    fn compared(&self, tokens: &[Token], at: usize) -> Result<(Compared, usize), ReadErr>
        requires expr { ReadsExpr self.now.depth (E.pre self.now.expr) (E.post self.now.expr) }
        requires range { ReadsRange self.now.depth (R.pre self.now.range) (R.post self.now.range) }
        requires negated { ReadsNegated self.now.depth (N.pre self.now.negated) (N.post self.now.negated) }
        ensures { Reads tokens.now result (spec.compared (spec.factor (spec.at_depth self.now.depth)) (drop at tokens.now)) }
    {
        let place = here(tokens, at)?;
        let (relation, at) = relation(tokens, at)?;
        let (right, at) = self.simple(tokens, at)?;
        Ok((
            ComparedOf {
                place,
                relation,
                right,
            },
            at,
        ))
    }

    /// The right side of a comparison in a box of its own.
    fn boxed_compared(
        &self,
        tokens: &[Token],
        at: usize,
    ) -> Result<(Boxed<Compared>, usize), ReadErr>
        requires expr { ReadsExpr self.now.depth (E.pre self.now.expr) (E.post self.now.expr) }
        requires range { ReadsRange self.now.depth (R.pre self.now.range) (R.post self.now.range) }
        requires negated { ReadsNegated self.now.depth (N.pre self.now.negated) (N.post self.now.negated) }
        ensures { Reads tokens.now result (spec.compared (spec.factor (spec.at_depth self.now.depth)) (drop at tokens.now)) }
    {
        let (found, at) = self.compared(tokens, at)?;
        Ok((Boxed::new(self.alloc, found)?, at))
    }

    /// An expression in which so many phrases may stand inside one another.
    #[tactic(auto, unfolding(dbpl_grammar::specs::Expressions::expr))]
    pub fn whole_expr(&self, tokens: &[Token], at: usize) -> Result<(Expr, usize), ReadErr>
        requires expr { ReadsExpr self.now.depth (E.pre self.now.expr) (E.post self.now.expr) }
        requires range { ReadsRange self.now.depth (R.pre self.now.range) (R.post self.now.range) }
        requires negated { ReadsNegated self.now.depth (N.pre self.now.negated) (N.post self.now.negated) }
        ensures { Reads tokens.now result (spec.expr (spec.factor (spec.at_depth self.now.depth)) (drop at tokens.now)) }
    {
        let place = here(tokens, at)?;
        let (left, at) = self.simple(tokens, at)?;
        if !begins_relation(tokens, at) {
            return Ok((
                ExprOf {
                    place,
                    left,
                    right: None,
                },
                at,
            ));
        }
        let ((left, right), at) = pair(left, self.boxed_compared(tokens, at))?;
        Ok((
            ExprOf {
                place,
                left,
                right: Some(right),
            },
            at,
        ))
    }
}
