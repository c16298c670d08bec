//! The productions take the parsers of the phrases that count as one deeper, so that each is proved by itself.
ghost use Rattle.std.specs.Prelude.{◌≡◌, drop};
ghost use Rattle.dbpl_grammar.specs.Expressions as spec;
ghost use Rattle.dbpl_parse_expr.specs.Gives.{Reads};
ghost use Rattle.dbpl_parse_expr.specs.Nests.{ReadsExpr, ReadsNegated, ReadsRange};

use crate::ReadErr;
use dbpl_base::{Boxed, Place, Token};
use dbpl_tree::{Expr, Factor, NotOperator, Range};
use std::alloc::Global;

/// What is read where so many phrases may still stand inside one another.
#[derive(Clone, Copy)]
pub struct Inner<E, R, N> {
    pub alloc: Global,
    pub depth: u8,
    pub expr: E,
    pub range: R,
    /// An operator that negates, and its factor.
    pub negated: N,
}

impl<
    E: Fn(Global, &[Token], usize, u8) -> Result<(Expr, usize), ReadErr>,
    R: Fn(Global, &[Token], usize, u8) -> Result<(Range, usize), ReadErr>,
    N: Fn(Global, &[Token], usize, u8) -> Result<((Place, (NotOperator, Factor)), usize), ReadErr>,
> Inner<E, R, N> {
    pub fn expr(&self, tokens: &[Token], at: usize) -> Result<(Expr, usize), ReadErr>
        requires expr { ReadsExpr self.now.depth (E.pre self.now.expr) (E.post self.now.expr) }
        ensures { Reads tokens.now result ((spec.at_depth self.now.depth).expr (drop at tokens.now)) }
    {
        (self.expr)(self.alloc, tokens, at, self.depth)
    }

    /// An expression in a box of its own.
    pub fn boxed_expr(&self, tokens: &[Token], at: usize) -> Result<(Boxed<Expr>, usize), ReadErr>
        requires expr { ReadsExpr self.now.depth (E.pre self.now.expr) (E.post self.now.expr) }
        ensures { Reads tokens.now result ((spec.at_depth self.now.depth).expr (drop at tokens.now)) }
    {
        let (found, at) = self.expr(tokens, at)?;
        Ok((Boxed::new(self.alloc, found)?, at))
    }

    pub fn range(&self, tokens: &[Token], at: usize) -> Result<(Range, usize), ReadErr>
        requires range { ReadsRange self.now.depth (R.pre self.now.range) (R.post self.now.range) }
        ensures { Reads tokens.now result ((spec.at_depth self.now.depth).range (drop at tokens.now)) }
    {
        (self.range)(self.alloc, tokens, at, self.depth)
    }

    /// A range in a box of its own.
    pub fn boxed_range(&self, tokens: &[Token], at: usize) -> Result<(Boxed<Range>, usize), ReadErr>
        requires range { ReadsRange self.now.depth (R.pre self.now.range) (R.post self.now.range) }
        ensures { Reads tokens.now result ((spec.at_depth self.now.depth).range (drop at tokens.now)) }
    {
        let (found, at) = self.range(tokens, at)?;
        Ok((Boxed::new(self.alloc, found)?, at))
    }

    pub fn negated(
        &self,
        tokens: &[Token],
        at: usize,
    ) -> Result<((Place, (NotOperator, Factor)), usize), ReadErr>
        requires negated { ReadsNegated self.now.depth (N.pre self.now.negated) (N.post self.now.negated) }
        ensures { Reads tokens.now result ((spec.at_depth self.now.depth).negated (drop at tokens.now)) }
    {
        (self.negated)(self.alloc, tokens, at, self.depth)
    }
}
