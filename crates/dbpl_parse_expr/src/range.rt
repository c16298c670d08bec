//! What a variable ranges over.
ghost use Rattle.std.specs.Prelude.{◌≡◌, drop};
ghost use Rattle.dbpl_grammar.specs.Expressions as spec;
ghost use Rattle.dbpl_parse_expr.specs.Gives.{Reads};
ghost use Rattle.dbpl_parse_expr.specs.Nests.{ReadsExpr, ReadsRange};

use crate::ReadErr;
use crate::inner::Inner;
use crate::kinds::{is_qual, qual_in};
use crate::pair::pair;
use crate::tokens::begins_sign;
use dbpl_base::words::LEFT_BRACE;
use dbpl_base::{Boxed, Place, Token};
use dbpl_tree::{Aggregate, Expr, Factor, NotOperator, Range};
use std::alloc::Global;

impl<
    E: Fn(Global, &[Token], usize, u8) -> Result<(Expr, usize), ReadErr>,
    R: Fn(Global, &[Token], usize, u8) -> Result<(Range, usize), ReadErr>,
    N: Fn(Global, &[Token], usize, u8) -> Result<((Place, (NotOperator, Factor)), usize), ReadErr>,
> Inner<E, R, N> {
    /// A range in which so many phrases may stand inside one another.
    #[tactic(auto, unfolding(dbpl_grammar::specs::Expressions::range))]
    pub fn whole_range(&self, tokens: &[Token], at: usize) -> Result<(Range, usize), ReadErr>
        requires expr { ReadsExpr self.now.depth (E.pre self.now.expr) (E.post self.now.expr) }
        requires range { ReadsRange self.now.depth (R.pre self.now.range) (R.post self.now.range) }
        ensures { Reads tokens.now result (spec.range (spec.at_depth self.now.depth) (drop at tokens.now)) }
    {
        let (found, at) = self.designator(tokens, at)?;
        if !is_qual(&found) || !begins_sign(tokens, at, LEFT_BRACE) {
            return Ok((Range::Designator(found), at));
        }
        let ((found, elements), at) = pair(found, self.braced(tokens, at))?;
        let kind = qual_in(found);
        let aggregate = Boxed::new(self.alloc, Aggregate { kind, elements })?;
        Ok((Range::Aggregate(aggregate), at))
    }
}
