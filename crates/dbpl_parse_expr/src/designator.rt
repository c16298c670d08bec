//! Designators, and expressions in brackets and in parentheses.
ghost use Rattle.std.specs.Prelude.{◌≡◌, ◌∷◌, [], drop};
ghost use Rattle.dbpl_grammar.specs.Expressions as spec;
ghost use Rattle.dbpl_grammar.specs.Reading.{after, many, optional};
ghost use Rattle.dbpl_parse_expr.specs.Gives.{Reads};
ghost use Rattle.dbpl_parse_expr.specs.Nests.{ReadsExpr};
ghost use Rattle.dbpl_tree.specs.Words as lexeme;

use crate::ReadErr;
use crate::inner::Inner;
use crate::names::ident;
use crate::pair::{closing, pair};
use crate::sets::{begins_expr, begins_part};
use crate::tokens::{begins_sign, here, sign, turns};
use dbpl_base::words::{
    COMMA, FULL_STOP, LEFT_BRACKET, LEFT_PARENTHESIS, RIGHT_BRACKET, RIGHT_PARENTHESIS,
};
use dbpl_base::{Boxed, List, Place, Token};
use dbpl_tree::{
    Arguments, ArgumentsOf, Designator, DesignatorOf, Expr, Exprs, ExprsOf, Factor, NotOperator,
    Part, PartOf, Range,
};
use std::alloc::Global;

impl<
    E: Fn(Global, &[Token], usize, u8) -> Result<(Expr, usize), ReadErr>,
    R: Fn(Global, &[Token], usize, u8) -> Result<(Range, usize), ReadErr>,
    N: Fn(Global, &[Token], usize, u8) -> Result<((Place, (NotOperator, Factor)), usize), ReadErr>,
> Inner<E, R, N> {
    /// Further expressions, each behind a comma.
    #[tactic(auto, using(crate::proofs::Loops::loops))]
    fn other_exprs(&self, tokens: &[Token], at: usize) -> Result<(List<Expr>, usize), ReadErr>
        requires expr { ReadsExpr self.now.depth (E.pre self.now.expr) (E.post self.now.expr) }
        ensures { Reads tokens.now result (many (lexeme.comma ∷ []) (after lexeme.comma (spec.at_depth self.now.depth).expr) (drop at tokens.now)) }
    {
        let mut found = List::new(self.alloc);
        let mut next = at;
        for _turn in 0..turns(tokens, at) {
            if !begins_sign(tokens, next, COMMA) {
                return Ok((found, next));
            }
            let behind = sign(tokens, next, COMMA)?;
            let (one, behind) = self.expr(tokens, behind)?;
            found.push(one)?;
            next = behind;
        }
        Err(ReadErr::Wrong(next))
    }

    /// Expressions with commas between them.
    #[tactic(auto, unfolding(dbpl_grammar::specs::Expressions::exprs))]
    fn exprs(&self, tokens: &[Token], at: usize) -> Result<(Exprs, usize), ReadErr>
        requires expr { ReadsExpr self.now.depth (E.pre self.now.expr) (E.post self.now.expr) }
        ensures { Reads tokens.now result (spec.exprs (spec.at_depth self.now.depth).expr (drop at tokens.now)) }
    {
        let (first, at) = self.boxed_expr(tokens, at)?;
        let ((first, others), at) = pair(first, self.other_exprs(tokens, at))?;
        Ok((ExprsOf { first, others }, at))
    }

    /// Expressions, if one begins.
    fn optional_exprs(&self, tokens: &[Token], at: usize) -> Result<(Option<Exprs>, usize), ReadErr>
        requires expr { ReadsExpr self.now.depth (E.pre self.now.expr) (E.post self.now.expr) }
        ensures { Reads tokens.now result (optional spec.expr_first (spec.exprs (spec.at_depth self.now.depth).expr) (drop at tokens.now)) }
    {
        if !begins_expr(tokens, at) {
            return Ok((None, at));
        }
        let (exprs, at) = self.exprs(tokens, at)?;
        Ok((Some(exprs), at))
    }

    /// Arguments in parentheses.
    #[tactic(auto, unfolding(dbpl_grammar::specs::Expressions::arguments))]
    pub fn arguments(&self, tokens: &[Token], at: usize) -> Result<(Arguments, usize), ReadErr>
        requires expr { ReadsExpr self.now.depth (E.pre self.now.expr) (E.post self.now.expr) }
        ensures { Reads tokens.now result (spec.arguments (spec.at_depth self.now.depth).expr (drop at tokens.now)) }
    {
        let place = here(tokens, at)?;
        let at = sign(tokens, at, LEFT_PARENTHESIS)?;
        let (exprs, at) = self.optional_exprs(tokens, at)?;
        let (exprs, at) = closing(exprs, sign(tokens, at, RIGHT_PARENTHESIS))?;
        Ok((ArgumentsOf { place, exprs }, at))
    }

    /// The arguments of a call, if there are any.
    pub fn optional_arguments(
        &self,
        tokens: &[Token],
        at: usize,
    ) -> Result<(Option<Boxed<Arguments>>, usize), ReadErr>
        requires expr { ReadsExpr self.now.depth (E.pre self.now.expr) (E.post self.now.expr) }
        ensures { Reads tokens.now result (optional (lexeme.left_parenthesis ∷ []) (spec.arguments (spec.at_depth self.now.depth).expr) (drop at tokens.now)) }
    {
        if !begins_sign(tokens, at, LEFT_PARENTHESIS) {
            return Ok((None, at));
        }
        let (arguments, at) = self.arguments(tokens, at)?;
        Ok((Some(Boxed::new(self.alloc, arguments)?), at))
    }

    /// A further part of a designator.
    #[tactic(auto, unfolding(dbpl_grammar::specs::Expressions::part, dbpl_grammar::specs::Expressions::subscripts))]
    fn part(&self, tokens: &[Token], at: usize) -> Result<(Part, usize), ReadErr>
        requires expr { ReadsExpr self.now.depth (E.pre self.now.expr) (E.post self.now.expr) }
        ensures { Reads tokens.now result (spec.part (spec.at_depth self.now.depth).expr (drop at tokens.now)) }
    {
        if begins_sign(tokens, at, FULL_STOP) {
            let at = sign(tokens, at, FULL_STOP)?;
            let (field, at) = ident(self.alloc, tokens, at)?;
            return Ok((PartOf::Field(field), at));
        }
        let place = here(tokens, at)?;
        let at = sign(tokens, at, LEFT_BRACKET)?;
        let (exprs, at) = self.exprs(tokens, at)?;
        let (exprs, at) = closing(exprs, sign(tokens, at, RIGHT_BRACKET))?;
        Ok((PartOf::Subscripts(place, exprs), at))
    }

    /// The parts of a designator.
    #[tactic(auto, using(crate::proofs::Loops::loops))]
    fn all_parts(&self, tokens: &[Token], at: usize) -> Result<(List<Part>, usize), ReadErr>
        requires expr { ReadsExpr self.now.depth (E.pre self.now.expr) (E.post self.now.expr) }
        ensures { Reads tokens.now result (many spec.part_first (spec.part (spec.at_depth self.now.depth).expr) (drop at tokens.now)) }
    {
        let mut found = List::new(self.alloc);
        let mut next = at;
        for _turn in 0..turns(tokens, at) {
            if !begins_part(tokens, next) {
                return Ok((found, next));
            }
            let (one, behind) = self.part(tokens, next)?;
            found.push(one)?;
            next = behind;
        }
        Err(ReadErr::Wrong(next))
    }

    /// A designator.
    #[tactic(auto, unfolding(dbpl_grammar::specs::Expressions::designator))]
    pub fn designator(&self, tokens: &[Token], at: usize) -> Result<(Designator, usize), ReadErr>
        requires expr { ReadsExpr self.now.depth (E.pre self.now.expr) (E.post self.now.expr) }
        ensures { Reads tokens.now result (spec.designator (spec.at_depth self.now.depth).expr (drop at tokens.now)) }
    {
        let (head, at) = ident(self.alloc, tokens, at)?;
        let (parts, at) = self.all_parts(tokens, at)?;
        Ok((DesignatorOf { head, parts }, at))
    }
}
