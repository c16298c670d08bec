//! Aggregates and their elements.
ghost use Rattle.std.specs.Prelude.{◌≡◌, ◌∷◌, [], drop};
ghost use Rattle.dbpl_grammar.specs.Expressions as spec;
ghost use Rattle.dbpl_grammar.specs.Reading.{◌⊗◌, after, many, optional};
ghost use Rattle.dbpl_parse_expr.specs.Gives.{Reads};
ghost use Rattle.dbpl_parse_expr.specs.Made.{made};
ghost use Rattle.dbpl_parse_expr.specs.Nests.{ReadsExpr, ReadsRange};
ghost use Rattle.dbpl_tree.specs.Words as lexeme;
ghost use Rattle.dbpl_tree.specs.declared.element.Element.TheVariants as elements;

use crate::ReadErr;
use crate::inner::Inner;
use crate::lists::all_of;
use crate::names::{ident, qual};
use crate::pair::{closing, pair};
use crate::sets::begins_element;
use crate::tokens::{begins_sign, begins_word, here, sign, turns, word};
use dbpl_base::words::{COLON, COMMA, EACH, IN, LEFT_BRACE, OF, RIGHT_BRACE};
use dbpl_base::{Boxed, List, Place, Token};
use dbpl_tree::{Aggregate, Each, Element, Expr, Factor, NotOperator, Range};
use std::alloc::Global;

impl<
    E: Fn(Global, &[Token], usize, u8) -> Result<(Expr, usize), ReadErr>,
    R: Fn(Global, &[Token], usize, u8) -> Result<(Range, usize), ReadErr>,
    N: Fn(Global, &[Token], usize, u8) -> Result<((Place, (NotOperator, Factor)), usize), ReadErr>,
> Inner<E, R, N> {
    /// A variable and what it ranges over.
    #[tactic(auto, unfolding(dbpl_grammar::specs::Expressions::each))]
    fn each(&self, tokens: &[Token], at: usize) -> Result<(Each, usize), ReadErr>
        requires range { ReadsRange self.now.depth (R.pre self.now.range) (R.post self.now.range) }
        ensures { Reads tokens.now result (spec.each (spec.at_depth self.now.depth) (drop at tokens.now)) }
    {
        let place = here(tokens, at)?;
        let at = word(tokens, at, EACH)?;
        let (variable, at) = ident(self.alloc, tokens, at)?;
        let at = word(tokens, at, IN)?;
        let (range, at) = self.range(tokens, at)?;
        Ok((
            Each {
                place,
                variable,
                range,
            },
            at,
        ))
    }

    /// A comma and a variable with its range.
    fn further_each(&self, tokens: &[Token], at: usize) -> Result<(Each, usize), ReadErr>
        requires range { ReadsRange self.now.depth (R.pre self.now.range) (R.post self.now.range) }
        ensures { Reads tokens.now result (after lexeme.comma (spec.each (spec.at_depth self.now.depth)) (drop at tokens.now)) }
    {
        let at = sign(tokens, at, COMMA)?;
        self.each(tokens, at)
    }

    /// Further variables, each behind a comma.
    #[tactic(auto, using(crate::proofs::Loops::loops))]
    fn other_eaches(&self, tokens: &[Token], at: usize) -> Result<(List<Each>, usize), ReadErr>
        requires range { ReadsRange self.now.depth (R.pre self.now.range) (R.post self.now.range) }
        ensures { Reads tokens.now result (many (lexeme.comma ∷ []) (after lexeme.comma (spec.each (spec.at_depth self.now.depth))) (drop at tokens.now)) }
    {
        let mut found = List::new(self.alloc);
        let mut next = at;
        for _turn in 0..turns(tokens, at) {
            if !begins_sign(tokens, next, COMMA) {
                return Ok((found, next));
            }
            let (one, behind) = self.further_each(tokens, next)?;
            found.push(one)?;
            next = behind;
        }
        Err(ReadErr::Wrong(next))
    }

    /// A colon and what is to hold.
    fn predicate(&self, tokens: &[Token], at: usize) -> Result<(Boxed<Expr>, usize), ReadErr>
        requires expr { ReadsExpr self.now.depth (E.pre self.now.expr) (E.post self.now.expr) }
        ensures { Reads tokens.now result (after lexeme.colon (spec.at_depth self.now.depth).expr (drop at tokens.now)) }
    {
        let at = sign(tokens, at, COLON)?;
        self.boxed_expr(tokens, at)
    }

    /// What follows a target: its variables and their predicate.
    #[tactic(auto, unfolding(dbpl_grammar::specs::Expressions::each_of), using(crate::proofs::Pairs::pairs))]
    fn each_of(
        &self,
        tokens: &[Token],
        at: usize,
    ) -> Result<((Each, (List<Each>, Boxed<Expr>)), usize), ReadErr>
        requires expr { ReadsExpr self.now.depth (E.pre self.now.expr) (E.post self.now.expr) }
        requires range { ReadsRange self.now.depth (R.pre self.now.range) (R.post self.now.range) }
        ensures { Reads tokens.now result (spec.each_of (spec.at_depth self.now.depth) (drop at tokens.now)) }
    {
        let at = word(tokens, at, OF)?;
        let (first, at) = self.each(tokens, at)?;
        let ((first, others), at) = pair(first, self.other_eaches(tokens, at))?;
        let (((first, others), predicate), at) = pair((first, others), self.predicate(tokens, at))?;
        Ok(((first, (others, predicate)), at))
    }

    /// An expression, or a target with its variables.
    fn plain_element(&self, tokens: &[Token], at: usize) -> Result<(Element, usize), ReadErr>
        requires expr { ReadsExpr self.now.depth (E.pre self.now.expr) (E.post self.now.expr) }
        requires range { ReadsRange self.now.depth (R.pre self.now.range) (R.post self.now.range) }
        ensures { Reads tokens.now result (made spec.element_made ((spec.at_depth self.now.depth).expr ⊗ optional (lexeme.word_of ∷ []) (spec.each_of (spec.at_depth self.now.depth))) (drop at tokens.now)) }
    {
        let (target, at) = self.expr(tokens, at)?;
        if !begins_word(tokens, at, OF) {
            return Ok((Element::Plain(target), at));
        }
        let target = Boxed::new(self.alloc, target)?;
        let ((target, (first, (others, predicate))), at) = pair(target, self.each_of(tokens, at))?;
        Ok((Element::Of(target, first, others, predicate), at))
    }

    /// Every record of a range for which a predicate holds.
    fn each_element(&self, tokens: &[Token], at: usize) -> Result<(Element, usize), ReadErr>
        requires expr { ReadsExpr self.now.depth (E.pre self.now.expr) (E.post self.now.expr) }
        requires range { ReadsRange self.now.depth (R.pre self.now.range) (R.post self.now.range) }
        ensures { Reads tokens.now result (made (λ found. elements.Each found.0 found.1) (spec.each (spec.at_depth self.now.depth) ⊗ after lexeme.colon (spec.at_depth self.now.depth).expr) (drop at tokens.now)) }
    {
        let (each, at) = self.each(tokens, at)?;
        let ((each, predicate), at) = pair(each, self.predicate(tokens, at))?;
        Ok((Element::Each(each, predicate), at))
    }

    /// An element of an aggregate.
    #[tactic(auto, unfolding(dbpl_grammar::specs::Expressions::element))]
    fn element(&self, tokens: &[Token], at: usize) -> Result<(Element, usize), ReadErr>
        requires expr { ReadsExpr self.now.depth (E.pre self.now.expr) (E.post self.now.expr) }
        requires range { ReadsRange self.now.depth (R.pre self.now.range) (R.post self.now.range) }
        ensures { Reads tokens.now result (spec.element (spec.at_depth self.now.depth) (drop at tokens.now)) }
    {
        if begins_word(tokens, at, EACH) {
            self.each_element(tokens, at)
        } else {
            self.plain_element(tokens, at)
        }
    }

    /// A comma and an element.
    fn further_element(&self, tokens: &[Token], at: usize) -> Result<(Element, usize), ReadErr>
        requires expr { ReadsExpr self.now.depth (E.pre self.now.expr) (E.post self.now.expr) }
        requires range { ReadsRange self.now.depth (R.pre self.now.range) (R.post self.now.range) }
        ensures { Reads tokens.now result (after lexeme.comma (spec.element (spec.at_depth self.now.depth)) (drop at tokens.now)) }
    {
        let at = sign(tokens, at, COMMA)?;
        self.element(tokens, at)
    }

    /// Further elements, each behind a comma.
    #[tactic(auto, using(crate::proofs::Loops::loops))]
    fn other_elements(&self, tokens: &[Token], at: usize) -> Result<(List<Element>, usize), ReadErr>
        requires expr { ReadsExpr self.now.depth (E.pre self.now.expr) (E.post self.now.expr) }
        requires range { ReadsRange self.now.depth (R.pre self.now.range) (R.post self.now.range) }
        ensures { Reads tokens.now result (many (lexeme.comma ∷ []) (after lexeme.comma (spec.element (spec.at_depth self.now.depth))) (drop at tokens.now)) }
    {
        let mut found = List::new(self.alloc);
        let mut next = at;
        for _turn in 0..turns(tokens, at) {
            if !begins_sign(tokens, next, COMMA) {
                return Ok((found, next));
            }
            let (one, behind) = self.further_element(tokens, next)?;
            found.push(one)?;
            next = behind;
        }
        Err(ReadErr::Wrong(next))
    }

    /// The first element and the others, if one begins.
    #[tactic(auto, using(crate::proofs::Pairs::pairs))]
    fn elements(
        &self,
        tokens: &[Token],
        at: usize,
    ) -> Result<(Option<(Element, List<Element>)>, usize), ReadErr>
        requires expr { ReadsExpr self.now.depth (E.pre self.now.expr) (E.post self.now.expr) }
        requires range { ReadsRange self.now.depth (R.pre self.now.range) (R.post self.now.range) }
        ensures { Reads tokens.now result (optional spec.element_first (spec.element (spec.at_depth self.now.depth) ⊗ many (lexeme.comma ∷ []) (after lexeme.comma (spec.element (spec.at_depth self.now.depth)))) (drop at tokens.now)) }
    {
        if !begins_element(tokens, at) {
            return Ok((None, at));
        }
        let (first, at) = self.element(tokens, at)?;
        let ((first, others), at) = pair(first, self.other_elements(tokens, at))?;
        Ok((Some((first, others)), at))
    }

    /// The elements of an aggregate in their braces.
    #[tactic(auto, unfolding(dbpl_grammar::specs::Expressions::braced))]
    pub fn braced(&self, tokens: &[Token], at: usize) -> Result<(List<Element>, usize), ReadErr>
        requires expr { ReadsExpr self.now.depth (E.pre self.now.expr) (E.post self.now.expr) }
        requires range { ReadsRange self.now.depth (R.pre self.now.range) (R.post self.now.range) }
        ensures { Reads tokens.now result (spec.braced (spec.at_depth self.now.depth) (drop at tokens.now)) }
    {
        let at = sign(tokens, at, LEFT_BRACE)?;
        let (found, at) = self.elements(tokens, at)?;
        let (found, at) = closing(found, sign(tokens, at, RIGHT_BRACE))?;
        Ok((all_of(self.alloc, found)?, at))
    }

    /// An aggregate.
    #[tactic(auto, unfolding(dbpl_grammar::specs::Expressions::aggregate))]
    pub fn aggregate(&self, tokens: &[Token], at: usize) -> Result<(Aggregate, usize), ReadErr>
        requires expr { ReadsExpr self.now.depth (E.pre self.now.expr) (E.post self.now.expr) }
        requires range { ReadsRange self.now.depth (R.pre self.now.range) (R.post self.now.range) }
        ensures { Reads tokens.now result (spec.aggregate (spec.at_depth self.now.depth) (drop at tokens.now)) }
    {
        let (kind, at) = qual(self.alloc, tokens, at)?;
        let (elements, at) = self.braced(tokens, at)?;
        Ok((Aggregate { kind, elements }, at))
    }
}
