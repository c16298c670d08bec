//! FOR, over numbers and over a range.
ghost use Rattle.std.specs.Prelude.{◌≡◌, ◌∷◌, [], drop};
ghost use Rattle.dbpl_grammar.specs.Expressions as phrases;
ghost use Rattle.dbpl_grammar.specs.Expressions.{at_depth};
ghost use Rattle.dbpl_grammar.specs.Reading as reading;
ghost use Rattle.dbpl_grammar.specs.Reading.{◌⊗◌, after, closed, optional};
ghost use Rattle.dbpl_grammar.specs.Statements as spec;
ghost use Rattle.dbpl_parse_expr.specs.Gives.{Reads};
ghost use Rattle.dbpl_parse_statement.specs.Nests.{ReadsStatements};
ghost use Rattle.dbpl_tree.specs.Words as lexeme;

use crate::body::Body;
use dbpl_base::words::{BECOMES, BY, COLON, DO, EACH, FOR, IN, TO};
use dbpl_base::{Boxed, Place, Token};
use dbpl_parse_expr::ReadErr;
use dbpl_parse_expr::names::ident;
use dbpl_parse_expr::pair::{closing, pair};
use dbpl_parse_expr::phrases::{boxed_expr, boxed_range};
use dbpl_parse_expr::tokens::{begins_word, here, sign, word};
use dbpl_tree::{BoxedExpr, BoxedRange, Ident, Statement, Statements};
use std::alloc::Global;

/// The step of a count, where it is written.
fn optional_step(
    alloc: Global,
    tokens: &[Token],
    at: usize,
    depth: u8,
) -> Result<(Option<BoxedExpr>, usize), ReadErr>
    ensures { Reads tokens.now result (optional (lexeme.word_by ∷ []) (after lexeme.word_by (at_depth depth).expr) (drop at tokens.now)) }
{
    if !begins_word(tokens, at, BY) {
        return Ok((None, at));
    }
    let at = word(tokens, at, BY)?;
    let (step, at) = boxed_expr(alloc, tokens, at, depth)?;
    Ok((Some(step), at))
}

impl<S: Fn(Global, &[Token], usize, u8) -> Result<(Statements, usize), ReadErr>> Body<S> {
    /// The step of a count, and the statements.
    #[tactic(auto, using(dbpl_parse_expr::proofs::Pairs::pairs))]
    fn stepped(
        &self,
        tokens: &[Token],
        at: usize,
    ) -> Result<((Option<BoxedExpr>, Boxed<Statements>), usize), ReadErr>
        requires statements { ReadsStatements self.now.depth (S.pre self.now.statements) (S.post self.now.statements) }
        ensures { Reads tokens.now result ((optional (lexeme.word_by ∷ []) (after lexeme.word_by (at_depth self.now.depth).expr) ⊗ after lexeme.word_do (closed (spec.statements_at self.now.depth) lexeme.word_end)) (drop at tokens.now)) }
    {
        let (step, at) = optional_step(self.alloc, tokens, at, self.depth)?;
        let (step, at) = closing(step, word(tokens, at, DO))?;
        let ((step, body), at) = pair(step, self.boxed_ended(tokens, at))?;
        Ok(((step, body), at))
    }

    /// What a count goes to, its step, and the statements.
    #[tactic(auto, using(dbpl_parse_expr::proofs::Pairs::pairs))]
    fn upwards(
        &self,
        tokens: &[Token],
        at: usize,
    ) -> Result<((BoxedExpr, (Option<BoxedExpr>, Boxed<Statements>)), usize), ReadErr>
        requires statements { ReadsStatements self.now.depth (S.pre self.now.statements) (S.post self.now.statements) }
        ensures { Reads tokens.now result (((at_depth self.now.depth).expr ⊗ optional (lexeme.word_by ∷ []) (after lexeme.word_by (at_depth self.now.depth).expr) ⊗ after lexeme.word_do (closed (spec.statements_at self.now.depth) lexeme.word_end)) (drop at tokens.now)) }
    {
        let (high, at) = boxed_expr(self.alloc, tokens, at, self.depth)?;
        let ((high, rest), at) = pair(high, self.stepped(tokens, at))?;
        Ok(((high, rest), at))
    }

    /// What follows FOR where it goes over numbers.
    #[tactic(auto, using(dbpl_parse_expr::proofs::Pairs::pairs))]
    fn counts(
        &self,
        tokens: &[Token],
        at: usize,
    ) -> Result<
        (
            (
                Ident,
                (
                    BoxedExpr,
                    (BoxedExpr, (Option<BoxedExpr>, Boxed<Statements>)),
                ),
            ),
            usize,
        ),
        ReadErr,
    >
        requires statements { ReadsStatements self.now.depth (S.pre self.now.statements) (S.post self.now.statements) }
        ensures { Reads tokens.now result ((phrases.ident ⊗ after lexeme.becomes_sign ((at_depth self.now.depth).expr ⊗ after lexeme.word_to ((at_depth self.now.depth).expr ⊗ optional (lexeme.word_by ∷ []) (after lexeme.word_by (at_depth self.now.depth).expr) ⊗ after lexeme.word_do (closed (spec.statements_at self.now.depth) lexeme.word_end)))) (drop at tokens.now)) }
    {
        let (variable, at) = ident(self.alloc, tokens, at)?;
        let (variable, at) = closing(variable, sign(tokens, at, BECOMES))?;
        let (found, at) = pair(variable, boxed_expr(self.alloc, tokens, at, self.depth))?;
        let (found, at) = closing(found, word(tokens, at, TO))?;
        let (((variable, low), rest), at) = pair(found, self.upwards(tokens, at))?;
        Ok(((variable, (low, rest)), at))
    }

    /// What is to hold of a record, and the statements between DO and END.
    #[tactic(auto, using(dbpl_parse_expr::proofs::Pairs::pairs))]
    fn filtered(
        &self,
        tokens: &[Token],
        at: usize,
    ) -> Result<((BoxedExpr, Boxed<Statements>), usize), ReadErr>
        requires statements { ReadsStatements self.now.depth (S.pre self.now.statements) (S.post self.now.statements) }
        ensures { Reads tokens.now result (((at_depth self.now.depth).expr ⊗ after lexeme.word_do (closed (spec.statements_at self.now.depth) lexeme.word_end)) (drop at tokens.now)) }
    {
        let (predicate, at) = boxed_expr(self.alloc, tokens, at, self.depth)?;
        let (predicate, at) = closing(predicate, word(tokens, at, DO))?;
        let ((predicate, body), at) = pair(predicate, self.boxed_ended(tokens, at))?;
        Ok(((predicate, body), at))
    }

    /// What follows FOR where it goes over a range.
    #[tactic(auto, using(dbpl_parse_expr::proofs::Pairs::pairs))]
    fn ranges(
        &self,
        tokens: &[Token],
        at: usize,
    ) -> Result<
        (
            (Place, (Ident, (BoxedRange, (BoxedExpr, Boxed<Statements>)))),
            usize,
        ),
        ReadErr,
    >
        requires statements { ReadsStatements self.now.depth (S.pre self.now.statements) (S.post self.now.statements) }
        ensures { Reads tokens.now result ((reading.here ⊗ after lexeme.word_each (phrases.ident ⊗ after lexeme.word_in ((at_depth self.now.depth).range ⊗ after lexeme.colon ((at_depth self.now.depth).expr ⊗ after lexeme.word_do (closed (spec.statements_at self.now.depth) lexeme.word_end))))) (drop at tokens.now)) }
    {
        let each = here(tokens, at)?;
        let at = word(tokens, at, EACH)?;
        let (variable, at) = ident(self.alloc, tokens, at)?;
        let (variable, at) = closing(variable, word(tokens, at, IN))?;
        let (found, at) = pair(variable, boxed_range(self.alloc, tokens, at, self.depth))?;
        let (found, at) = closing(found, sign(tokens, at, COLON))?;
        let (((variable, range), rest), at) = pair(found, self.filtered(tokens, at))?;
        Ok(((each, (variable, (range, rest))), at))
    }

    /// FOR.
    #[tactic(auto, unfolding(dbpl_grammar::specs::Statements::for_statement, dbpl_grammar::specs::Statements::counts, dbpl_grammar::specs::Statements::ranges))]
    pub fn for_statement(&self, tokens: &[Token], at: usize) -> Result<(Statement, usize), ReadErr>
        requires statements { ReadsStatements self.now.depth (S.pre self.now.statements) (S.post self.now.statements) }
        ensures { Reads tokens.now result (spec.for_statement (at_depth self.now.depth) (spec.statements_at self.now.depth) (drop at tokens.now)) }
    {
        let place = here(tokens, at)?;
        let at = word(tokens, at, FOR)?;
        if begins_word(tokens, at, EACH) {
            let ((each, (variable, (range, (predicate, body)))), at) = self.ranges(tokens, at)?;
            return Ok((
                Statement::ForEach(place, each, variable, range, predicate, body),
                at,
            ));
        }
        let ((variable, (low, (high, (step, body)))), at) = self.counts(tokens, at)?;
        Ok((Statement::For(place, variable, low, high, step, body), at))
    }
}
