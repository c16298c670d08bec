//! WHILE, REPEAT and LOOP.
ghost use Rattle.std.specs.Prelude.{◌≡◌, drop};
ghost use Rattle.dbpl_grammar.specs.Expressions.{at_depth};
ghost use Rattle.dbpl_grammar.specs.Reading.{◌⊗◌, after, closed};
ghost use Rattle.dbpl_grammar.specs.Statements as spec;
ghost use Rattle.dbpl_parse_expr.specs.Gives.{Reads};
ghost use Rattle.dbpl_parse_statement.specs.Nests.{ReadsStatements};
ghost use Rattle.dbpl_tree.specs.Words as lexeme;

use crate::body::Body;
use dbpl_base::Token;
use dbpl_base::words::{DO, LOOP, REPEAT, UNTIL, WHILE};
use dbpl_parse_expr::ReadErr;
use dbpl_parse_expr::pair::{closing, pair};
use dbpl_parse_expr::phrases::boxed_expr;
use dbpl_parse_expr::tokens::{here, word};
use dbpl_tree::{BoxedExpr, Statement, Statements};
use std::alloc::Global;

impl<S: Fn(Global, &[Token], usize, u8) -> Result<(Statements, usize), ReadErr>> Body<S> {
    /// A condition, and the statements between DO and END.
    #[tactic(auto, using(dbpl_parse_expr::proofs::Pairs::pairs))]
    fn guarded(
        &self,
        tokens: &[Token],
        at: usize,
    ) -> Result<((BoxedExpr, Statements), usize), ReadErr>
        requires statements { ReadsStatements self.now.depth (S.pre self.now.statements) (S.post self.now.statements) }
        ensures { Reads tokens.now result (((at_depth self.now.depth).expr ⊗ after lexeme.word_do (closed (spec.statements_at self.now.depth) lexeme.word_end)) (drop at tokens.now)) }
    {
        let (condition, at) = boxed_expr(self.alloc, tokens, at, self.depth)?;
        let (condition, at) = closing(condition, word(tokens, at, DO))?;
        let ((condition, body), at) = pair(condition, self.ended(tokens, at))?;
        Ok(((condition, body), at))
    }

    /// WHILE.
    #[tactic(auto, unfolding(dbpl_grammar::specs::Statements::while_statement))]
    pub fn while_statement(
        &self,
        tokens: &[Token],
        at: usize,
    ) -> Result<(Statement, usize), ReadErr>
        requires statements { ReadsStatements self.now.depth (S.pre self.now.statements) (S.post self.now.statements) }
        ensures { Reads tokens.now result (spec.while_statement (at_depth self.now.depth) (spec.statements_at self.now.depth) (drop at tokens.now)) }
    {
        let place = here(tokens, at)?;
        let at = word(tokens, at, WHILE)?;
        let ((condition, body), at) = self.guarded(tokens, at)?;
        Ok((Statement::While(place, condition, body), at))
    }

    /// REPEAT.
    #[tactic(auto, using(dbpl_parse_expr::proofs::Pairs::pairs), unfolding(dbpl_grammar::specs::Statements::repeat_statement))]
    pub fn repeat_statement(
        &self,
        tokens: &[Token],
        at: usize,
    ) -> Result<(Statement, usize), ReadErr>
        requires statements { ReadsStatements self.now.depth (S.pre self.now.statements) (S.post self.now.statements) }
        ensures { Reads tokens.now result (spec.repeat_statement (at_depth self.now.depth) (spec.statements_at self.now.depth) (drop at tokens.now)) }
    {
        let place = here(tokens, at)?;
        let at = word(tokens, at, REPEAT)?;
        let (body, at) = self.statements(tokens, at)?;
        let (body, at) = closing(body, word(tokens, at, UNTIL))?;
        let ((body, condition), at) = pair(body, boxed_expr(self.alloc, tokens, at, self.depth))?;
        Ok((Statement::Repeat(place, body, condition), at))
    }

    /// LOOP.
    #[tactic(auto, unfolding(dbpl_grammar::specs::Statements::loop_statement))]
    pub fn loop_statement(&self, tokens: &[Token], at: usize) -> Result<(Statement, usize), ReadErr>
        requires statements { ReadsStatements self.now.depth (S.pre self.now.statements) (S.post self.now.statements) }
        ensures { Reads tokens.now result (spec.loop_statement (spec.statements_at self.now.depth) (drop at tokens.now)) }
    {
        let place = here(tokens, at)?;
        let at = word(tokens, at, LOOP)?;
        let (body, at) = self.ended(tokens, at)?;
        Ok((Statement::Loop(place, body), at))
    }
}
