//! A statement, and statements with semicolons between them.
ghost use Rattle.std.specs.Prelude.{◌≡◌, ◌∷◌, [], drop};
ghost use Rattle.dbpl_grammar.specs.Expressions.{at_depth};
ghost use Rattle.dbpl_grammar.specs.Reading.{after, many};
ghost use Rattle.dbpl_grammar.specs.Statements as spec;
ghost use Rattle.dbpl_parse_expr.specs.Gives.{Reads};
ghost use Rattle.dbpl_parse_statement.specs.Nests.{ReadsStatements};
ghost use Rattle.dbpl_tree.specs.Words as lexeme;

use crate::action::action;
use crate::body::Body;
use crate::leaving::{empty_statement, exit_statement, return_statement};
use dbpl_base::words::{CASE, EXIT, FOR, IF, LOOP, REPEAT, RETURN, SEMICOLON, WHILE};
use dbpl_base::{Boxed, Lexeme, List, Token};
use dbpl_parse_expr::ReadErr;
use dbpl_parse_expr::pair::pair;
use dbpl_parse_expr::tokens::{begins_sign, lexeme_at, sign, turns};
use dbpl_tree::{Statement, Statements, StatementsOf};
use std::alloc::Global;

impl<S: Fn(Global, &[Token], usize, u8) -> Result<(Statements, usize), ReadErr>> Body<S> {
    /// A statement.
    #[tactic(auto, unfolding(dbpl_grammar::specs::Statements::statement_by))]
    fn statement(&self, tokens: &[Token], at: usize) -> Result<(Statement, usize), ReadErr>
        requires statements { ReadsStatements self.now.depth (S.pre self.now.statements) (S.post self.now.statements) }
        ensures { Reads tokens.now result (spec.statement_by (at_depth self.now.depth) (spec.statements_at self.now.depth) (drop at tokens.now)) }
    {
        match lexeme_at(tokens, at) {
            Some(Lexeme::Ident(_)) => action(self.alloc, tokens, at, self.depth),
            Some(Lexeme::Reserved(IF)) => self.if_statement(tokens, at),
            Some(Lexeme::Reserved(CASE)) => self.case_statement(tokens, at),
            Some(Lexeme::Reserved(WHILE)) => self.while_statement(tokens, at),
            Some(Lexeme::Reserved(REPEAT)) => self.repeat_statement(tokens, at),
            Some(Lexeme::Reserved(LOOP)) => self.loop_statement(tokens, at),
            Some(Lexeme::Reserved(EXIT)) => exit_statement(tokens, at),
            Some(Lexeme::Reserved(RETURN)) => {
                return_statement(self.alloc, tokens, at, self.depth)
            }
            Some(Lexeme::Reserved(FOR)) => self.for_statement(tokens, at),
            _ => empty_statement(tokens, at),
        }
    }

    /// A semicolon and a statement.
    fn further_statement(&self, tokens: &[Token], at: usize) -> Result<(Statement, usize), ReadErr>
        requires statements { ReadsStatements self.now.depth (S.pre self.now.statements) (S.post self.now.statements) }
        ensures { Reads tokens.now result (after lexeme.semicolon (spec.statement_by (at_depth self.now.depth) (spec.statements_at self.now.depth)) (drop at tokens.now)) }
    {
        let at = sign(tokens, at, SEMICOLON)?;
        self.statement(tokens, at)
    }

    /// Further statements, each behind a semicolon.
    #[tactic(auto, using(dbpl_parse_expr::proofs::Loops::loops))]
    fn other_statements(
        &self,
        tokens: &[Token],
        at: usize,
    ) -> Result<(List<Statement>, usize), ReadErr>
        requires statements { ReadsStatements self.now.depth (S.pre self.now.statements) (S.post self.now.statements) }
        ensures { Reads tokens.now result (many (lexeme.semicolon ∷ []) (after lexeme.semicolon (spec.statement_by (at_depth self.now.depth) (spec.statements_at self.now.depth))) (drop at tokens.now)) }
    {
        let mut found = List::new(self.alloc);
        let mut next = at;
        for _turn in 0..turns(tokens, at) {
            if !begins_sign(tokens, next, SEMICOLON) {
                return Ok((found, next));
            }
            let (one, behind) = self.further_statement(tokens, next)?;
            found.push(one)?;
            next = behind;
        }
        Err(ReadErr::Wrong(next))
    }

    /// A statement with its own memory.
    fn boxed_statement(
        &self,
        tokens: &[Token],
        at: usize,
    ) -> Result<(Boxed<Statement>, usize), ReadErr>
        requires statements { ReadsStatements self.now.depth (S.pre self.now.statements) (S.post self.now.statements) }
        ensures { Reads tokens.now result (spec.statement_by (at_depth self.now.depth) (spec.statements_at self.now.depth) (drop at tokens.now)) }
    {
        let (found, at) = self.statement(tokens, at)?;
        Ok((Boxed::new(self.alloc, found)?, at))
    }

    /// Statements in which so many phrases may stand inside one another.
    #[tactic(auto, using(dbpl_parse_expr::proofs::Pairs::pairs), unfolding(dbpl_grammar::specs::Statements::statements_by))]
    pub fn whole_statements(
        &self,
        tokens: &[Token],
        at: usize,
    ) -> Result<(Statements, usize), ReadErr>
        requires statements { ReadsStatements self.now.depth (S.pre self.now.statements) (S.post self.now.statements) }
        ensures { Reads tokens.now result (spec.statements_by (spec.statement_by (at_depth self.now.depth) (spec.statements_at self.now.depth)) (drop at tokens.now)) }
    {
        let (first, at) = self.boxed_statement(tokens, at)?;
        let ((first, others), at) = pair(first, self.other_statements(tokens, at))?;
        Ok((StatementsOf { first, others }, at))
    }
}
