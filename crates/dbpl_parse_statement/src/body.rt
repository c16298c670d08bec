//! The productions take the parser of the statements inside, so that each is proved by itself.
ghost use Rattle.std.specs.Prelude.{◌≡◌, drop};
ghost use Rattle.dbpl_grammar.specs.Reading.{closed};
ghost use Rattle.dbpl_grammar.specs.Statements as spec;
ghost use Rattle.dbpl_parse_expr.specs.Gives.{Reads};
ghost use Rattle.dbpl_parse_statement.specs.Nests.{ReadsStatements};
ghost use Rattle.dbpl_tree.specs.Words as lexeme;

use dbpl_base::words::END;
use dbpl_base::{Boxed, Token};
use dbpl_parse_expr::ReadErr;
use dbpl_parse_expr::pair::closing;
use dbpl_parse_expr::tokens::word;
use dbpl_tree::Statements;
use std::alloc::Global;

/// What is read where so many phrases may still stand inside one another.
#[derive(Clone, Copy)]
pub struct Body<S> {
    pub alloc: Global,
    pub depth: u8,
    pub statements: S,
}

impl<S: Fn(Global, &[Token], usize, u8) -> Result<(Statements, usize), ReadErr>> Body<S> {
    pub fn statements(&self, tokens: &[Token], at: usize) -> Result<(Statements, usize), ReadErr>
        requires statements { ReadsStatements self.now.depth (S.pre self.now.statements) (S.post self.now.statements) }
        ensures { Reads tokens.now result (spec.statements_at self.now.depth (drop at tokens.now)) }
    {
        (self.statements)(self.alloc, tokens, at, self.depth)
    }

    /// Statements, up to and with the word END.
    #[tactic(auto, using(dbpl_parse_expr::proofs::Pairs::pairs))]
    pub fn ended(&self, tokens: &[Token], at: usize) -> Result<(Statements, usize), ReadErr>
        requires statements { ReadsStatements self.now.depth (S.pre self.now.statements) (S.post self.now.statements) }
        ensures { Reads tokens.now result (closed (spec.statements_at self.now.depth) lexeme.word_end (drop at tokens.now)) }
    {
        let (found, at) = self.statements(tokens, at)?;
        let (found, at) = closing(found, word(tokens, at, END))?;
        Ok((found, at))
    }

    /// Statements in a box of their own, up to and with the word END.
    pub fn boxed_ended(
        &self,
        tokens: &[Token],
        at: usize,
    ) -> Result<(Boxed<Statements>, usize), ReadErr>
        requires statements { ReadsStatements self.now.depth (S.pre self.now.statements) (S.post self.now.statements) }
        ensures { Reads tokens.now result (closed (spec.statements_at self.now.depth) lexeme.word_end (drop at tokens.now)) }
    {
        let (found, at) = self.ended(tokens, at)?;
        Ok((Boxed::new(self.alloc, found)?, at))
    }
}
