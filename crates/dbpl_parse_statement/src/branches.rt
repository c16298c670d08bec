//! IF, and the branch ELSE.
ghost use Rattle.std.specs.Prelude.{◌≡◌, ◌∷◌, [], drop};
ghost use Rattle.dbpl_grammar.specs.Expressions.{at_depth};
ghost use Rattle.dbpl_grammar.specs.Reading.{◌⊗◌, closed, many};
ghost use Rattle.dbpl_grammar.specs.Statements as spec;
ghost use Rattle.dbpl_parse_expr.specs.Gives.{Reads};
ghost use Rattle.dbpl_parse_statement.specs.Nests.{ReadsStatements};
ghost use Rattle.dbpl_tree.specs.Words as lexeme;

use crate::body::Body;
use dbpl_base::words::{ELSE, ELSIF, END, IF, THEN};
use dbpl_base::{Boxed, List, Token};
use dbpl_parse_expr::ReadErr;
use dbpl_parse_expr::pair::{closing, pair};
use dbpl_parse_expr::phrases::{boxed_expr, expr};
use dbpl_parse_expr::tokens::{begins_word, here, turns, word};
use dbpl_tree::{Elsif, ElsifOf, Statement, Statements};
use std::alloc::Global;

impl<S: Fn(Global, &[Token], usize, u8) -> Result<(Statements, usize), ReadErr>> Body<S> {
    /// ELSE and its statements, where it stands.
    #[tactic(auto, unfolding(dbpl_grammar::specs::Statements::otherwise))]
    fn otherwise(
        &self,
        tokens: &[Token],
        at: usize,
    ) -> Result<(Option<Boxed<Statements>>, usize), ReadErr>
        requires statements { ReadsStatements self.now.depth (S.pre self.now.statements) (S.post self.now.statements) }
        ensures { Reads tokens.now result (spec.otherwise (spec.statements_at self.now.depth) (drop at tokens.now)) }
    {
        if !begins_word(tokens, at, ELSE) {
            return Ok((None, at));
        }
        let at = word(tokens, at, ELSE)?;
        let (found, at) = self.statements(tokens, at)?;
        Ok((Some(Boxed::new(self.alloc, found)?), at))
    }

    /// The branch ELSE, where it stands, up to and with the word END.
    #[tactic(auto, using(dbpl_parse_expr::proofs::Pairs::pairs))]
    pub fn otherwise_ended(
        &self,
        tokens: &[Token],
        at: usize,
    ) -> Result<(Option<Boxed<Statements>>, usize), ReadErr>
        requires statements { ReadsStatements self.now.depth (S.pre self.now.statements) (S.post self.now.statements) }
        ensures { Reads tokens.now result (closed (spec.otherwise (spec.statements_at self.now.depth)) lexeme.word_end (drop at tokens.now)) }
    {
        let (found, at) = self.otherwise(tokens, at)?;
        let (found, at) = closing(found, word(tokens, at, END))?;
        Ok((found, at))
    }

    /// A further branch.
    #[tactic(auto, using(dbpl_parse_expr::proofs::Pairs::pairs), unfolding(dbpl_grammar::specs::Statements::elsif))]
    fn elsif(&self, tokens: &[Token], at: usize) -> Result<(Elsif, usize), ReadErr>
        requires statements { ReadsStatements self.now.depth (S.pre self.now.statements) (S.post self.now.statements) }
        ensures { Reads tokens.now result (spec.elsif (at_depth self.now.depth) (spec.statements_at self.now.depth) (drop at tokens.now)) }
    {
        let at = word(tokens, at, ELSIF)?;
        let (condition, at) = expr(self.alloc, tokens, at, self.depth)?;
        let (condition, at) = closing(condition, word(tokens, at, THEN))?;
        let ((condition, body), at) = pair(condition, self.statements(tokens, at))?;
        Ok((ElsifOf { condition, body }, at))
    }

    /// Further branches.
    #[tactic(auto, using(dbpl_parse_expr::proofs::Loops::loops))]
    fn elsifs(&self, tokens: &[Token], at: usize) -> Result<(List<Elsif>, usize), ReadErr>
        requires statements { ReadsStatements self.now.depth (S.pre self.now.statements) (S.post self.now.statements) }
        ensures { Reads tokens.now result (many (lexeme.word_elsif ∷ []) (spec.elsif (at_depth self.now.depth) (spec.statements_at self.now.depth)) (drop at tokens.now)) }
    {
        let mut found = List::new(self.alloc);
        let mut next = at;
        for _turn in 0..turns(tokens, at) {
            if !begins_word(tokens, next, ELSIF) {
                return Ok((found, next));
            }
            let (one, behind) = self.elsif(tokens, next)?;
            found.push(one)?;
            next = behind;
        }
        Err(ReadErr::Wrong(next))
    }

    /// The statements behind a condition, and all further branches.
    #[tactic(auto, using(dbpl_parse_expr::proofs::Pairs::pairs))]
    fn branches(
        &self,
        tokens: &[Token],
        at: usize,
    ) -> Result<
        (
            (Statements, (List<Elsif>, Option<Boxed<Statements>>)),
            usize,
        ),
        ReadErr,
    >
        requires statements { ReadsStatements self.now.depth (S.pre self.now.statements) (S.post self.now.statements) }
        ensures { Reads tokens.now result ((spec.statements_at self.now.depth ⊗ many (lexeme.word_elsif ∷ []) (spec.elsif (at_depth self.now.depth) (spec.statements_at self.now.depth)) ⊗ closed (spec.otherwise (spec.statements_at self.now.depth)) lexeme.word_end) (drop at tokens.now)) }
    {
        let (body, at) = self.statements(tokens, at)?;
        let ((body, elsifs), at) = pair(body, self.elsifs(tokens, at))?;
        let (((body, elsifs), otherwise), at) = pair(
            (body, elsifs),
            self.otherwise_ended(tokens, at),
        )?;
        Ok(((body, (elsifs, otherwise)), at))
    }

    /// IF.
    #[tactic(auto, using(dbpl_parse_expr::proofs::Pairs::pairs), unfolding(dbpl_grammar::specs::Statements::if_statement))]
    pub fn if_statement(&self, tokens: &[Token], at: usize) -> Result<(Statement, usize), ReadErr>
        requires statements { ReadsStatements self.now.depth (S.pre self.now.statements) (S.post self.now.statements) }
        ensures { Reads tokens.now result (spec.if_statement (at_depth self.now.depth) (spec.statements_at self.now.depth) (drop at tokens.now)) }
    {
        let place = here(tokens, at)?;
        let at = word(tokens, at, IF)?;
        let (condition, at) = boxed_expr(self.alloc, tokens, at, self.depth)?;
        let (condition, at) = closing(condition, word(tokens, at, THEN))?;
        let ((condition, (body, (elsifs, otherwise))), at) = pair(
            condition,
            self.branches(tokens, at),
        )?;
        Ok((Statement::If(place, condition, body, elsifs, otherwise), at))
    }
}
