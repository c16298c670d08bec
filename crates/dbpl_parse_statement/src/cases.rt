//! CASE and its branches.
ghost use Rattle.std.specs.Prelude.{◌≡◌, ◌∷◌, [], drop};
ghost use Rattle.dbpl_grammar.specs.Expressions.{at_depth};
ghost use Rattle.dbpl_grammar.specs.Reading.{◌⊗◌, after, closed, many, optional};
ghost use Rattle.dbpl_grammar.specs.Statements as spec;
ghost use Rattle.dbpl_parse_expr.specs.Gives.{Reads};
ghost use Rattle.dbpl_parse_statement.specs.Nests.{ReadsStatements};
ghost use Rattle.dbpl_tree.specs.Words as lexeme;

use crate::body::Body;
use dbpl_base::words::{BAR, CASE, COLON, COMMA, ELLIPSIS, OF};
use dbpl_base::{Boxed, List, Token};
use dbpl_parse_expr::ReadErr;
use dbpl_parse_expr::pair::{closing, pair};
use dbpl_parse_expr::phrases::boxed_expr;
use dbpl_parse_expr::sets::begins_expr;
use dbpl_parse_expr::tokens::{begins_sign, here, sign, turns, word};
use dbpl_tree::{BoxedExpr, Case, CaseOf, Label, Statement, Statements};
use std::alloc::Global;

/// The upper end of a label, where it has one.
fn optional_high(
    alloc: Global,
    tokens: &[Token],
    at: usize,
    depth: u8,
) -> Result<(Option<BoxedExpr>, usize), ReadErr>
    ensures { Reads tokens.now result (optional (lexeme.ellipsis ∷ []) (after lexeme.ellipsis (at_depth depth).expr) (drop at tokens.now)) }
{
    if !begins_sign(tokens, at, ELLIPSIS) {
        return Ok((None, at));
    }
    let at = sign(tokens, at, ELLIPSIS)?;
    let (high, at) = boxed_expr(alloc, tokens, at, depth)?;
    Ok((Some(high), at))
}

/// A label.
#[tactic(auto, using(dbpl_parse_expr::proofs::Pairs::pairs), unfolding(dbpl_grammar::specs::Statements::label))]
fn label(alloc: Global, tokens: &[Token], at: usize, depth: u8) -> Result<(Label, usize), ReadErr>
    ensures { Reads tokens.now result (spec.label (at_depth depth) (drop at tokens.now)) }
{
    let (low, at) = boxed_expr(alloc, tokens, at, depth)?;
    let ((low, high), at) = pair(low, optional_high(alloc, tokens, at, depth))?;
    Ok((Label { low, high }, at))
}

/// A comma and a label.
fn further_label(
    alloc: Global,
    tokens: &[Token],
    at: usize,
    depth: u8,
) -> Result<(Label, usize), ReadErr>
    ensures { Reads tokens.now result (after lexeme.comma (spec.label (at_depth depth)) (drop at tokens.now)) }
{
    let at = sign(tokens, at, COMMA)?;
    label(alloc, tokens, at, depth)
}

/// Further labels, each behind a comma.
#[tactic(auto, using(dbpl_parse_expr::proofs::Loops::loops))]
fn other_labels(
    alloc: Global,
    tokens: &[Token],
    at: usize,
    depth: u8,
) -> Result<(List<Label>, usize), ReadErr>
    ensures { Reads tokens.now result (many (lexeme.comma ∷ []) (after lexeme.comma (spec.label (at_depth depth))) (drop at tokens.now)) }
{
    let mut found = List::new(alloc);
    let mut next = at;
    for _turn in 0..turns(tokens, at) {
        if !begins_sign(tokens, next, COMMA) {
            return Ok((found, next));
        }
        let (one, behind) = further_label(alloc, tokens, next, depth)?;
        found.push(one)?;
        next = behind;
    }
    Err(ReadErr::Wrong(next))
}

impl<S: Fn(Global, &[Token], usize, u8) -> Result<(Statements, usize), ReadErr>> Body<S> {
    /// Labels and the statements behind them.
    #[tactic(auto, using(dbpl_parse_expr::proofs::Pairs::pairs))]
    fn labelled(
        &self,
        tokens: &[Token],
        at: usize,
    ) -> Result<((Label, (List<Label>, Statements)), usize), ReadErr>
        requires statements { ReadsStatements self.now.depth (S.pre self.now.statements) (S.post self.now.statements) }
        ensures { Reads tokens.now result ((spec.label (at_depth self.now.depth) ⊗ many (lexeme.comma ∷ []) (after lexeme.comma (spec.label (at_depth self.now.depth))) ⊗ after lexeme.colon (spec.statements_at self.now.depth)) (drop at tokens.now)) }
    {
        let (first, at) = label(self.alloc, tokens, at, self.depth)?;
        let (labels, at) = pair(first, other_labels(self.alloc, tokens, at, self.depth))?;
        let (labels, at) = closing(labels, sign(tokens, at, COLON))?;
        let (((first, others), body), at) = pair(labels, self.statements(tokens, at))?;
        Ok(((first, (others, body)), at))
    }

    /// A branch, which may be empty.
    #[tactic(auto, unfolding(dbpl_grammar::specs::Statements::case_by))]
    fn case(&self, tokens: &[Token], at: usize) -> Result<(Case, usize), ReadErr>
        requires statements { ReadsStatements self.now.depth (S.pre self.now.statements) (S.post self.now.statements) }
        ensures { Reads tokens.now result (spec.case_by (at_depth self.now.depth) (spec.statements_at self.now.depth) (drop at tokens.now)) }
    {
        if !begins_expr(tokens, at) {
            let place = here(tokens, at)?;
            return Ok((CaseOf::Empty(place), at));
        }
        let ((first, (others, body)), at) = self.labelled(tokens, at)?;
        Ok((CaseOf::Labelled(first, others, body), at))
    }

    /// A bar and a branch.
    fn further_case(&self, tokens: &[Token], at: usize) -> Result<(Case, usize), ReadErr>
        requires statements { ReadsStatements self.now.depth (S.pre self.now.statements) (S.post self.now.statements) }
        ensures { Reads tokens.now result (after lexeme.bar (spec.case_by (at_depth self.now.depth) (spec.statements_at self.now.depth)) (drop at tokens.now)) }
    {
        let at = sign(tokens, at, BAR)?;
        self.case(tokens, at)
    }

    /// Further branches, each behind a bar.
    #[tactic(auto, using(dbpl_parse_expr::proofs::Loops::loops))]
    fn other_cases(&self, tokens: &[Token], at: usize) -> Result<(List<Case>, usize), ReadErr>
        requires statements { ReadsStatements self.now.depth (S.pre self.now.statements) (S.post self.now.statements) }
        ensures { Reads tokens.now result (many (lexeme.bar ∷ []) (after lexeme.bar (spec.case_by (at_depth self.now.depth) (spec.statements_at self.now.depth))) (drop at tokens.now)) }
    {
        let mut found = List::new(self.alloc);
        let mut next = at;
        for _turn in 0..turns(tokens, at) {
            if !begins_sign(tokens, next, BAR) {
                return Ok((found, next));
            }
            let (one, behind) = self.further_case(tokens, next)?;
            found.push(one)?;
            next = behind;
        }
        Err(ReadErr::Wrong(next))
    }

    /// All branches.
    #[tactic(auto, using(dbpl_parse_expr::proofs::Pairs::pairs))]
    fn cases(
        &self,
        tokens: &[Token],
        at: usize,
    ) -> Result<
        (
            (Boxed<Case>, (List<Case>, Option<Boxed<Statements>>)),
            usize,
        ),
        ReadErr,
    >
        requires statements { ReadsStatements self.now.depth (S.pre self.now.statements) (S.post self.now.statements) }
        ensures { Reads tokens.now result ((spec.case_by (at_depth self.now.depth) (spec.statements_at self.now.depth) ⊗ many (lexeme.bar ∷ []) (after lexeme.bar (spec.case_by (at_depth self.now.depth) (spec.statements_at self.now.depth))) ⊗ closed (spec.otherwise (spec.statements_at self.now.depth)) lexeme.word_end) (drop at tokens.now)) }
    {
        let (first, at) = self.case(tokens, at)?;
        let first = Boxed::new(self.alloc, first)?;
        let (cases, at) = pair(first, self.other_cases(tokens, at))?;
        let (((first, others), otherwise), at) = pair(cases, self.otherwise_ended(tokens, at))?;
        Ok(((first, (others, otherwise)), at))
    }

    /// CASE.
    #[tactic(auto, using(dbpl_parse_expr::proofs::Pairs::pairs), unfolding(dbpl_grammar::specs::Statements::case_statement))]
    pub fn case_statement(&self, tokens: &[Token], at: usize) -> Result<(Statement, usize), ReadErr>
        requires statements { ReadsStatements self.now.depth (S.pre self.now.statements) (S.post self.now.statements) }
        ensures { Reads tokens.now result (spec.case_statement (at_depth self.now.depth) (spec.statements_at self.now.depth) (drop at tokens.now)) }
    {
        let place = here(tokens, at)?;
        let at = word(tokens, at, CASE)?;
        let (selector, at) = boxed_expr(self.alloc, tokens, at, self.depth)?;
        let (selector, at) = closing(selector, word(tokens, at, OF))?;
        let ((selector, (first, (others, otherwise))), at) = pair(
            selector,
            self.cases(tokens, at),
        )?;
        Ok((
            Statement::Case(place, selector, first, others, otherwise),
            at,
        ))
    }
}
