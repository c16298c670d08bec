use crate::declarations::checker_of;
use crate::notation::{show_facts, show_place};
use crate::shown::show_expr;
use dbpl_base::limits::SOURCE_BYTES;
use dbpl_base::{Memory, Place, Refusal, Token};
use dbpl_judging::Typed;
use dbpl_parse_expr::tokens::place_at;
use dbpl_parse_expr::{ParseErr, parse_expr};
use dbpl_rules_expr::expr;
use dbpl_scan::{ScanErr, scan};
use dbpl_tree::Expr;
use std::alloc::Global;
use std::fmt::Write;

/// The unit whose text an expression is. It is not the first one, so that the front of the first, where a form is
/// refused that isn't built yet, is no place of an expression.
pub(crate) const UNIT: u8 = 1;

/// What the scanner, the parser and the rules make of this text, in the notation of the table.
pub(crate) fn answer_to(alloc: Global, text: &str) -> Result<String, Memory> {
    if text.len() > SOURCE_BYTES as usize {
        return Ok(String::from_str(alloc, "too long")?);
    }
    match scan(alloc, UNIT, text.as_bytes()) {
        Ok(tokens) => read(alloc, tokens.as_slice()),
        Err(ScanErr::Bad(place)) => refused(alloc, 101, place),
        Err(ScanErr::Memory) => Err(Memory),
    }
}

/// What becomes of tokens that are to be an expression and nothing more.
fn read(alloc: Global, tokens: &[Token]) -> Result<String, Memory> {
    match parse_expr(alloc, tokens, 0, 0) {
        Ok((e, behind)) => {
            if behind.saturating_add(1) < tokens.len() {
                return refused(alloc, 102, place_at(tokens, behind));
            }
            judged(alloc, &e)
        }
        Err(ParseErr::Syntax(place)) => refused(alloc, 102, place),
        Err(ParseErr::Deep(place)) => refused(alloc, 103, place),
        Err(ParseErr::Memory) => Err(Memory),
    }
}

/// What the rules make of an expression.
fn judged(alloc: Global, e: &Expr) -> Result<String, Memory> {
    let mut checker = checker_of(alloc)?;
    let typed = expr(alloc, &mut checker, e)?;
    match (checker.least(), typed) {
        (Some(Refusal { place, rule }), _) => refused(alloc, rule, place),
        (None, Some(typed)) => accepted(alloc, &typed),
        (None, None) => Ok(String::from_str(alloc, "silent")?),
    }
}

/// That this rule is broken there: of the rules of texts, whose numbers are 100 and more, or of the others.
fn refused(alloc: Global, rule: u16, place: Place) -> Result<String, Memory> {
    let mut answer = String::new(alloc);
    match rule.checked_sub(100) {
        Some(number) => write!(answer, "L{number} ")?,
        None => write!(answer, "S{rule} ")?,
    }
    show_place(&mut answer, place)?;
    Ok(answer)
}

/// What is known of an expression, and its resolved form.
fn accepted(alloc: Global, typed: &Typed) -> Result<String, Memory> {
    let mut answer = String::from_str(alloc, "ok ")?;
    show_facts(&mut answer, &typed.facts)?;
    answer.push_str(" at ")?;
    show_place(&mut answer, typed.facts.place)?;
    answer.push_str(", ")?;
    show_expr(&mut answer, typed.tree.get())?;
    Ok(answer)
}
