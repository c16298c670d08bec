//! Operators: which one is next.
ghost use Rattle.std.specs.Prelude.{◌≡◌, drop};
ghost use Rattle.dbpl_grammar.specs.Expressions as spec;
ghost use Rattle.dbpl_grammar.specs.Reading as reading;
ghost use Rattle.dbpl_parse_expr.specs.Gives.{Reads};

use crate::ReadErr;
use crate::tokens::lexeme_at;
use dbpl_base::words::{
    ALL, AMPERSAND, AND, DIV, EQUALS, GREATER, GREATER_EQUAL, HASH, LESS, LESS_EQUAL, MINUS, MOD,
    NOT, OR, PLUS, SOME, TILDE, TIMES, UNEQUAL,
};
use dbpl_base::{Lexeme, Token};
use dbpl_tree::{
    AddingOperator, MultiplyingOperator, NotOperator, Quantifier, Relation, SignOperator,
};

/// An operator of a comparison.
#[tactic(auto, unfolding(dbpl_grammar::specs::Expressions::relation_of))]
pub fn relation(tokens: &[Token], at: usize) -> Result<(Relation, usize), ReadErr>
    ensures { Reads tokens.now result (reading.leaf spec.relation_of (drop at tokens.now)) }
{
    match lexeme_at(tokens, at) {
        Some(Lexeme::Sign(EQUALS)) => Ok((Relation::Equal, at + 1)),
        Some(Lexeme::Sign(HASH)) => Ok((Relation::Hash, at + 1)),
        Some(Lexeme::Sign(UNEQUAL)) => Ok((Relation::Unequal, at + 1)),
        Some(Lexeme::Sign(LESS)) => Ok((Relation::Less, at + 1)),
        Some(Lexeme::Sign(LESS_EQUAL)) => Ok((Relation::LessEqual, at + 1)),
        Some(Lexeme::Sign(GREATER)) => Ok((Relation::Greater, at + 1)),
        Some(Lexeme::Sign(GREATER_EQUAL)) => Ok((Relation::GreaterEqual, at + 1)),
        _ => Err(ReadErr::Wrong(at)),
    }
}

/// What stands before the first term.
#[tactic(auto, unfolding(dbpl_grammar::specs::Expressions::sign_of))]
pub fn sign_operator(tokens: &[Token], at: usize) -> Result<(SignOperator, usize), ReadErr>
    ensures { Reads tokens.now result (reading.leaf spec.sign_of (drop at tokens.now)) }
{
    match lexeme_at(tokens, at) {
        Some(Lexeme::Sign(PLUS)) => Ok((SignOperator::Plus, at + 1)),
        Some(Lexeme::Sign(MINUS)) => Ok((SignOperator::Minus, at + 1)),
        _ => Err(ReadErr::Wrong(at)),
    }
}

/// What stands between two terms.
#[tactic(auto, unfolding(dbpl_grammar::specs::Expressions::adding_of))]
pub fn adding(tokens: &[Token], at: usize) -> Result<(AddingOperator, usize), ReadErr>
    ensures { Reads tokens.now result (reading.leaf spec.adding_of (drop at tokens.now)) }
{
    match lexeme_at(tokens, at) {
        Some(Lexeme::Sign(PLUS)) => Ok((AddingOperator::Plus, at + 1)),
        Some(Lexeme::Sign(MINUS)) => Ok((AddingOperator::Minus, at + 1)),
        Some(Lexeme::Reserved(OR)) => Ok((AddingOperator::Or, at + 1)),
        _ => Err(ReadErr::Wrong(at)),
    }
}

/// What stands between two factors.
#[tactic(auto, unfolding(dbpl_grammar::specs::Expressions::multiplying_of))]
pub fn multiplying(tokens: &[Token], at: usize) -> Result<(MultiplyingOperator, usize), ReadErr>
    ensures { Reads tokens.now result (reading.leaf spec.multiplying_of (drop at tokens.now)) }
{
    match lexeme_at(tokens, at) {
        Some(Lexeme::Sign(TIMES)) => Ok((MultiplyingOperator::Times, at + 1)),
        Some(Lexeme::Reserved(DIV)) => Ok((MultiplyingOperator::Div, at + 1)),
        Some(Lexeme::Reserved(MOD)) => Ok((MultiplyingOperator::Mod, at + 1)),
        Some(Lexeme::Reserved(AND)) => Ok((MultiplyingOperator::And, at + 1)),
        Some(Lexeme::Sign(AMPERSAND)) => Ok((MultiplyingOperator::Ampersand, at + 1)),
        _ => Err(ReadErr::Wrong(at)),
    }
}

/// What negates a factor.
#[tactic(auto, unfolding(dbpl_grammar::specs::Expressions::not_of))]
pub fn not_operator(tokens: &[Token], at: usize) -> Result<(NotOperator, usize), ReadErr>
    ensures { Reads tokens.now result (reading.leaf spec.not_of (drop at tokens.now)) }
{
    match lexeme_at(tokens, at) {
        Some(Lexeme::Reserved(NOT)) => Ok((NotOperator::Not, at + 1)),
        Some(Lexeme::Sign(TILDE)) => Ok((NotOperator::Tilde, at + 1)),
        _ => Err(ReadErr::Wrong(at)),
    }
}

/// What a quantified factor begins with.
#[tactic(auto, unfolding(dbpl_grammar::specs::Expressions::quantifier_of))]
pub fn quantifier(tokens: &[Token], at: usize) -> Result<(Quantifier, usize), ReadErr>
    ensures { Reads tokens.now result (reading.leaf spec.quantifier_of (drop at tokens.now)) }
{
    match lexeme_at(tokens, at) {
        Some(Lexeme::Reserved(SOME)) => Ok((Quantifier::Exists, at + 1)),
        Some(Lexeme::Reserved(ALL)) => Ok((Quantifier::ForAll, at + 1)),
        _ => Err(ReadErr::Wrong(at)),
    }
}
