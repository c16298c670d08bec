//! What may begin with the next token.
ghost use Rattle.std.specs.Prelude.{◌≡◌, drop};
ghost use Rattle.dbpl_grammar.specs.Expressions as spec;
ghost use Rattle.dbpl_grammar.specs.Reading as reading;

use crate::tokens::lexeme_at;
use dbpl_base::words::{
    ALL, AMPERSAND, AND, DIV, EACH, EQUALS, FULL_STOP, GREATER, GREATER_EQUAL, HASH, LEFT_BRACKET,
    LEFT_PARENTHESIS, LESS, LESS_EQUAL, MINUS, MOD, NOT, OR, PLUS, SOME, TILDE, TIMES, UNEQUAL,
};
use dbpl_base::{Lexeme, Token};

/// Whether an operator of a comparison is next.
pub fn begins_relation(tokens: &[Token], at: usize) -> bool
    ensures { result ≡ reading.begins spec.relations_first (drop at tokens.now) }
{
    matches!(
        lexeme_at(tokens, at),
        Some(Lexeme::Sign(EQUALS | HASH | UNEQUAL | LESS | LESS_EQUAL | GREATER | GREATER_EQUAL))
    )
}

/// Whether a sign before a term is next.
pub fn begins_signed(tokens: &[Token], at: usize) -> bool
    ensures { result ≡ reading.begins spec.signs_first (drop at tokens.now) }
{
    matches!(lexeme_at(tokens, at), Some(Lexeme::Sign(PLUS | MINUS)))
}

/// Whether an operator between two terms is next.
pub fn begins_adding(tokens: &[Token], at: usize) -> bool
    ensures { result ≡ reading.begins spec.adding_first (drop at tokens.now) }
{
    matches!(
        lexeme_at(tokens, at),
        Some(Lexeme::Sign(PLUS | MINUS) | Lexeme::Reserved(OR))
    )
}

/// Whether an operator between two factors is next.
pub fn begins_multiplying(tokens: &[Token], at: usize) -> bool
    ensures { result ≡ reading.begins spec.multiplying_first (drop at tokens.now) }
{
    matches!(
        lexeme_at(tokens, at),
        Some(Lexeme::Sign(TIMES | AMPERSAND) | Lexeme::Reserved(DIV | MOD | AND))
    )
}

/// Whether an operator that negates is next.
pub fn begins_negated(tokens: &[Token], at: usize) -> bool
    ensures { result ≡ reading.begins spec.not_first (drop at tokens.now) }
{
    matches!(
        lexeme_at(tokens, at),
        Some(Lexeme::Sign(TILDE) | Lexeme::Reserved(NOT))
    )
}

/// Whether a further part of a designator is next.
pub fn begins_part(tokens: &[Token], at: usize) -> bool
    ensures { result ≡ reading.begins spec.part_first (drop at tokens.now) }
{
    matches!(
        lexeme_at(tokens, at),
        Some(Lexeme::Sign(FULL_STOP | LEFT_BRACKET))
    )
}

/// Whether an identifier is next.
pub fn begins_ident(tokens: &[Token], at: usize) -> bool
    ensures { result ≡ reading.begins spec.ident_first (drop at tokens.now) }
{
    matches!(lexeme_at(tokens, at), Some(Lexeme::Ident(_)))
}

/// Whether an expression may begin with the next token.
pub fn begins_expr(tokens: &[Token], at: usize) -> bool
    ensures { result ≡ reading.begins spec.expr_first (drop at tokens.now) }
{
    matches!(
        lexeme_at(tokens, at),
        Some(
            Lexeme::Ident(_)
                | Lexeme::Number(_)
                | Lexeme::CharCode(_)
                | Lexeme::Text(_)
                | Lexeme::Sign(PLUS | MINUS | LEFT_PARENTHESIS | TILDE)
                | Lexeme::Reserved(NOT | SOME | ALL)
        )
    )
}

/// Whether an element of an aggregate may begin with the next token.
pub fn begins_element(tokens: &[Token], at: usize) -> bool
    ensures { result ≡ reading.begins spec.element_first (drop at tokens.now) }
{
    matches!(lexeme_at(tokens, at), Some(Lexeme::Reserved(EACH))) || begins_expr(tokens, at)
}
