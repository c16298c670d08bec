//! The token at a position, and what is read of it alone.
ghost use Rattle.std.specs.Prelude.{◌≡◌, ◌+◌, ◌<◌, [], ◌∷◌, drop, length, suc, IfSome, MatchOption, OnSome};
ghost use Rattle.dbpl_base.specs.declared.lexeme.Lexeme.TheVariants as lexemes;
ghost use Rattle.dbpl_grammar.specs.Reading as reading;
ghost use Rattle.dbpl_grammar.specs.Expressions as spec;
ghost use Rattle.dbpl_parse_expr.specs.Calls.{place_of};
ghost use Rattle.dbpl_parse_expr.specs.Gives.{Gives, IsNext, Leads, Reads};

use crate::ReadErr;
use dbpl_base::{Lexeme, Name, Place, Token};
use std::alloc::Global;

/// The token at this position, if there are so many.
fn token_at(tokens: &[Token], at: usize) -> Option<&Token>
    ensures here { MatchOption result (drop at tokens.now ≡ []) (λ token. drop at tokens.now ≡ token.now ∷ drop (at + 1) tokens.now) }
    ensures within { OnSome result (at < length tokens.now) }
{
    tokens.get(at)
}

/// What the token at this position says, if there are so many.
pub fn lexeme_at(tokens: &[Token], at: usize) -> Option<&Lexeme>
    ensures none { result ≡ None → drop at tokens.now ≡ [] }
    ensures some { IfSome result (λ lexeme. IsNext lexeme.now tokens.now at) }
    ensures within { OnSome result (at < length tokens.now) }
{
    match token_at(tokens, at) {
        Some(token) => Some(&token.lexeme),
        None => None,
    }
}

/// The place of the token at this position; the front of the text where there is none.
pub fn place_at(tokens: &[Token], at: usize) -> Place
    ensures { result ≡ place_of (drop at tokens.now) }
{
    match token_at(tokens, at) {
        Some(token) => token.place,
        None => Place {
            unit: 0,
            line: 1,
            col: 1,
        },
    }
}

/// How many turns a loop over what follows may take.
pub fn turns(tokens: &[Token], at: usize) -> usize
    ensures { result ≡ suc (length (drop at tokens.now)) }
{
    tokens.len().saturating_sub(at) + 1
}

/// The place of the next token.
pub fn here(tokens: &[Token], at: usize) -> Result<Place, ReadErr>
    ensures { Gives (λ place. (place, drop at tokens.now)) tokens.now result (reading.here (drop at tokens.now)) }
{
    match token_at(tokens, at) {
        Some(token) => Ok(token.place),
        None => Err(ReadErr::Wrong(at)),
    }
}

/// Whether this sign is next.
pub fn begins_sign(tokens: &[Token], at: usize, row: u8) -> bool
    ensures { result ≡ reading.begins (lexemes.Sign row ∷ []) (drop at tokens.now) }
{
    match lexeme_at(tokens, at) {
        Some(Lexeme::Sign(found)) => *found == row,
        _ => false,
    }
}

/// Whether this reserved word is next.
pub fn begins_word(tokens: &[Token], at: usize, row: u8) -> bool
    ensures { result ≡ reading.begins (lexemes.Reserved row ∷ []) (drop at tokens.now) }
{
    match lexeme_at(tokens, at) {
        Some(Lexeme::Reserved(found)) => *found == row,
        _ => false,
    }
}

/// The position behind this sign.
pub fn sign(tokens: &[Token], at: usize, row: u8) -> Result<usize, ReadErr>
    ensures { Leads tokens.now result (reading.expect (lexemes.Sign row) (drop at tokens.now)) }
{
    match lexeme_at(tokens, at) {
        Some(Lexeme::Sign(found)) if *found == row => Ok(at + 1),
        _ => Err(ReadErr::Wrong(at)),
    }
}

/// The position behind this reserved word.
pub fn word(tokens: &[Token], at: usize, row: u8) -> Result<usize, ReadErr>
    ensures { Leads tokens.now result (reading.expect (lexemes.Reserved row) (drop at tokens.now)) }
{
    match lexeme_at(tokens, at) {
        Some(Lexeme::Reserved(found)) if *found == row => Ok(at + 1),
        _ => Err(ReadErr::Wrong(at)),
    }
}

/// The bytes of an identifier.
pub fn name(alloc: Global, tokens: &[Token], at: usize) -> Result<(Name, usize), ReadErr>
    ensures { Reads tokens.now result (reading.leaf spec.identifier_of (drop at tokens.now)) }
{
    match lexeme_at(tokens, at) {
        Some(Lexeme::Ident(name)) => Ok((name.copy(alloc)?, at + 1)),
        _ => Err(ReadErr::Wrong(at)),
    }
}

/// A string.
pub fn string(alloc: Global, tokens: &[Token], at: usize) -> Result<(Name, usize), ReadErr>
    ensures { Reads tokens.now result (reading.leaf spec.text_of (drop at tokens.now)) }
{
    match lexeme_at(tokens, at) {
        Some(Lexeme::Text(text)) => Ok((text.copy(alloc)?, at + 1)),
        _ => Err(ReadErr::Wrong(at)),
    }
}

/// A number.
pub fn whole(tokens: &[Token], at: usize) -> Result<(u64, usize), ReadErr>
    ensures { Reads tokens.now result (reading.leaf spec.number_of (drop at tokens.now)) }
{
    match lexeme_at(tokens, at) {
        Some(Lexeme::Number(number)) => Ok((*number, at + 1)),
        _ => Err(ReadErr::Wrong(at)),
    }
}

/// A character's code.
pub fn code(tokens: &[Token], at: usize) -> Result<(u64, usize), ReadErr>
    ensures { Reads tokens.now result (reading.leaf spec.char_code_of (drop at tokens.now)) }
{
    match lexeme_at(tokens, at) {
        Some(Lexeme::CharCode(code)) => Ok((*code, at + 1)),
        _ => Err(ReadErr::Wrong(at)),
    }
}
