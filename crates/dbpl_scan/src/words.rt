//! Words of letters and digits: identifiers and reserved words.
ghost use Rattle.std.specs.Prelude.{◌≡◌, ◌≤◌, ℕ, length, IfOk, IfSome};
ghost use Rattle.std.specs.List.{prefix_len};
ghost use Rattle.dbpl_base.specs.Spelling.{IsRow};
ghost use Rattle.dbpl_base.specs.Words as bytes;
ghost use Rattle.dbpl_scan.specs.Fronts.{BeginsBy, StandsFirst};

use crate::bytes::is_word_byte;
use crate::tables::position_of;
use dbpl_base::{Lexeme, Memory, name_of};
use std::alloc::Global;

/// In the order in which they are numbered.
static RESERVED_WORDS: [&[u8]; 50] = [
    b"AND",
    b"ARRAY",
    b"BEGIN",
    b"BY",
    b"CASE",
    b"CONST",
    b"DEFINITION",
    b"DIV",
    b"DO",
    b"ELSE",
    b"ELSIF",
    b"END",
    b"EXIT",
    b"EXPORT",
    b"FOR",
    b"FROM",
    b"IF",
    b"IMPLEMENTATION",
    b"IMPORT",
    b"IN",
    b"LOOP",
    b"MOD",
    b"MODULE",
    b"NOT",
    b"OF",
    b"OR",
    b"POINTER",
    b"PROCEDURE",
    b"QUALIFIED",
    b"RECORD",
    b"REPEAT",
    b"RETURN",
    b"SET",
    b"THEN",
    b"TO",
    b"TYPE",
    b"UNTIL",
    b"VAR",
    b"WHILE",
    b"WITH",
    b"ALL",
    b"CONSTRUCTOR",
    b"DATABASE",
    b"EACH",
    b"RELATION",
    b"SELECTOR",
    b"SOME",
    b"TRANSACTION",
    b"ON",
    b"DEFAULT",
];

/// How many letters and digits stand at the front.
fn word_length(text: &[u8]) -> usize
    ensures count { result ≡ prefix_len bytes.is_word_byte text.now }
    ensures within { result ≤ length text.now }
{
    text.iter().take_while(|byte| is_word_byte(**byte)).count()
}

/// The position of a reserved word in the table of reserved words.
fn reserved_row(word: &[u8]) -> Option<u8>
    ensures some { IfSome result (λ row. IsRow bytes.reserved_words row word.now) }
    ensures none { result ≡ None → (row : ℕ) → ¬ IsRow bytes.reserved_words row word.now }
{
    match position_of(&RESERVED_WORDS, word) {
        Some(row) => Some(row as u8),
        None => None,
    }
}

/// The token of a word of letters and digits.
pub fn word_token(alloc: Global, text: &[u8]) -> Result<(Lexeme, &[u8]), Memory>
    requires { BeginsBy bytes.is_letter text.now }
    ensures { IfOk result (λ read. StandsFirst text.now read.0 read.1.now) }
{
    let (word, rest) = text.split_at(word_length(text));
    match reserved_row(word) {
        Some(row) => Ok((Lexeme::Reserved(row), rest)),
        None => Ok((Lexeme::Ident(name_of(alloc, word)?), rest)),
    }
}
