//! Signs of one and of two bytes.
ghost use Rattle.std.specs.Prelude.{◌≡◌, ℕ, IfSome, List as Seq};
ghost use Rattle.dbpl_scan.specs.BreaksOff.{TokenStands};
ghost use Rattle.dbpl_base.specs.Scans.{OpensComment};
ghost use Rattle.dbpl_base.specs.Spelling.{IsRow};
ghost use Rattle.dbpl_base.specs.Words as bytes;
ghost use Rattle.dbpl_scan.specs.Fronts.{BeginsBy, SignStands, StandsFirst, is_other};

use crate::tables::position_of;
use dbpl_base::Lexeme;

/// In the order in which they are numbered.
static SIGNS: [&[u8]; 29] = [
    b"+", b"-", b"*", b"/", b"=", b"#", b"<>", b"<", b"<=", b">", b">=", b"&", b"~", b":=", b":+",
    b":-", b":&", b".", b"..", b",", b";", b":", b"(", b")", b"[", b"]", b"{", b"}", b"|",
];

/// The position of a sign in the table of signs.
fn sign_row(word: &[u8]) -> Option<u8>
    ensures some { IfSome result (λ row. IsRow bytes.signs row word.now) }
    ensures none { result ≡ None → (row : ℕ) → ¬ IsRow bytes.signs row word.now }
{
    match position_of(&SIGNS, word) {
        Some(row) => Some(row as u8),
        None => None,
    }
}

/// The sign of so many bytes at the front, and what follows it.
fn sign_of(text: &[u8], count: usize) -> Option<(u8, &[u8])>
    ensures some { IfSome result (λ read. SignStands count text.now read.0 read.1.now) }
    ensures none { result ≡ None → (row : ℕ) (rest : Seq ℕ) → ¬ SignStands count text.now row rest }
{
    if text.len() < count {
        return None;
    }
    let (word, rest) = text.split_at(count);
    match sign_row(word) {
        Some(row) => Some((row, rest)),
        None => None,
    }
}

/// The token of a sign, the longer one where two begin alike.
pub fn sign_token(text: &[u8]) -> Option<(Lexeme, &[u8])>
    requires first { BeginsBy is_other text.now }
    requires no_comment { ¬ OpensComment text.now }
    ensures some { IfSome result (λ read. StandsFirst text.now read.0 read.1.now) }
    ensures none { result ≡ None → ¬ TokenStands text.now }
{
    match sign_of(text, 2) {
        Some((row, rest)) => Some((Lexeme::Sign(row), rest)),
        None => match sign_of(text, 1) {
            Some((row, rest)) => Some((Lexeme::Sign(row), rest)),
            None => None,
        },
    }
}
