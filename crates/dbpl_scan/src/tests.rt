//! Texts with their tokens, and texts that break off, with ample memory.
use crate::{ScanErr, scan};
use dbpl_base::{Lexeme, Place};
use std::alloc::Global;
use std::test::Fail;

/// What a lexeme is to be.
#[derive(Clone, Copy, Debug)]
enum Shown {
    Word(&'static [u8]),
    Number(u64),
    Code(u64),
    Text(&'static [u8]),
    Reserved(u8),
    Sign(u8),
    Finish,
}

fn shows(lexeme: &Lexeme, shown: Shown) -> bool {
    match (lexeme, shown) {
        (Lexeme::Ident(name), Shown::Word(word)) => name.is(word),
        (Lexeme::Number(value), Shown::Number(number)) => *value == number,
        (Lexeme::CharCode(value), Shown::Code(code)) => *value == code,
        (Lexeme::Text(text), Shown::Text(string)) => text.is(string),
        (Lexeme::Reserved(row), Shown::Reserved(word)) => *row == word,
        (Lexeme::Sign(row), Shown::Sign(sign)) => *row == sign,
        (Lexeme::Finish, Shown::Finish) => true,
        _ => false,
    }
}

/// A text, the number and the column of one of its tokens, all on line 1, and what that token is.
static TOKENS: [(&[u8], usize, u32, Shown); 44] = [
    (b"", 0, 1, Shown::Finish),
    (b" \t  ", 0, 5, Shown::Finish),
    (b"(**)", 0, 5, Shown::Finish),
    (b"(*)*)", 0, 6, Shown::Finish),
    (b"(* a (* b *) c *)x", 0, 18, Shown::Word(b"x")),
    (b"(***)(*(**)*)+", 0, 14, Shown::Sign(0)),
    (b"MODULE M;", 0, 1, Shown::Reserved(22)),
    (b"MODULE M;", 1, 8, Shown::Word(b"M")),
    (b"MODULE M;", 2, 9, Shown::Sign(20)),
    (b"MODULE M;", 3, 10, Shown::Finish),
    (b"ModuleM2a", 0, 1, Shown::Word(b"ModuleM2a")),
    (b"ENDS", 0, 1, Shown::Word(b"ENDS")),
    (b"1..2", 0, 1, Shown::Number(1)),
    (b"1..2", 1, 2, Shown::Sign(18)),
    (b"1..2", 2, 4, Shown::Number(2)),
    (b"0FFH", 0, 1, Shown::Number(255)),
    (b"1H", 0, 1, Shown::Number(1)),
    (b"377B", 0, 1, Shown::Number(255)),
    (b"101C", 0, 1, Shown::Code(65)),
    (b"12B4", 0, 1, Shown::Number(10)),
    (b"12B4", 1, 4, Shown::Number(4)),
    (b"12B4H", 0, 1, Shown::Number(4_788)),
    (b"8B", 0, 1, Shown::Number(8)),
    (b"8B", 1, 2, Shown::Word(b"B")),
    (b"8C", 1, 2, Shown::Word(b"C")),
    (b"0CH", 0, 1, Shown::Number(12)),
    (b"0C", 0, 1, Shown::Code(0)),
    (b"4294967295", 0, 1, Shown::Number(4_294_967_295)),
    (b"4294967296", 0, 1, Shown::Number(4_294_967_296)),
    (
        b"99999999999999999999999999",
        0,
        1,
        Shown::Number(4_294_967_296),
    ),
    (
        b"77777777777777777777777C",
        0,
        1,
        Shown::Code(4_294_967_296),
    ),
    (b"a:+b", 1, 2, Shown::Sign(14)),
    (b"a: +b", 1, 2, Shown::Sign(21)),
    (b"a: +b", 2, 4, Shown::Sign(0)),
    (b"<>", 0, 1, Shown::Sign(6)),
    (b"<=>", 0, 1, Shown::Sign(8)),
    (b"<=>", 1, 3, Shown::Sign(9)),
    (b"...", 1, 3, Shown::Sign(17)),
    (b"( *)", 0, 1, Shown::Sign(22)),
    (b"*)", 1, 2, Shown::Sign(23)),
    (b"'it \"works\"'", 0, 1, Shown::Text(b"it \"works\"")),
    (b"\"'\"", 0, 1, Shown::Text(b"'")),
    (b"''", 0, 1, Shown::Text(b"")),
    (
        b"'(*\x00\x7f\x80\xff*)'",
        0,
        1,
        Shown::Text(b"(*\x00\x7f\x80\xff*)"),
    ),
];

#[test]
fn gives_tokens(rt: HostRuntime) -> Result<(), Fail> {
    for (text, at, col, shown) in TOKENS {
        assert!(rt; text.len() < 100);
        let tokens = scan(rt.alloc(), 3, text)?;
        let place = Place {
            unit: 3,
            line: 1,
            col,
        };
        match tokens.get(at) {
            Some(token) => {
                assert_eq!(rt; token.place, place, "{text:?}");
                assert!(rt; shows(&token.lexeme, shown), "{text:?} {shown:?}");
            }
            None => assert!(rt; false, "{text:?}"),
        }
    }
    Ok(())
}

/// The reserved words and the signs, in the order in which they are numbered.
static RESERVED_WORDS: &[u8] =
    b"AND ARRAY BEGIN BY CASE CONST DEFINITION DIV DO ELSE ELSIF END EXIT EXPORT FOR FROM IF
IMPLEMENTATION IMPORT IN LOOP MOD MODULE NOT OF OR POINTER PROCEDURE QUALIFIED RECORD REPEAT RETURN SET THEN TO TYPE UNTIL
VAR WHILE WITH ALL CONSTRUCTOR DATABASE EACH RELATION SELECTOR SOME TRANSACTION ON DEFAULT";

static SIGNS: &[u8] = b"+ - * / = # <> < <= > >= & ~ := :+ :- :& . .. , ; : ( ) [ ] { } |";

#[test]
fn knows_every_word_and_sign(rt: HostRuntime) -> Result<(), Fail> {
    let words = scan(rt.alloc(), 0, RESERVED_WORDS)?;
    assert_eq!(rt; words.len(), 51);
    for (row, token) in words.as_slice().iter().take(50).enumerate() {
        assert_eq!(rt; token.lexeme, Lexeme::Reserved(row as u8));
    }
    let signs = scan(rt.alloc(), 0, SIGNS)?;
    assert_eq!(rt; signs.len(), 30);
    for (row, token) in signs.as_slice().iter().take(29).enumerate() {
        assert_eq!(rt; token.lexeme, Lexeme::Sign(row as u8));
    }
    Ok(())
}

/// A text, and the line and the column where it breaks off.
static BROKEN: [(&[u8], u32, u32); 15] = [
    (b"MODULE M; (* a (* b (* c *) *)", 1, 11),
    (b"(*", 1, 1),
    (b"(* (* *)", 1, 1),
    (b"(*)", 1, 1),
    (b"x\r\n (* *", 2, 2),
    (b"'a\nb'", 1, 1),
    (b"a \"b\rc\"", 1, 3),
    (b"'abc", 1, 1),
    (b"'a\"", 1, 1),
    (b"\n\n  _a", 3, 3),
    (b"\x00", 1, 1),
    (b"a\x0bb", 1, 2),
    (b"+\x7f", 1, 2),
    (b"(**) \x80", 1, 6),
    (b"\xff", 1, 1),
];

#[test]
fn breaks_off(rt: HostRuntime) {
    for (text, line, col) in BROKEN {
        assert!(rt; text.len() < 100);
        let place = Place { unit: 0, line, col };
        let answer = scan(rt.alloc(), 0, text).map(|tokens| tokens.len());
        assert_eq!(rt; answer, Err(ScanErr::Bad(place)), "{text:?}");
    }
}

/// Pieces, and how often each of them stands in a text.
type Pieces = [(&'static [u8], usize); 3];

/// The text of these pieces.
fn text_of(alloc: Global, pieces: Pieces) -> Result<Vec<u8>, Fail> {
    let mut text = Vec::new(alloc);
    for (piece, count) in pieces {
        for _ in 0..count {
            text.extend_from_slice(piece)?;
        }
    }
    Ok(text)
}

/// Texts of about 1 MiB, and how many tokens each has, 0 where it breaks off. A scanner that goes over a text again
/// for each token or each comment does not end in time; ours takes about a second.
static LONG: [(Pieces, usize); 5] = [
    (
        [(b"x := 0FFH + y; (* c *)\n", 45_000), (b"", 0), (b"", 0)],
        270_001,
    ),
    ([(b"(*", 262_000), (b"'", 1), (b"*)", 262_000)], 1),
    ([(b"'", 1), (b"a", 1_048_574), (b"'", 1)], 2),
    ([(b" \n", 524_287), (b"1", 1), (b"", 0)], 2),
    ([(b"(**)", 262_143), (b"(*", 1), (b"", 0)], 0),
];

#[test]
fn long_texts_take_linear_time(rt: HostRuntime) -> Result<(), Fail> {
    let alloc = rt.alloc();
    for (pieces, count) in LONG {
        let text = text_of(alloc, pieces)?;
        assert!(rt; text.len() < 1_048_577);
        let tokens = scan(alloc, 0, text.as_slice()).map_or(0, |tokens| tokens.len());
        assert_eq!(rt; tokens, count);
    }
    Ok(())
}
