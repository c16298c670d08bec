use crate::{Lexeme, Place};

/// A lexeme and the place of its first byte. `Finish` stands at the place after the last byte.
#[derive(Debug, PartialEq, Eq, Drop)]
pub struct Token {
    pub lexeme: Lexeme,
    pub place: Place,
}
