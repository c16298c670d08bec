use crate::Name;

/// What a token says, apart from where it stands. `specs/Spelling.antt` has which bytes spell which lexeme.
#[derive(Debug, PartialEq, Eq, Drop)]
pub enum Lexeme {
    Ident(Name),
    /// A whole number: its value, or 4,294,967,296 where that is less.
    Number(u64),
    /// A character by its code: the code, or 4,294,967,296 where that is less.
    CharCode(u64),
    /// A string, without its quotes.
    Text(Name),
    /// A reserved word, by its position in the table of reserved words.
    Reserved(u8),
    /// A sign, by its position in the table of signs.
    Sign(u8),
    /// The end of the text.
    Finish,
}
