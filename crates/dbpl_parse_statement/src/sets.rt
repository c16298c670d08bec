//! What may begin with the next token.
ghost use Rattle.std.specs.Prelude.{◌≡◌, ◌∷◌, ◌++◌, drop};
ghost use Rattle.dbpl_grammar.specs.Lexemes.{an_ident};
ghost use Rattle.dbpl_grammar.specs.Reading as reading;
ghost use Rattle.dbpl_grammar.specs.Statements as spec;

use dbpl_base::words::{
    ADD, BAR, BECOMES, CASE, ELSE, ELSIF, END, EXIT, FOR, IF, LOOP, REMOVE, REPEAT, REPLACE,
    RETURN, SEMICOLON, UNTIL, WHILE,
};
use dbpl_base::{Lexeme, Token};
use dbpl_parse_expr::tokens::lexeme_at;

/// Whether an operator that changes a target is next.
pub fn begins_change(tokens: &[Token], at: usize) -> bool
    ensures { result ≡ reading.begins spec.change_first (drop at tokens.now) }
{
    matches!(
        lexeme_at(tokens, at),
        Some(Lexeme::Sign(BECOMES | ADD | REMOVE | REPLACE))
    )
}

/// Whether statements may begin with the next token, or be empty before it.
pub fn begins_statements(tokens: &[Token], at: usize) -> bool
    ensures { result ≡ reading.begins (an_ident ∷ spec.statement_words ++ spec.statements_after) (drop at tokens.now) }
{
    matches!(
        lexeme_at(tokens, at),
        Some(
            Lexeme::Ident(_)
                | Lexeme::Sign(SEMICOLON | BAR)
                | Lexeme::Reserved(
                    IF | CASE
                        | WHILE
                        | REPEAT
                        | LOOP
                        | EXIT
                        | RETURN
                        | FOR
                        | ELSE
                        | ELSIF
                        | END
                        | UNTIL
                )
        )
    )
}
