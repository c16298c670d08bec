//! What may begin with the next token.
ghost use Rattle.std.specs.Prelude.{◌≡◌, drop};
ghost use Rattle.dbpl_grammar.specs.Reading as reading;
ghost use Rattle.dbpl_grammar.specs.Types as spec;

use dbpl_base::words::{ARRAY, LEFT_BRACKET, LEFT_PARENTHESIS, RECORD, RELATION};
use dbpl_base::{Lexeme, Token};
use dbpl_parse_expr::tokens::lexeme_at;

/// Whether a type may begin with the next token.
pub fn begins_type(tokens: &[Token], at: usize) -> bool
    ensures { result ≡ reading.begins spec.type_first (drop at tokens.now) }
{
    matches!(
        lexeme_at(tokens, at),
        Some(
            Lexeme::Ident(_)
                | Lexeme::Sign(LEFT_PARENTHESIS | LEFT_BRACKET)
                | Lexeme::Reserved(ARRAY | RECORD | RELATION)
        )
    )
}
