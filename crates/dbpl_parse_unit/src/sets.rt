//! What may begin with the next token.
ghost use Rattle.std.specs.Prelude.{◌≡◌, drop};
ghost use Rattle.dbpl_grammar.specs.Reading as reading;
ghost use Rattle.dbpl_grammar.specs.Units as spec;

use dbpl_base::words::{
    CONST, CONSTRUCTOR, FROM, IMPORT, PROCEDURE, SELECTOR, TRANSACTION, TYPE, VAR,
};
use dbpl_base::{Lexeme, Token};
use dbpl_parse_expr::tokens::lexeme_at;

/// Whether a section of parameters is next.
pub fn begins_section(tokens: &[Token], at: usize) -> bool
    ensures { result ≡ reading.begins spec.section_first (drop at tokens.now) }
{
    matches!(
        lexeme_at(tokens, at),
        Some(Lexeme::Ident(_) | Lexeme::Reserved(VAR))
    )
}

/// Whether constants, types or variables are next.
pub fn begins_plain(tokens: &[Token], at: usize) -> bool
    ensures { result ≡ reading.begins spec.plain_first (drop at tokens.now) }
{
    matches!(
        lexeme_at(tokens, at),
        Some(Lexeme::Reserved(CONST | TYPE | VAR))
    )
}

/// Whether a declaration is next that every kind of module may have.
pub fn begins_common(tokens: &[Token], at: usize) -> bool
    ensures { result ≡ reading.begins spec.common_first (drop at tokens.now) }
{
    matches!(
        lexeme_at(tokens, at),
        Some(Lexeme::Reserved(SELECTOR | CONSTRUCTOR | CONST | TYPE | VAR))
    )
}

/// Whether a heading is next.
pub fn begins_routine(tokens: &[Token], at: usize) -> bool
    ensures { result ≡ reading.begins spec.routine_first (drop at tokens.now) }
{
    matches!(
        lexeme_at(tokens, at),
        Some(Lexeme::Reserved(PROCEDURE | TRANSACTION))
    )
}

/// Whether a declaration is next.
pub fn begins_decl(tokens: &[Token], at: usize) -> bool
    ensures { result ≡ reading.begins spec.decl_first (drop at tokens.now) }
{
    matches!(
        lexeme_at(tokens, at),
        Some(Lexeme::Reserved(
            PROCEDURE | TRANSACTION | SELECTOR | CONSTRUCTOR | CONST | TYPE | VAR
        ))
    )
}

/// Whether an import is next.
pub fn begins_import(tokens: &[Token], at: usize) -> bool
    ensures { result ≡ reading.begins spec.import_first (drop at tokens.now) }
{
    matches!(lexeme_at(tokens, at), Some(Lexeme::Reserved(IMPORT | FROM)))
}
