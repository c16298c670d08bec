//! Strings in either quote.
ghost use Rattle.std.specs.Prelude.{◌≡◌, ◌≤◌, length, IfOk, IfSome};
ghost use Rattle.std.specs.List.{prefix_len};
ghost use Rattle.std.specs.Option.{option_map};
ghost use Rattle.dbpl_scan.specs.BreaksOff.{TokenStands};
ghost use Rattle.dbpl_base.specs.Spelling as spelling;
ghost use Rattle.dbpl_scan.specs.Fronts as fronts;
ghost use Rattle.dbpl_scan.specs.Fronts.{BeginsBy, StandsFirst};

use crate::bytes::is_text_byte;
use dbpl_base::{Lexeme, Memory, name_of};
use std::alloc::Global;

/// How many bytes that a string in this quote may hold stand at the front.
fn text_length(quote: u8, text: &[u8]) -> usize
    ensures count { result ≡ prefix_len (spelling.is_text_byte quote) text.now }
    ensures within { result ≤ length text.now }
{
    text.iter()
        .take_while(|byte| is_text_byte(quote, **byte))
        .count()
}

/// The text of a string, without its quotes, and what follows it.
fn quoted(text: &[u8]) -> Option<(&[u8], &[u8])>
    ensures { option_map (λ read. (read.0.now, read.1.now)) result ≡ fronts.quoted text.now }
{
    let (quote, behind) = text.split_first()?;
    let (inside, rest) = behind.split_at(text_length(*quote, behind));
    let (closing, rest) = rest.split_first()?;
    if closing == quote {
        Some((inside, rest))
    } else {
        None
    }
}

/// The token of a string, if its closing quote stands on its line.
pub fn string_token(alloc: Global, text: &[u8]) -> Result<Option<(Lexeme, &[u8])>, Memory>
    requires { BeginsBy fronts.is_quote text.now }
    ensures some { IfOk result (λ read. IfSome read (λ token. StandsFirst text.now token.0 token.1.now)) }
    ensures none { result ≡ Ok None → ¬ TokenStands text.now }
{
    match quoted(text) {
        Some((inside, rest)) => Ok(Some((Lexeme::Text(name_of(alloc, inside)?), rest))),
        None => Ok(None),
    }
}
