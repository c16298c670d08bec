//! The token at the very front of a text.
ghost use Rattle.std.specs.Prelude.{◌≡◌, IfOk, IfSome};
ghost use Rattle.dbpl_scan.specs.BreaksOff.{TokenStands};
ghost use Rattle.dbpl_scan.specs.Fronts.{StandsFirst};

use crate::bytes::{is_digit, is_letter, is_quote};
use crate::comments::opens_comment;
use crate::numbers::number_token;
use crate::signs::sign_token;
use crate::strings::string_token;
use crate::words::word_token;
use dbpl_base::{Lexeme, Memory};
use std::alloc::Global;

/// The token at the front, if one stands there, and what follows it.
pub fn first_token(alloc: Global, text: &[u8]) -> Result<Option<(Lexeme, &[u8])>, Memory>
    ensures some { IfOk result (λ read. IfSome read (λ token. StandsFirst text.now token.0 token.1.now)) }
    ensures none { result ≡ Ok None → ¬ TokenStands text.now }
{
    let Some((first, _)) = text.split_first() else {
        return Ok(None);
    };
    if is_letter(*first) {
        return Ok(Some(word_token(alloc, text)?));
    }
    if is_digit(*first) {
        return Ok(Some(number_token(text)));
    }
    if is_quote(*first) {
        return string_token(alloc, text);
    }
    if opens_comment(text) {
        return Ok(None);
    }
    Ok(sign_token(text))
}
