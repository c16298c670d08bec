//! The scanner: gaps and tokens in turn, from the front of a text to its end.
ghost use Rattle.std.specs.Prelude.{◌≡◌, ◌≤◌, ◌⊎◌, List as Seq, length, IfOk};
ghost use Rattle.dbpl_scan.specs.BreaksOff.{BreaksOffAt};
ghost use Rattle.dbpl_scan.specs.Comments.{Scans};
ghost use Rattle.dbpl_base.specs.declared.limits.TheConstants.{TEXT_BYTES};
ghost use Rattle.dbpl_base.specs.declared.place.Place.{Place as At};
ghost use Rattle.dbpl_base.specs.declared.token.Token.{Token as Item};

use crate::ScanErr;
use crate::bytes::up_to;
use crate::comments::after_gap;
use crate::front::first_token;
use crate::places::place_after;
use dbpl_base::{Lexeme, List, Place, Token};
use std::alloc::Global;

/// The tokens of the text of a unit. The time is linear in the text.
pub fn scan(alloc: Global, unit: u8, text: &[u8]) -> Result<List<Token>, ScanErr>
    requires { length text.now ≤ TEXT_BYTES }
    ensures found { IfOk result (λ tokens. Scans unit text.now tokens) }
    ensures only { IfOk result (λ tokens. (other : Seq Item) → Scans unit text.now other → other ≡ tokens) }
    ensures bad { (place : At) → result ≡ Err (ScanErr.Bad place) → BreaksOffAt unit text.now place }
    ensures refused { (place : At) → result ≡ Err (ScanErr.Bad place) → (tokens : Seq Item) → ¬ Scans unit text.now tokens }
    ensures exact { (place : At) → BreaksOffAt unit text.now place → (result ≡ Err (ScanErr.Bad place)) ⊎ (result ≡ Err ScanErr.Memory) }
{
    let mut tokens = List::new(alloc);
    let mut place = Place {
        unit,
        line: 1,
        col: 1,
    };
    let mut rest = text;
    loop {
        let front = after_gap(rest);
        let here = place_after(place, up_to(rest, front));
        if front.is_empty() {
            tokens.push(Token {
                lexeme: Lexeme::Finish,
                place: here,
            })?;
            return Ok(tokens);
        }
        let Some((lexeme, behind)) = first_token(alloc, front)? else {
            return Err(ScanErr::Bad(here));
        };
        tokens.push(Token {
            lexeme,
            place: here,
        })?;
        place = place_after(here, up_to(front, behind));
        rest = behind;
    }
}
