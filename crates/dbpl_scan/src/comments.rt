//! Gaps: blanks and whole comments. Comments nest, and how deep is counted.
ghost use Rattle.std.specs.Prelude.{◌≡◌, ◌↔◌, ℕ, IsTrue, IfSome, List as Seq};
ghost use Rattle.dbpl_scan.specs.BreaksOff.{BlankStands};
ghost use Rattle.dbpl_base.specs.Scans.{OpensComment};
ghost use Rattle.dbpl_scan.specs.Comments.{ClosesComment};
ghost use Rattle.dbpl_scan.specs.Fronts.{Closes, GapStands};

use crate::bytes::{is_blank, past};

/// Whether the text begins with the two bytes that open a comment.
pub fn opens_comment(text: &[u8]) -> bool
    ensures { IsTrue result ↔ OpensComment text.now }
{
    text.starts_with(b"(*")
}

/// Whether the text begins with the two bytes that close a comment.
fn closes_comment(text: &[u8]) -> bool
    ensures { IsTrue result ↔ ClosesComment text.now }
{
    text.starts_with(b"*)")
}

fn begins_with_blank(text: &[u8]) -> bool
    ensures { IsTrue result ↔ BlankStands text.now }
{
    text.first().is_some_and(|first| is_blank(*first))
}

/// What follows the comment that is open before the text.
fn after_comment(text: &[u8]) -> Option<&[u8]>
    ensures some { IfSome result (λ rest. Closes text.now rest.now) }
    ensures none { result ≡ None → (rest : Seq ℕ) → ¬ Closes text.now rest }
{
    let mut depth: usize = 0;
    let mut rest = text;
    while !rest.is_empty() {
        if opens_comment(rest) {
            depth += 1;
            rest = past(rest, 2);
        } else if !closes_comment(rest) {
            rest = past(rest, 1);
        } else if depth > 0 {
            depth -= 1;
            rest = past(rest, 2);
        } else {
            return Some(past(rest, 2));
        }
    }
    None
}

/// What follows the blanks and the whole comments at the front.
pub fn after_gap(text: &[u8]) -> &[u8]
    ensures { GapStands text.now result.now }
{
    let mut rest = text;
    loop {
        if begins_with_blank(rest) {
            rest = past(rest, 1);
        } else if !opens_comment(rest) {
            return rest;
        } else {
            match after_comment(past(rest, 2)) {
                Some(behind) => rest = behind,
                None => return rest,
            }
        }
    }
}
