use crate::kind::Kind;
use dbpl_base::limits::SOURCE_BYTES;
use dbpl_base::{Place, Token};
use dbpl_copy::copy_unit;
use dbpl_parse_expr::tokens::place_at;
use dbpl_parse_expr::{ParseErr, parse_aggregate, parse_designator, parse_expr, parse_range};
use dbpl_parse_unit::parse;
use dbpl_scan::{ScanErr, scan};
use dbpl_tree::Unit;
use std::alloc::Global;
use std::fmt::{self, Display, Formatter, Write};

/// What becomes of a text.
#[derive(Clone, Copy, Debug)]
pub enum Answer {
    /// It is a unit, whose copy equals it.
    Accepted,
    /// It begins with such a phrase, and goes on at this place.
    Begun(Place),
    /// It breaks the rule L of this number.
    Refused(u8, Place),
    /// It is a unit, and its copy is another.
    Miscopied,
    TooLong,
    OutOfMemory,
}

impl Display for Answer {
    fn fmt<W: Write>(&self, f: &mut Formatter<W>) -> fmt::Result {
        match self {
            Answer::Accepted => write!(f, "ok"),
            Answer::Begun(place) => write!(f, "ok {}", place.col),
            Answer::Refused(rule, place) => write!(f, "L{rule} {}", place.col),
            Answer::Miscopied => write!(f, "another copy"),
            Answer::TooLong => write!(f, "too long"),
            Answer::OutOfMemory => write!(f, "out of memory"),
        }
    }
}

/// What the scanner, the parser and the copies of trees make of this text.
pub(crate) fn answer_to(alloc: Global, kind: Kind, text: &str) -> Answer {
    if text.len() > SOURCE_BYTES as usize {
        return Answer::TooLong;
    }
    let tokens = match scan(alloc, 0, text.as_bytes()) {
        Ok(tokens) => tokens,
        Err(ScanErr::Bad(place)) => return Answer::Refused(1, place),
        Err(ScanErr::Memory) => return Answer::OutOfMemory,
    };
    let tokens = tokens.as_slice();
    match kind {
        Kind::Unit => match parse(alloc, tokens) {
            Ok(unit) => copied(alloc, &unit),
            Err(error) => refused(error),
        },
        Kind::Expr => begun(tokens, parse_expr(alloc, tokens, 0, 0)),
        Kind::Designator => begun(tokens, parse_designator(alloc, tokens, 0, 0)),
        Kind::Range => begun(tokens, parse_range(alloc, tokens, 0, 0)),
        Kind::Aggregate => begun(tokens, parse_aggregate(alloc, tokens, 0, 0)),
    }
}

/// What a reading of a phrase says of the text.
fn begun<T: Drop>(tokens: &[Token], read: Result<(T, usize), ParseErr>) -> Answer {
    match read {
        Ok((_phrase, behind)) => Answer::Begun(place_at(tokens, behind)),
        Err(error) => refused(error),
    }
}

/// The rule that a text breaks where it can't be read.
fn refused(error: ParseErr) -> Answer {
    match error {
        ParseErr::Syntax(place) => Answer::Refused(2, place),
        ParseErr::Deep(place) => Answer::Refused(3, place),
        ParseErr::Memory => Answer::OutOfMemory,
    }
}

/// Whether the copy of this unit reads as it does, places and all.
fn copied(alloc: Global, unit: &Unit) -> Answer {
    let Ok(copy) = copy_unit(alloc, unit) else {
        return Answer::OutOfMemory;
    };
    let (Ok(one), Ok(other)) = (format!(in alloc; "{unit:?}"), format!(in alloc; "{copy:?}")) else {
        return Answer::OutOfMemory;
    };
    if one.as_str() == other.as_str() {
        Answer::Accepted
    } else {
        Answer::Miscopied
    }
}
