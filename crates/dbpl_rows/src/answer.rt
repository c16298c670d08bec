use crate::failure::Failure;
use crate::notation::bytes_of;
use dbpl_base::Refusal;
use std::alloc::Global;
use std::fmt::{self, Display, Formatter, Write};

/// What a question is answered with.
#[derive(Debug, Drop)]
pub enum Answer {
    Word(&'static str),
    Number(u64),
    /// A word about the part with this number.
    At(&'static str, u64),
    Refused(Refusal),
    Bytes(Vec<u8>),
}

impl Display for Answer {
    fn fmt<W: Write>(&self, f: &mut Formatter<W>) -> fmt::Result {
        match self {
            Answer::Word(word) => write!(f, "{word}"),
            Answer::Number(number) => write!(f, "{number}"),
            Answer::At(word, number) => write!(f, "{word} {number}"),
            Answer::Refused(Refusal { place, rule }) => {
                let rule = rule.saturating_sub(100);
                let (unit, line, col) = (place.unit, place.line, place.col);
                write!(f, "L{rule} {unit}:{line}:{col}")
            }
            Answer::Bytes(_) => write!(f, "bytes"),
        }
    }
}

/// The answer to a question whether something holds.
pub(crate) fn whether(holds: bool) -> Answer {
    Answer::Word(if holds { "ok" } else { "not ok" })
}

/// Whether this answer is the wanted one, which is a word or, for bytes, a part in the notation.
pub(crate) fn is_wanted(
    alloc: Global,
    answer: &Result<Answer, Failure>,
    wanted: &str,
) -> Result<bool, Failure> {
    match answer {
        Ok(Answer::Bytes(bytes)) => {
            let wanted = bytes_of(alloc, wanted)?;
            Ok(wanted.as_slice() == bytes.as_slice())
        }
        Ok(answer) => {
            let answer = format!(in alloc; "{answer}")?;
            Ok(answer.as_str() == wanted)
        }
        Err(Failure::Malformed) => Ok(wanted == "malformed"),
        Err(_) => Ok(false),
    }
}
