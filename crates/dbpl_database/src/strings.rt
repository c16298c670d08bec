//! Numbers and strings at the front of bytes, and the bytes after them.
ghost use Rattle.dbpl_codec.specs.Reading.{Gives, word_at};
ghost use Rattle.dbpl_codec.specs.TypeReading.{bytes_at, name_at};

use byteorder::{ByteOrder, LittleEndian};
use dbpl_codec::ReadErr;

#[tactic(auto, using(crate::proofs::StringSteps::steps))]
pub(crate) fn word(bytes: &[u8]) -> Result<(u32, &[u8]), ReadErr>
    ensures { Gives (λ x. (x.0, x.1.now)) result (word_at bytes.now) }
{
    if bytes.len() < 4 {
        return Err(ReadErr::Malformed);
    }
    let (_, rest) = bytes.split_at(4);
    Ok((LittleEndian::read_u32(bytes), rest))
}

/// Bytes behind their number.
#[tactic(auto, using(crate::proofs::StringSteps::steps))]
pub(crate) fn string(bytes: &[u8]) -> Result<(&[u8], &[u8]), ReadErr>
    ensures { Gives (λ x. (x.0.now, x.1.now)) result (name_at bytes.now) }
{
    let (count, rest) = word(bytes)?;
    front(rest, count)
}

#[tactic(auto, using(crate::proofs::StringSteps::steps))]
fn front(bytes: &[u8], count: u32) -> Result<(&[u8], &[u8]), ReadErr>
    ensures { Gives (λ x. (x.0.now, x.1.now)) result (bytes_at count bytes.now) }
{
    let count = count as usize;
    if bytes.len() < count {
        return Err(ReadErr::Malformed);
    }
    Ok(bytes.split_at(count))
}
