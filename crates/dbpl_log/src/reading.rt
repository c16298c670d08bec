// The records in the bytes of a log.
ghost use Rattle.std.specs.Prelude.{◌≡◌, ◌^◌, ◌<◌, Some, None, length, drop, option_map, MatchOption, IfOk, ⊤};
ghost use Rattle.dbpl_log.specs.Records.{record_in, records_from, next_gate};
ghost use Rattle.dbpl_log.specs.Rest.{records_in};

use crate::{Log, Opened};
use dbpl_base::Memory;
use std::alloc::Global;

/// How many bytes the head has.
const HEAD: usize = 16;

/// The records behind the head, and the place of the next gate. None where an open record doesn't fit, or where the log
/// ends before the next gate.
pub(crate) fn read_records(alloc: Global, log: &[u8]) -> Result<Option<Opened>, Memory>
    requires limit { length log.now < 2 ^ 63 }
    ensures records { IfOk result (λ found.
        records_from (length log.now) (drop 16 log.now) ≡ option_map records_in found) }
    ensures gate { IfOk result (λ found.
        MatchOption found ⊤ (λ opened. opened.log.gate ≡ next_gate (records_in opened))) }
{
    if log.len() < HEAD {
        return Ok(None);
    }
    let mut records = Vec::new(alloc);
    let (_, mut rest) = log.split_at(HEAD);
    while let Some((gate, behind)) = rest.split_first() {
        if *gate != 1 {
            let gate = (log.len() - rest.len()) as u64;
            return Ok(Some(Opened {
                log: Log { gate },
                records,
            }));
        }
        let Some((record, after)) = first_record(behind) else {
            return Ok(None);
        };
        records.push(record.to_vec(alloc)?)?;
        rest = after;
    }
    Ok(None)
}

/// The record behind an open gate, and what stands after it.
#[tactic(auto, unfolding(crate::specs::Records::record_in, crate::specs::Records::length_told))]
fn first_record(behind: &[u8]) -> Option<(&[u8], &[u8])>
    ensures { option_map (λ found. (found.0.now, found.1.now)) result ≡ record_in behind.now }
{
    let (field, rest) = behind.split_first_chunk::<4>()?;
    let size = u32::from_le_bytes(*field) as usize;
    if rest.len() < size {
        return None;
    }
    Some(rest.split_at(size))
}
