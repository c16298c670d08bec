// The record of a world in memory. Its bytes are exactly those that its calls moved.
ghost use Rattle.std.specs.Prelude.{◌≡◌, ◌+◌, ◌*◌, ◌<◌, ◌≤◌, ◌++◌, [], ◌∷◌, length, IfOk, OnOk, vec_len, vec_capacity};
ghost use Rattle.dbpl_world.specs.Calls.{bytes_of, events_of, total_bytes};

use crate::made_call::MadeCall;
use std::alloc::{AllocError, Global};

#[derive(Debug, Drop)]
pub struct CallRecord {
    pub calls: Vec<MadeCall>,
    pub bytes: Vec<u8>,
    ghost whole: { total_bytes calls.items ≡ vec_len bytes },
}

impl CallRecord {
    ghost use Rattle.dbpl_world.specs.CallRecord.{events_recorded};

    /// An empty record with room for calls that cost so much together.
    pub fn new(alloc: Global, room: usize) -> Result<CallRecord, AllocError>
        ensures events { IfOk result (λ recorded. events_recorded recorded ≡ []) }
        ensures calls { IfOk result (λ recorded. (vec_len recorded.calls ≡ 0) × (room ≤ 64 * vec_capacity recorded.calls)) }
        ensures bytes { IfOk result (λ recorded. (vec_len recorded.bytes ≡ 0) × (room ≤ vec_capacity recorded.bytes)) }
    {
        Ok(CallRecord {
            calls: Vec::with_capacity(alloc, room / 64 + 1)?,
            bytes: Vec::with_capacity(alloc, room)?,
        })
    }

    /// Makes room for so many more bytes.
    pub fn reserve(&mut self, additional: usize) -> Result<(), AllocError>
        ensures events { events_recorded self.new ≡ events_recorded self.old }
        ensures calls { vec_len self.new.calls ≡ vec_len self.old.calls }
        ensures bytes { vec_len self.new.bytes ≡ vec_len self.old.bytes }
        ensures calls_room { vec_capacity self.old.calls ≤ vec_capacity self.new.calls }
        ensures bytes_room { vec_capacity self.old.bytes ≤ vec_capacity self.new.bytes }
        ensures ok { OnOk result (vec_len self.new.bytes + additional ≤ vec_capacity self.new.bytes) }
    {
        self.bytes.reserve(additional)
    }

    /// Records one more call. There is room for it.
    pub fn keep(&mut self, made: MadeCall, bytes: &[u8])
        requires whole { bytes_of made.call ≡ length bytes.now }
        requires calls { vec_len self.old.calls < vec_capacity self.old.calls }
        requires bytes { vec_len self.old.bytes + length bytes.now ≤ vec_capacity self.old.bytes }
        ensures events { events_recorded self.new ≡ events_recorded self.old ++ events_of made.call bytes.now }
        ensures kept { self.new.calls.items ≡ self.old.calls.items ++ made ∷ [] }
        ensures calls { vec_len self.new.calls ≡ vec_len self.old.calls + 1 }
        ensures bytes { vec_len self.new.bytes ≡ vec_len self.old.bytes + length bytes.now }
        ensures calls_room { vec_capacity self.old.calls ≤ vec_capacity self.new.calls }
        ensures bytes_room { vec_capacity self.old.bytes ≤ vec_capacity self.new.bytes }
    {
        let _ = self.calls.push(made);
        let _ = self.bytes.extend_from_slice(bytes);
    }
}
