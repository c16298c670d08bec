// A world in memory. It tells everything: its history is the record of its calls, and what it holds beside that record
// agrees with it.
ghost use Rattle.std.specs.Prelude.{◌≡◌, ◌+◌, ◌*◌, ◌<◌, ◌≤◌, [], ◌∷◌, ◌++◌, drop, None, option_map, vec_len, vec_capacity};
ghost use Rattle.dbpl_world.specs.History.{now};
ghost use Rattle.dbpl_world.specs.CallRecord.{events_recorded};
ghost use Rattle.dbpl_world.specs.Tied.{history_in, IsHeld};

use crate::budget::Budget;
use crate::call_record::CallRecord;
use crate::made_call::{Call, MadeCall};
use crate::store_bytes::StoreBytes;
use crate::{Counts, NoMemory};
use std::alloc::{AllocError, Global};

mod calls;

#[derive(Debug, Drop)]
pub struct MemoryWorld {
    input: Vec<u8>,

    // The stores that were put, and behind them what others held when they ceased to be mounted.
    stores: Vec<StoreBytes>,
    put: usize,
    recorded: CallRecord,
    room: u64,
    budget: Budget,
    counts: Counts,

    // What the history gives, for the calls to read.
    taken: usize,
    said: Vec<u8>,
    noted: Vec<u8>,
    name: Option<Vec<u8>>,
    log: Vec<u8>,
    pages: Vec<u8>,

    ghost put_within: { put ≤ vec_len stores },
    ghost taken_within: { taken ≤ vec_len input },
    ghost few_stores: { vec_len stores ≤ put + vec_len recorded.calls },
    ghost few: { vec_len recorded.calls ≤ budget.calls },
    ghost calls_room: { 64 * vec_len recorded.calls + budget.left ≤ 64 * vec_capacity recorded.calls },
    ghost bytes_room: { vec_len recorded.bytes + budget.left ≤ vec_capacity recorded.bytes },
    ghost said_room: { vec_len said + budget.left ≤ vec_capacity said },
    ghost noted_room: { vec_len noted + budget.left ≤ vec_capacity noted },
    ghost log_room: { vec_len log + budget.left ≤ vec_capacity log },
    ghost pages_room: { vec_len pages + budget.left ≤ vec_capacity pages },
    ghost tied: { IsHeld (now (history_in input.items stores.items put (events_recorded recorded))) (option_map (λ bytes. bytes.items) name) (drop taken input.items) said.items noted.items log.items pages.items stores.items },
}

impl MemoryWorld {
    ghost use Rattle.std.specs.Prelude.{IfOk, OnOk, OnErr};
    ghost use Rattle.dbpl_world.specs.declared.counts.Counts.{Counts};
    ghost use Rattle.dbpl_world.specs.InMemory.{history_of, mounted_in, counts_of, rule_in, room_in, fresh_history, with_store_put};
    ghost use Rattle.dbpl_world.specs.Tied.{contents_of};
    ghost use Rattle.dbpl_world.specs.Calls.{ChangesNothing};

    /// A world with this input and no stores. The calls with the numbers in `fails` fail, and those past `room`.
    pub fn make(
        alloc: Global,
        input: &[u8],
        fails: &[u64],
        room: u64,
    ) -> Result<MemoryWorld, NoMemory>
        ensures history { IfOk result (λ world. history_of world ≡ fresh_history input.now) }
        ensures mounted { IfOk result (λ world. mounted_in world ≡ None) }
        ensures counts { IfOk result (λ world. counts_of world ≡ record { take_faults = 0; say_faults = 0; note_faults = 0; disk_faults = 0; page_reads = 0 }) }
        ensures rule { IfOk result (λ world. rule_in world ≡ record { fails = fails.now; calls = 0; left = room }) }
        ensures room { IfOk result (λ world. room_in world ≡ room) }
    {
        let left = room as usize;
        let mut whole_input = Vec::new(alloc);
        whole_input.extend_from_slice(input)?;
        Ok(MemoryWorld {
            input: whole_input,
            stores: Vec::new(alloc),
            put: 0,
            recorded: CallRecord::new(alloc, left)?,
            room,
            budget: Budget::new(alloc, fails, left)?,
            counts: Counts::ZERO,
            taken: 0,
            said: Vec::with_capacity(alloc, left)?,
            noted: Vec::with_capacity(alloc, left)?,
            name: None,
            log: Vec::with_capacity(alloc, left)?,
            pages: Vec::with_capacity(alloc, left)?,
        })
    }

    /// Sets a store, before any call of the world. The last one of a name counts.
    pub fn put_store(
        &mut self,
        alloc: Global,
        name: &str,
        log: &[u8],
        pages: &[u8],
    ) -> Result<(), NoMemory>
        requires fresh { (rule_in self.old).calls ≡ 0 }
        ensures ok { OnOk result (history_of self.new ≡ with_store_put name.now log.now pages.now (history_of self.old)) }
        ensures err { OnErr result (history_of self.new ≡ history_of self.old) }
        ensures mounted { mounted_in self.new ≡ mounted_in self.old }
        ensures counts { counts_of self.new ≡ counts_of self.old }
        ensures rule { rule_in self.new ≡ rule_in self.old }
        ensures room { room_in self.new ≡ room_in self.old }
    {
        let store = StoreBytes::with_room(alloc, name.as_bytes(), log, pages, 0)?;
        self.stores.push(store)?;
        self.put += 1;
        Ok(())
    }

    /// A copy of the store of that name, as reads give it, with room for what is left.
    fn opened(&self, alloc: Global, name: &[u8]) -> Result<StoreBytes, AllocError>
        ensures name { IfOk result (λ store. store.name.items ≡ name.now) }
        ensures parts { IfOk result (λ store. contents_of (mounted_in self.now) (self.now.log.items, self.now.pages.items) self.now.stores.items name.now ≡ (store.log.items, store.pages.items)) }
        ensures room { IfOk result (λ store. (vec_len store.log + self.now.budget.left ≤ vec_capacity store.log) × (vec_len store.pages + self.now.budget.left ≤ vec_capacity store.pages)) }
    {
        match &self.name {
            Some(mounted) if mounted.as_slice() == name => {
                StoreBytes::with_room(
                    alloc,
                    name,
                    self.log.as_slice(),
                    self.pages.as_slice(),
                    self.budget.left,
                )
            }
            _ => StoreBytes::copy_of(alloc, self.stores.as_slice(), name, self.budget.left),
        }
    }

    /// Records a call that changed nothing. Past its room every call fails, and is left out where the record is full.
    fn record_still(&mut self, number: u64, call: Call)
        requires still { ChangesNothing call }
        requires counted { vec_len self.old.recorded.calls < self.old.budget.calls }
        requires paid { 0 < self.old.budget.left → 64 * (vec_len self.old.recorded.calls + 1) + self.old.budget.left ≤ 64 * vec_capacity self.old.recorded.calls }
        ensures history { history_of self.new ≡ history_of self.old }
        ensures mounted { mounted_in self.new ≡ mounted_in self.old }
        ensures counts { counts_of self.new ≡ counts_of self.old }
        ensures rule { rule_in self.new ≡ rule_in self.old }
        ensures room { room_in self.new ≡ room_in self.old }
        ensures kept { vec_len self.old.recorded.calls < vec_capacity self.old.recorded.calls → self.new.recorded.calls.items ≡ self.old.recorded.calls.items ++ record { number = number; call = call } ∷ [] }
    {
        if self.recorded.calls.len() < self.recorded.calls.capacity() {
            self.recorded.keep(MadeCall { number, call }, &[]);
        }
    }

    /// The bytes said.
    pub fn said(&self) -> &[u8]
        ensures { result.now ≡ (now (history_of self.now)).said }
    {
        self.said.as_slice()
    }

    /// The bytes noted.
    pub fn noted(&self) -> &[u8]
        ensures { result.now ≡ (now (history_of self.now)).noted }
    {
        self.noted.as_slice()
    }

    /// How many calls of the world were made.
    pub fn calls(&self) -> u64
        ensures { result ≡ (rule_in self.now).calls }
    {
        self.budget.calls
    }
}
