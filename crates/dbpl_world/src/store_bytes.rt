// A store as reads give it, and a list of stores of which the last one of a name counts.
ghost use Rattle.std.specs.Prelude.{◌≡◌, ℕ, ◌+◌, ◌<◌, ◌≤◌, List, [], take, option_map, MatchOption, IfOk, vec_len, vec_capacity};

use std::alloc::{AllocError, Global};

/// The name of a store, and what a read of its two parts gives.
#[derive(Debug, Drop)]
pub struct StoreBytes {
    pub name: Vec<u8>,
    pub log: Vec<u8>,
    pub pages: Vec<u8>,
}

impl StoreBytes {
    ghost use Rattle.dbpl_world.specs.Tied.{last_contents_of, contents_of};

    /// The last store of that name.
    pub fn last_of<'a>(stores: &'a [StoreBytes], name: &[u8]) -> Option<&'a StoreBytes>
        ensures { MatchOption result (last_contents_of stores.now name.now ≡ ([], [])) (λ store. last_contents_of stores.now name.now ≡ (store.now.log.items, store.now.pages.items)) }
    {
        let mut found = None;
        for store in stores {
            if store.name.as_slice() == name {
                found = Some(store);
            }
        }
        found
    }

    /// A copy of that store, empty where there is none, with room for so many more bytes in each part.
    pub fn copy_of(
        alloc: Global,
        stores: &[StoreBytes],
        name: &[u8],
        room: usize,
    ) -> Result<StoreBytes, AllocError>
        ensures name { IfOk result (λ store. store.name.items ≡ name.now) }
        ensures parts { IfOk result (λ store. last_contents_of stores.now name.now ≡ (store.log.items, store.pages.items)) }
        ensures room { IfOk result (λ store. (vec_len store.log + room ≤ vec_capacity store.log) × (vec_len store.pages + room ≤ vec_capacity store.pages)) }
    {
        match StoreBytes::last_of(stores, name) {
            Some(store) => StoreBytes::with_room(
                alloc,
                name,
                store.log.as_slice(),
                store.pages.as_slice(),
                room,
            ),
            None => StoreBytes::with_room(alloc, name, &[], &[], room),
        }
    }

    /// A store with these bytes, and room for so many more in each part.
    pub fn with_room(
        alloc: Global,
        name: &[u8],
        log: &[u8],
        pages: &[u8],
        room: usize,
    ) -> Result<StoreBytes, AllocError>
        ensures name { IfOk result (λ store. store.name.items ≡ name.now) }
        ensures log { IfOk result (λ store. store.log.items ≡ log.now) }
        ensures pages { IfOk result (λ store. store.pages.items ≡ pages.now) }
        ensures room { IfOk result (λ store. (vec_len store.log + room ≤ vec_capacity store.log) × (vec_len store.pages + room ≤ vec_capacity store.pages)) }
    {
        let mut store = StoreBytes {
            name: name.to_vec(alloc)?,
            log: log.to_vec(alloc)?,
            pages: pages.to_vec(alloc)?,
        };
        store.log.reserve(room)?;
        store.pages.reserve(room)?;
        Ok(store)
    }

    /// Puts the store that was mounted, if any, behind the others. There is room for it.
    pub fn set_aside(
        stores: &mut Vec<StoreBytes>,
        name: Option<Vec<u8>>,
        log: Vec<u8>,
        pages: Vec<u8>,
    )
        requires room { vec_len stores.old < vec_capacity stores.old }
        ensures contents { (other : List ℕ) → last_contents_of stores.new.items other ≡ contents_of (option_map (λ bytes. bytes.items) name) (log.items, pages.items) stores.old.items other }
        ensures kept { take (vec_len stores.old) stores.new.items ≡ stores.old.items }
        ensures longer { vec_len stores.old ≤ vec_len stores.new }
        ensures by_one { vec_len stores.new ≤ vec_len stores.old + 1 }
    {
        if let Some(name) = name {
            let _ = stores.push(StoreBytes { name, log, pages });
        }
    }
}
