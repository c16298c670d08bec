//! The outside of a database: input, output, notes and the two parts of a store, and the shelf that program texts come
//! from. A world tells its history; what a stop may leave is defined over it.
#![tactic(auto)]

mod budget;
mod call_record;
mod counts;
mod durable;
mod failed;
mod file_calls;
mod file_shelf;
mod kept_output;
mod made_call;
mod memory_shelf;
mod memory_world;
mod mount_err;
mod no_memory;
mod outside;
mod part;
mod part_bytes;
mod real_world;
mod shelf;
mod shelf_err;
mod store_bytes;
mod store_files;
mod store_paths;
mod whole;

pub use counts::Counts;
pub use durable::write_and_sync;
pub use failed::Failed;
pub use file_shelf::FileShelf;
pub use memory_shelf::MemoryShelf;
pub use memory_world::MemoryWorld;
pub use mount_err::MountErr;
pub use no_memory::NoMemory;
pub use outside::World;
pub use part::Part;
pub use real_world::RealWorld;
pub use shelf::Shelf;
pub use shelf_err::ShelfErr;
pub use whole::{note_all, say_all};

#[cfg(test)]
mod tests;
