//! A store in one log: records behind a head, each on the disk whole or not at all, after a stop at any moment.
#![tactic(auto)]

mod commit;
mod create_err;
mod creation;
mod head;
mod laws;
mod log;
mod open_err;
mod opened;
mod opening;
mod reading;
mod syncs;

pub use create_err::CreateErr;
pub use creation::create;
pub use laws::{nothing_may_begin, records_are_held};
pub use log::Log;
pub use open_err::OpenErr;
pub use opened::Opened;
pub use opening::open;

#[cfg(test)]
mod tests;
