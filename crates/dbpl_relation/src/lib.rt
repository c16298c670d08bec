//! Relations: the record with a key, adding, removing and replacing records, and assignment through a selector.
#![tactic(auto)]

mod assignment;
mod change_err;
mod edits;
mod faults;
mod insertion;
mod lookup;
mod op;
mod places;
mod records;
mod removal;
mod replacing;
mod selection;
#[cfg(test)]
mod tests;

pub use assignment::assign_through;
pub use change_err::ChangeErr;
pub use insertion::insert;
pub use lookup::find;
pub use op::Op;
pub use removal::remove;
pub use replacing::replace;
pub use selection::select;
