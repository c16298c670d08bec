//! A store: the database of a program, kept in two files, right after a stop at any moment.
#![tactic(auto)]

mod changes;
mod commit;
mod creation;
mod newest;
mod opening;
mod spelled;
mod store;
mod store_err;

pub use creation::create;
pub use dbpl_log::CreateErr;
pub use opening::open;
pub use store::Store;
pub use store_err::StoreErr;

#[cfg(test)]
mod tests;
