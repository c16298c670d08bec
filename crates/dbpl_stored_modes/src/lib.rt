//! The commands that need a store.
#![tactic(auto)]

mod creating;
mod files;
mod laws;
mod running;

pub use creating::create_store;
pub use files::run_files;
pub use laws::{one_answer_over_stores, some_answer_over_stores};

#[cfg(test)]
mod tests;
