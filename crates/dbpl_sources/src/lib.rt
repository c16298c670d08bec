//! The texts of source files, or why there are none.
#![tactic(auto)]

mod fetching;

pub use fetching::{source, sources};
