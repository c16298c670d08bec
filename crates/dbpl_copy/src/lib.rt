//! Copies of trees, each equal to what it copies: a function for each production.
#![tactic(auto)]

mod declarations;
mod expressions;
mod names;
mod pair;
mod statements;
mod types;
mod units;

pub use units::copy_unit;
