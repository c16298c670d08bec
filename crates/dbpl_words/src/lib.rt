//! The request that a command's words make, and the report of its answer.
#![tactic(auto)]

mod asking;
mod laws;
mod noting;
mod report;
mod wanted;

pub use asking::request;
pub use laws::one_request;
pub use report::note_report;
pub use wanted::Request;

#[cfg(test)]
mod tests;
