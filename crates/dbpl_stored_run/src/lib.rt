//! A run of a program with one transaction over the mounted store, right at every moment.
#![tactic(auto)]

mod body_err;
mod printing;
mod running;
mod statements;
mod stop_err;
mod transacting;

pub use running::run_stored;
pub use stop_err::StopErr;

#[cfg(test)]
mod tests;
