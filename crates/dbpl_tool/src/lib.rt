//! The top call: all that the program does, from the words of the command to its status.
#![tactic(auto)]

mod command;
mod laws;
mod next;
mod working;

pub use command::dbpl;
pub use laws::one_answer;
pub use next::one_behind_another;

#[cfg(test)]
mod fault_tests;
#[cfg(test)]
mod store_tests;
#[cfg(test)]
mod tests;
