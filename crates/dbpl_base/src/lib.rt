//! Plain values that every other crate names: lists, names, places, tokens, statuses and the counter of steps.
#![tactic(auto)]

mod boxed;
mod lexeme;
pub mod limits;
mod list;
mod memory;
mod name;
mod place;
mod refusal;
mod shared;
mod status;
mod steps;
mod token;
pub mod words;

pub use boxed::Boxed;
pub use lexeme::Lexeme;
pub use list::List;
pub use memory::Memory;
pub use name::{Name, name_of};
pub use place::Place;
pub use refusal::Refusal;
pub use shared::Shared;
pub use status::Status;
pub use steps::Steps;
pub use token::Token;

#[cfg(test)]
mod tests;
