//! Judgements: how a phrase is judged by the rules of the language. A judgement names all breaches of a phrase and its
//! resolved form, and the one contract of every function that judges says that the least breach is kept.
#![tactic(auto)]

mod checker;
mod facts;
mod gives;
mod heading;
mod kind;
mod laws;
mod nodes;
mod parts;
mod setting;
#[cfg(test)]
mod tests;
mod typed;

pub use checker::Checker;
pub use facts::Facts;
pub use gives::Gives;
pub use heading::{Heading, heading_of};
pub use kind::Kind;
pub use laws::{least_breach, noting_lists, refused_by_one};
pub use parts::{both_of, boxed, kept, pair, pushed};
pub use setting::Setting;
pub use typed::Typed;
