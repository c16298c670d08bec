//! The form of two files: a database module with one relation variable, and a program with one transaction over it.
#![tactic(auto)]

mod actions;
mod aggregates;
mod data_modules;
mod expressions;
mod form;
mod imports;
mod insertions;
mod laws;
mod names;
mod reading;
mod schema;
mod statements;
mod storing;

pub use form::stored;
pub use laws::{one_answer, stored_is_small};
pub use reading::read_stored;
pub use schema::Schema;
