//! Databases: how a program's relation variables are bound to one, and their spelling.
#![tactic(auto)]

mod binding;
mod laws;
mod limits;
mod names;
mod reading;
mod relations;
mod strings;
mod writing;

pub use binding::{add_empty, place_of};
pub use laws::one_database;
pub use reading::read_database;
pub use relations::put_relation;
pub use writing::write_database;

#[cfg(test)]
mod tests;
