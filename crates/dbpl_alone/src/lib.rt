//! A run of one file without a store: a module that prints lines. It has a small tree of its own.
#![tactic(auto)]

mod form;
mod laws;
mod module_laws;
mod modules;
mod printing;
mod program;
mod reading;
mod running;
mod statement;

pub use laws::{module_meaning_is_steady, one_answer_alone};
pub use module_laws::{one_answer, one_form};
pub use program::Program;
pub use running::run_alone;
pub use statement::Statement;
