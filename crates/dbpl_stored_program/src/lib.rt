//! What a program of one relation variable and one transaction means, and the work of its transaction.
#![tactic(auto)]

mod action;
mod forms;
mod insertion;
mod laws;
mod printing;
mod run_err;
mod set_err;
mod sets;
mod stored_program;
mod transaction;

pub use action::Action;
pub use forms::is_small;
pub use insertion::Insertion;
pub use laws::{
    flat_type_is_kept, meaning_by_statements, meaning_is_steady, meaning_is_whole,
    variable_has_one_place,
};
pub use printing::before_zero;
pub use run_err::RunErr;
pub use set_err::SetErr;
pub use sets::set_of;
pub use stored_program::StoredProgram;
pub use transaction::transacted;

#[cfg(test)]
mod tests;
