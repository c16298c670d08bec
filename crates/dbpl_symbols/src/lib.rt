//! Names in scope: what a text has declared where a phrase of it stands, and which declaration a name means there. Beside
//! it the standard names, what InOut exports, and what a unit shows to others.
#![tactic(auto)]

mod copies;
mod decl;
mod declare_err;
mod exports;
mod held;
mod in_out_names;
mod interfaces;
mod laws;
mod origin;
mod pair;
mod places;
mod scope;
mod sort;
mod standard_names;
mod standard_procedure;
#[cfg(test)]
mod tests;

pub use copies::{copy_decl, copy_sort};
pub use decl::Decl;
pub use declare_err::DeclareErr;
pub use exports::Exports;
pub use in_out_names::in_out;
pub use interfaces::{exported, interface};
pub use laws::{entered_and_left, first_names_are_known, known_names};
pub use origin::Origin;
pub use pair::Pair;
pub use scope::Scope;
pub use sort::Sort;
pub use standard_names::make_scope;
pub use standard_procedure::StandardProcedure;
