//! The way from the text of a file to the unit that it spells.
#![tactic(auto)]

mod front_err;
mod laws;
mod reading;

pub use front_err::FrontErr;
pub use laws::one_unit;
pub use reading::unit_in;
