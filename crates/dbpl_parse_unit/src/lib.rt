//! The parser of whole texts: from tokens to the unit that they spell.
#![tactic(auto)]

mod calls;
mod commons;
mod headings;
mod imports;
mod modules;
mod plain;
mod routines;
mod sets;
mod texts;
mod units;

pub use calls::parse;
pub use dbpl_parse_expr::ParseErr;
