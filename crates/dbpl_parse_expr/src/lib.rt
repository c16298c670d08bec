//! The parser of expressions: from tokens to the trees that they spell.
#![tactic(auto)]

mod aggregate;
mod calls;
mod designator;
mod expr;
mod factor;
mod inner;
mod kinds;
pub mod lists;
mod literals;
pub mod names;
mod operators;
pub mod pair;
mod parse_err;
pub mod phrases;
mod range;
mod read_err;
pub mod sets;
pub mod tokens;

pub use calls::{answered, parse_aggregate, parse_designator, parse_expr, parse_range};
pub use parse_err::ParseErr;
pub use read_err::ReadErr;
