//! The rules of operators and of constants: what operands they take, what is reckoned of constants, and which phrases
//! fit a type.
#![tactic(auto)]

mod comparing;
mod constants;
mod deciding;
mod fitting;
mod host;
mod hosts;
mod literals;
mod parts;
mod reckoning;
mod rules;
mod signing;
#[cfg(test)]
mod tests;

pub use comparing::compared;
pub use deciding::{logical, negated};
pub use fitting::{as_ordinal, as_type, fits, fitted, index_of, lies_in, takes_kind};
pub use host::Host;
pub use hosts::{has_one_host, host_type, phrase_host, type_host};
pub use literals::{character, number, ordinal_constant, text, text_constant, whole_constant};
pub use parts::{instead, kept_where};
pub use reckoning::arithmetic;
pub use signing::signed;
