//! The rules of calls: what their parentheses ask for, which arguments are that, and what a call gives.
#![tactic(auto)]

mod argument;
mod arguments;
mod asked;
mod asking;
mod denoted;
mod functions;
mod parts;
mod results;
mod rules;
#[cfg(test)]
mod tests;

pub use argument::Argument;
pub use arguments::{
    characters_argument, counted_argument, kind_argument, standard_argument, value_argument,
    variable_argument,
};
pub use asked::Asked;
pub use asking::asked_at;
pub use denoted::Denoted;
pub use functions::function_rules;
pub use results::called;
