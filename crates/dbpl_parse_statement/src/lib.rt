//! The parser of statements: from tokens to the trees that they spell.
#![tactic(auto)]

mod action;
mod body;
mod branches;
mod cases;
mod counts;
mod leaving;
mod loops;
mod phrases;
mod sets;
mod statement;

pub use phrases::statements;
