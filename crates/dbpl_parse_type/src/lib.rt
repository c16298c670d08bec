//! The parser of types: from tokens to the trees that they spell.
#![tactic(auto)]

mod array;
mod inner;
mod phrases;
mod plain;
mod records;
mod sets;
mod whole;

pub use phrases::type_tree;
