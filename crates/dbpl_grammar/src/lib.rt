//! The grammar as functions that read lists of tokens, and its laws: each reads exactly what is spelled, and one list
//! of tokens spells one tree. The functions stand in `specs/`, for the contracts of the parser.
#![tactic(auto)]

mod laws;

pub use laws::{
    one_tree, reads_aggregates, reads_designators, reads_expressions, reads_ranges, reads_units,
};
