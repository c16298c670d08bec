//! What a program means: what it prints, reads and comes to, and how much work that is.
#![tactic(auto)]

mod laws;

pub use laws::{
    calls_are_limited, leaving_ends_at_routines, loops_take_turns, meaning_by_rows,
    meaning_is_steady,
};
