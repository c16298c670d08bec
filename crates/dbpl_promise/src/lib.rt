//! What a command promises: the stages in which its refusals come, what may stand at each moment, what stands at its end,
//! and the headline of a run.
#![tactic(auto)]

mod laws;

pub use laws::{each_stage_does_one_thing, each_stage_does_something};
