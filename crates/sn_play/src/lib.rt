//! The jobs of a plan are the walk: what they make of the words, one after the other, is what the walk over the nodes
//! makes of them, except for the lanes. They are the work of a round.
#![tactic(auto)]

mod block;
mod joining;
mod laws;
mod playing;
mod span;

pub use block::BlockJobs;
pub use laws::{
    block_is_the_walk, groups_change_nothing, job_feet_suffice, span_is_the_walks,
    voices_are_the_walk, worlds_lie_below,
};
pub use span::Span;
