//! The plan of several blocks in one round.
#![tactic(auto)]

mod blocks;
mod capturing;
mod laws;

pub use blocks::{COPY_WORDS, unroll};
pub use capturing::capture;
pub use laws::{
    captures_are_barriers, numbers_tell_blocks, successors_go_by_blocks, unrolled_goes_by_blocks,
    unrolled_is_race_free, unrolled_lies_in_memory,
};
