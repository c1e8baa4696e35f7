//! Units on buses, units on buffers, and triggers.
#![tactic(auto)]

mod between;
mod block;
mod buffer_samples;
mod buffers;
mod channels;
mod inputs;
mod joints;
mod laws;
mod outputs;
mod placing;
mod playing;
mod positions;
mod recording;
mod triggers;

pub use block::run;
pub use buffers::run_buffer_unit;
pub use joints::add_lanes;
pub use laws::{
    buffer_unit_by_foot, bus_unit_by_foot, by_foot_in_turn, by_wider_foot, ends_are_unseen,
    kept_is_by_foot, kept_to_its_foot, lanes_add_what_was_put, lanes_by_foot,
};
