//! Samples in Q8.24: arithmetic, phases, times and literals.
#![tactic(auto)]

mod arcs;
mod arithmetic;
mod division;
mod durations;
mod heights;
mod laws;
mod lines;
mod literals;
mod naturals;
mod phases;
mod ranges;
mod slopes;
mod triggers;

pub use arcs::{arc, wave};
pub use arithmetic::{
    ONE, add, added, mul, mul_add, products, sat, sat_wide, scaled, scaled_sample, sub, times,
    total, weighted,
};
pub use division::Division;
pub use durations::TimeFrames;
pub use heights::Heights;
pub use laws::{digits_read_back, literal_bytes};
pub use lines::{distance, line_at, moved, nearer, portion};
pub use literals::literal;
pub use naturals::natural;
pub use phases::{frames_of, sine, step_of};
pub use ranges::into_range;
pub use slopes::Slope;
pub use triggers::rises;
