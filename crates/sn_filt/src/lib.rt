//! Arithmetic on signals, and filters.
#![tactic(auto)]

mod arithmetic;
mod block;
mod blockwise;
mod followers;
mod frames;
mod held;
mod laws;
mod lines;
mod poles;
mod powers;
mod pulses;
mod ratios;
mod rings;
mod samples;
mod seconds;
mod sections;
mod state_variable;
mod steady;

pub use block::run;
pub use laws::{delayed_input, delayed_line, delayed_sum, highest_digit};
