//! Generators: oscillators, noise, impulses, ramps, lines and envelopes.
#![tactic(auto)]

mod block;
mod course;
mod harmonics;
mod impulse;
mod laws;
mod line;
mod linen;
mod noise;
mod oscillators;
mod phases;
mod phasor;
mod pink;
mod rounded;
mod sine;
mod waves;

pub use block::run;
pub use laws::{ends_are_unseen, line_is_straight};
