//! One synth's block: its units in order.
#![tactic(auto)]

mod controls;
mod inputs;
mod laws;
mod synth;
mod units;

pub use controls::control_value;
pub use laws::{synth_by_foot, wider_foot_runs};
pub use synth::run_synth;
