//! The layout of a world: what its clashes and its plan depend on. Which messages leave it as it is.
#![tactic(auto)]

mod controls;
mod flags;
mod laws;
mod leaving;
mod watch;

pub use laws::{layout_decides_what_runs, layout_decides_worlds};
pub use watch::Watch;
