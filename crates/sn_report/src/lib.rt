//! What may run beside what, and the longest chain of jobs.
#![tactic(auto)]

mod certificate;
mod certifying;
mod chains;
mod checking;
mod costs;
mod laws;
mod levels;
mod lines;
mod reporting;
mod resources;
mod words;

pub use certificate::{Certificate, Levels};
pub use certifying::longest;
pub use checking::check;
pub use laws::{certified_chain_is_longest, world_has_the_report};
pub use levels::greatest_below;
pub use reporting::{report, stage_report};
