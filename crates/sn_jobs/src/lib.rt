//! Jobs of a round that are put one after another, by programs that test.
#![tactic(auto)]

mod jobs;

pub use jobs::{no_jobs, put};
