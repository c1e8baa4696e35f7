//! The pool, from which every buffer, unit state and delay line takes its words, and where its region begins.
#![tactic(auto)]

mod changes;
mod holes;
mod places;
mod pool;
mod region;
mod sorted;

pub use places::{POOL_BASE, buses_lie_apart};
pub use pool::{Mark, Pool, Untaken};
pub use sn_mem::Places;
