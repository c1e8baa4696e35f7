//! Trees of values in one slab. Each node has a key, and is linked with the nodes around it.
#![tactic(auto)]

mod forest;
mod laws;
mod links;
mod place;
mod slot;

pub use forest::Forest;
pub use links::Links;
pub use place::Place;
