//! From ids to keys, in one sorted vector.
#![tactic(auto)]

mod ids;

pub use ids::Ids;
