//! Which members of parallel groups clash.
#![tactic(auto)]

mod clash;
mod gathering;
mod laws;
mod marks;
mod pairs;
mod passing;
mod sharing;
mod subtree;
mod thinning;
mod walking;

pub use clash::{Clash, Clashes};
pub use laws::world_has_the_clashes;
pub use passing::used_by;
pub use walking::{all_nodes, clashes};
