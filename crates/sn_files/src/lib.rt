//! Files as sources and sinks: a file that is written holds what it held until its first byte comes, and the error of
//! what failed is noted.
#![tactic(auto)]

mod identity;
mod made;
mod noted;

pub use identity::{Identity, are_one};
pub use made::{GivenFile, MadeFile};
pub use noted::{Faults, NotedSink, NotedSource};
