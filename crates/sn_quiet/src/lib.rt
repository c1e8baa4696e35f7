//! Blocks that may be settled together: a walk does not see whether the block before it was settled.
#![tactic(auto)]

mod laws;
mod quiet;

pub use laws::{quiet_blocks_settle, quiet_stays, settling_is_unseen};
pub use quiet::is_quiet;
