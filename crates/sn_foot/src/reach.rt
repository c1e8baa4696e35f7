//! What nodes reach.
use sn_mem::Extents;

/// The words that a node may read, those that it may write, and those of the audio buses that it only
/// mixes: it adds to what they hold, and does nothing else with them.
#[derive(Drop)]
pub struct Reach {
    /// What it may read.
    pub reads: Extents,
    /// What it may write.
    pub writes: Extents,
    /// What it mixes.
    pub mixes: Extents,
}
