//! What shows that a chain of jobs is the longest.

use sn_round::Jobs;

/// A level for each job, by its position.
pub type Levels = Vec<u64>;

/// A chain of jobs, and levels that show that no chain costs more.
#[derive(Drop)]
pub struct Certificate {
    /// Jobs of which each is a predecessor of the next.
    pub chain: Jobs,
    /// What each chain that ends with a job costs at most, and the job with all that has to end before it.
    pub levels: Levels,
}
