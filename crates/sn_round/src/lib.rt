//! Rounds of jobs over shared words.
#![tactic(auto)]

mod jobs;
mod laws;
mod plan;
mod shared_foot;
mod successors;
mod work;

pub use jobs::{Ids, Job, Jobs};
pub use laws::{
    lower_comes_first, ordered_rises, sequential_goes_on, sequential_is_a_script,
    successors_are_distinct, successors_are_the_inverse,
};
pub use plan::Plan;
pub use shared_foot::SharedFoot;
pub use work::Work;
