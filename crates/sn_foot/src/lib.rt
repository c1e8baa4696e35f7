//! What each node may read and write.
#![tactic(auto)]

mod feet;
mod judging;
mod laws;
mod merging;
mod mixers;
mod nodes;
mod places;
mod reach;
mod resource;
mod units;
mod uses;
mod using;

pub use feet::{Unfooted, foot_of, foot_of_nodes};
pub use laws::{
    foot_has_each, foot_has_its_words, foot_lies_in_memory, foot_suffices, nodes_run_by_foot,
    one_canonical, wider_foot_suffices,
};
pub use merging::canonical;
pub use reach::Reach;
pub use resource::Resource;
pub use uses::{Role, Use};
pub use using::push_held;
