//! The jobs of a round, made of the nodes of the tree.
#![tactic(auto)]

mod jobs;
mod lanes;
mod laws;
mod linked;
mod mixing;
mod named;
mod nodes;
mod parts;
mod stages;

pub use lanes::Lanes;
pub use laws::{
    clashes_name_the_groups, feet_clash_as_footprints, lanes_are_joined, nodes_clash_as_footprints,
    silent_groups_are_left_out, worlds_are_disjoint,
};
pub use nodes::{HeardNodes, Joint, Voice};
pub use stages::plan;
