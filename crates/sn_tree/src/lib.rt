//! The tree of synths and groups: an id, a kind, a run flag and a payload for each node.
#![tactic(auto)]

mod climb;
mod cursor;
mod index;
mod item;
mod journal;
mod level;
mod meets;
mod members;
mod node;
mod order;
mod payloads;
mod reading;
mod rows;
mod spots;
mod steps;
mod store;
mod tally;
mod tops;
mod tree;
mod undo;
mod views;
mod walk;

pub use members::{Member, Members};
pub use node::{AddAction, NodeKind, NodeView, Spot, TreeFault, Uninserted};
pub use payloads::ChangePayload;
pub use tally::Tally;
pub use tree::Tree;
pub use walk::{Visit, Walk};
