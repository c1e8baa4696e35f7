//! A node that was passed.
use sn_foot::Use;

/// A node with all below it.
#[derive(Drop)]
pub struct Subtree {
    /// The id of the node.
    pub id: i32,
    /// What the walk finds there uses.
    pub uses: Vec<Use>,
    /// How many clashes were found before them.
    pub base: usize,
}
