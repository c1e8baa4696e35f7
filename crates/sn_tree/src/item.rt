//! What is kept of a node by itself.
use crate::node::NodeKind;

/// A node by itself.
#[derive(Clone, Copy, Debug, PartialEq, Eq)]
pub struct Item {
    /// The node id.
    pub id: i32,
    /// What the node is.
    pub kind: NodeKind,
    /// The run flag: false if the node itself is paused.
    pub running: bool,
    /// Under which key its payload is kept; none for the root, whose payload stands apart.
    pub key: Option<usize>,
}
