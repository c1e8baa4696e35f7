//! What a node is, where it is put, and why a change is refused.

/// What a node is: a synth, or a group of nodes.
#[derive(Clone, Copy, Debug, PartialEq, Eq)]
pub enum NodeKind {
    /// A synth. Nothing can be put below it.
    Synth,
    /// A group of nodes.
    Group,
    /// A parallel group of nodes.
    Parallel,
}

/// How a node is put, seen from the target of a [`Spot`]: the head or tail of its children, or just before or after it.
#[derive(Clone, Copy, Debug, PartialEq, Eq)]
pub enum AddAction {
    /// The first of the target's children.
    Head,
    /// The last of the target's children.
    Tail,
    /// Just before the target, in its group.
    Before,
    /// Just after the target, in its group.
    After,
}

/// A place in the tree.
#[derive(Clone, Copy, Debug, PartialEq, Eq)]
pub struct Spot {
    /// How the node is put, seen from the target.
    pub action: AddAction,
    /// The target's node id.
    pub target: i32,
}

/// A node as it stands in the tree, its neighbours by their ids, with -1 for none.
#[derive(Clone, Copy, Debug, PartialEq, Eq)]
pub struct NodeView {
    /// What the node is.
    pub kind: NodeKind,
    /// The run flag: false if the node itself is paused.
    pub running: bool,
    /// The id of its group, or -1 for the root.
    pub parent: i32,
    /// The id of the node before it in its group, or -1.
    pub previous: i32,
    /// The id of the node after it in its group, or -1.
    pub next: i32,
    /// The id of its first child, or -1.
    pub head: i32,
    /// The id of its last child, or -1.
    pub tail: i32,
}

/// Why a change of the tree is refused. If several hold, the first in this order is answered: `InUse`, `NoNode`,
/// `IsRoot`, `NotGroup`, `Inside`, `TooMany`.
#[derive(Clone, Copy, Debug, PartialEq, Eq)]
pub enum TreeFault {
    /// The node or the spot's target is not attached. For `attach`: no detached subtree has the
    /// node as its top, or the target is not attached.
    NoNode,
    /// A node with this id is attached. For `attach`: one with an id of the subtree is.
    InUse,
    /// The target of `Head` or `Tail` is a synth.
    NotGroup,
    /// The root can't be moved or taken out, and has no neighbours.
    IsRoot,
    /// The target is the moved node or lies below it.
    Inside,
    /// More than 4,096 nodes would be attached.
    TooMany,
}

/// A refused insert, with the payload that was handed in.
#[derive(Debug, Drop)]
pub enum Uninserted<P> {
    /// Memory ran out. It holds the payload.
    NoMemory(P),
    /// Why the tree refuses the node, and the payload.
    Fault(TreeFault, P),
}
