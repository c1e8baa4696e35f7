/// The number of a control bus.
#[derive(Clone, Copy, Debug, PartialEq, Eq)]
pub struct BusNumber {
    pub bus: i32,
}

/// A control bus and its value.
#[derive(Clone, Copy, Debug, PartialEq, Eq)]
pub struct BusValue {
    pub bus: i32,
    pub value: i32,
}

/// Places in a row, such as buses or samples, from `first` on.
#[derive(Clone, Copy, Debug, PartialEq, Eq)]
pub struct Run {
    pub first: i32,
    pub count: u32,
}

/// Control buses in a row, from `bus` on, and one value for all of them.
#[derive(Clone, Copy, Debug, PartialEq, Eq)]
pub struct BusFill {
    pub bus: i32,
    pub count: u32,
    pub value: i32,
}

/// A node that is made: its id or -1, the number of an add action, and the target.
#[derive(Clone, Copy, Debug, PartialEq, Eq)]
pub struct NewNode {
    pub id: i32,
    pub action: i32,
    pub target: i32,
}

/// A group that is made, and whether its members may be rendered beside each other.
#[derive(Clone, Copy, Debug, PartialEq, Eq)]
pub struct NewGroup {
    pub parallel: bool,
    pub node: NewNode,
}

/// The id of a node.
#[derive(Clone, Copy, Debug, PartialEq, Eq)]
pub struct NodeId {
    pub id: i32,
}
