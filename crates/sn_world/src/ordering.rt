//! Where nodes are put in a row.
ghost use Rattle.sn_world.specs.NodeOrder.{node_place};

use crate::arguments::Pair;
use sn_osc::Arg;

/// Where the first of some nodes goes: the number of an add action, and the target.
#[derive(Clone, Copy, Debug, PartialEq, Eq)]
pub struct NodePlace {
    pub action: i32,
    pub target: i32,
}

impl Pair for NodePlace {
    ghost from_two = { node_place };

    fn from_two(action: &Arg, target: &Arg) -> Option<NodePlace> {
        match (action, target) {
            (Arg::Int(action), Arg::Int(target)) => Some(NodePlace {
                action: *action,
                target: *target,
            }),
            _ => None,
        }
    }
}
