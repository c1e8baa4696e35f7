//! What the commands on nodes repeat.
ghost use Rattle.sn_world.specs.RunFlags.{run_flag};
ghost use Rattle.sn_world.specs.Queries.{node_query};

use crate::arguments::{Pair, Single};
use sn_osc::Arg;
use sn_tree::AddAction;

/// A node and its run flag.
#[derive(Clone, Copy, Debug, PartialEq, Eq)]
pub struct RunFlag {
    pub id: i32,
    pub on: bool,
}

/// A node that is moved, and where it goes, seen from a target.
#[derive(Clone, Copy, Debug, PartialEq, Eq)]
pub struct NodeMove {
    pub action: AddAction,
    pub id: i32,
    pub target: i32,
}

impl Pair for RunFlag {
    ghost from_two = { run_flag };

    fn from_two(id: &Arg, flag: &Arg) -> Option<RunFlag> {
        match (id, flag) {
            (Arg::Int(id), Arg::Int(flag)) => Some(RunFlag {
                id: *id,
                on: *flag != 0,
            }),
            _ => None,
        }
    }
}

/// A node that is asked for.
#[derive(Clone, Copy, Debug, PartialEq, Eq)]
pub struct NodeQuery {
    pub id: i32,
}

impl Single for NodeQuery {
    ghost from_one = { node_query };

    fn from_one(id: &Arg) -> Option<NodeQuery> {
        match id {
            Arg::Int(id) => Some(NodeQuery { id: *id }),
            _ => None,
        }
    }
}
