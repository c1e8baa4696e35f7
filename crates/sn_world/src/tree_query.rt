ghost use Rattle.sn_world.specs.TreeQueries.{tree_query};

use crate::arguments::Pair;
use sn_osc::Arg;

/// A group whose nodes are asked for.
#[derive(Clone, Copy, Debug, PartialEq, Eq)]
pub struct TreeQuery {
    pub group: i32,
}

impl Pair for TreeQuery {
    ghost from_two = { tree_query };

    fn from_two(group: &Arg, flag: &Arg) -> Option<TreeQuery> {
        match (group, flag) {
            (Arg::Int(group), Arg::Int(0)) => Some(TreeQuery { group: *group }),
            _ => None,
        }
    }
}
