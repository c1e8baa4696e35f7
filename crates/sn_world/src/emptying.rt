//! Groups below which nodes are freed.
ghost use Rattle.sn_world.specs.Emptying.{free_all, deep_free};

use crate::arguments::Single;
use sn_osc::Arg;

/// A group all of whose children are freed.
#[derive(Clone, Copy, Debug, PartialEq, Eq)]
pub struct FreeAll {
    pub group: i32,
}

/// A group below which all synths are freed.
#[derive(Clone, Copy, Debug, PartialEq, Eq)]
pub struct DeepFree {
    pub group: i32,
}

impl Single for FreeAll {
    ghost from_one = { free_all };

    fn from_one(group: &Arg) -> Option<FreeAll> {
        match group {
            Arg::Int(group) => Some(FreeAll { group: *group }),
            _ => None,
        }
    }
}

impl Single for DeepFree {
    ghost from_one = { deep_free };

    fn from_one(group: &Arg) -> Option<DeepFree> {
        match group {
            Arg::Int(group) => Some(DeepFree { group: *group }),
            _ => None,
        }
    }
}
