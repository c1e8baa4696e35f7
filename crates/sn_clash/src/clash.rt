//! Two members of a parallel group that clash.
ghost use Rattle.std.specs.Prelude.{◌≡◌, []};

use sn_foot::Resource;
use std::alloc::Global;
use std::marker::Model;

/// Two members of a parallel group of which one writes what the other uses, or mixes what the other reads or writes,
/// and the first such resource.
#[derive(Clone, Copy, Debug, PartialEq, Eq)]
pub struct Clash {
    /// The id of the group.
    pub group: i32,
    /// The id of the member that stands first.
    pub first: i32,
    /// The id of the other member.
    pub second: i32,
    /// On what they clash.
    pub resource: Resource,
}

/// A list of clashes.
#[derive(Debug, Drop)]
pub struct Clashes {
    pub(crate) items: Vec<Clash>,
}

impl Model for Clashes {
    ghost use Rattle.std.specs.Prelude.{List};
    ghost use Rattle.sn_clash.specs.declared.clash.Clash.{Clash};

    ghost Value = { List Clash };

    ghost view = { λ c. c.items.items };
}

impl Clashes {
    /// No clashes.
    pub fn new(alloc: Global) -> Clashes
        ensures { result ≡ [] }
    {
        Clashes {
            items: Vec::new(alloc),
        }
    }

    /// The clashes, in their order.
    pub fn as_slice(&self) -> &[Clash]
        ensures { result.now ≡ self.now }
    {
        &self.items
    }
}
