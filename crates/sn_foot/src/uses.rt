//! Uses of resources.
ghost use Rattle.std.specs.Prelude.{◌≡◌};
ghost use Rattle.sn_foot.specs.Uses.{is_role};

use crate::resource::Resource;

/// How a resource is used.
#[derive(Clone, Copy, Debug)]
pub enum Role {
    /// It is read.
    Read,
    /// It is written.
    Write,
    /// It is an audio bus to which a signal is added, and nothing else is done with it.
    Mix,
}

impl Role {
    /// Whether it is this one.
    pub fn is(self, used: Role) -> bool
        ensures { result ≡ is_role self used }
    {
        match (self, used) {
            (Role::Read, Role::Read) => true,
            (Role::Write, Role::Write) => true,
            (Role::Mix, Role::Mix) => true,
            _ => false,
        }
    }
}

/// A resource, and how it is used.
#[derive(Clone, Copy, Debug)]
pub struct Use {
    /// Whether it is read, written or mixed.
    pub role: Role,
    /// What is used.
    pub resource: Resource,
}
