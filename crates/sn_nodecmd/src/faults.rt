//! Reasons for the tree's faults.
ghost use Rattle.std.specs.Prelude.{◌≡◌};
ghost use Rattle.sn_nodecmd.specs.Faults.{reason_of};

use sn_reply::Reason;
use sn_tree::TreeFault;

/// The reason that a client is told if the tree has a fault.
pub fn reason_of(fault: TreeFault) -> Reason
    ensures { result ≡ reason_of fault }
{
    match fault {
        TreeFault::InUse => Reason::IdInUse,
        TreeFault::NoNode => Reason::NoSuchNode,
        TreeFault::IsRoot => Reason::Root,
        TreeFault::NotGroup => Reason::NotGroup,
        TreeFault::Inside => Reason::InsideItself,
        TreeFault::TooMany => Reason::TooManyNodes,
    }
}
