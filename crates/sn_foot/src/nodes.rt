//! The nodes that a footprint is made of.
ghost use Rattle.std.specs.Prelude.{◌≡◌, IfOk, map};
ghost use Rattle.sn_tree.specs.Trees.{holds};
ghost use Rattle.sn_foot.specs.Footprints.{found_at, is_reached};

use sn_ports::NoMemory;
use sn_tree::Tree;
use sn_world::{Held, NodeId};
use std::alloc::Global;

/// Whether a node is in the tree.
#[tactic(auto, using(sn_world::proofs::Turning::is_seen))]
pub fn is_attached(tree: &Tree<Held>, node: &NodeId) -> bool
    ensures { result ≡ holds node.now.id tree.now.attached }
{
    tree.node(node.id).is_some()
}

/// Whether the walk reaches a node.
fn is_reached(tree: &Tree<Held>, node: &NodeId) -> bool
    ensures { result ≡ is_reached node.now.id tree.now.attached }
{
    for visit in tree.walk() {
        if visit.id == node.id {
            return true;
        }
    }
    false
}

/// What the walk finds at a node and below it, in its order; nothing if it doesn't reach the node.
#[tactic(auto, using(crate::proofs::Finding::found_nothing))]
pub fn found_at<'a>(
    alloc: Global,
    tree: &'a Tree<Held>,
    node: &NodeId,
) -> Result<Vec<&'a Held>, NoMemory>
    ensures { IfOk result (λ found. map (λ h. h.now) found.items ≡ found_at node.now.id tree.now.attached) }
{
    let mut found = Vec::new(alloc);
    if !is_reached(tree, node) {
        return Ok(found);
    }
    for visit in tree.walk_at(node.id) {
        found.push(visit.payload)?;
    }
    Ok(found)
}
