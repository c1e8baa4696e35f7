//! The id of a new node, its place, and what is against it.
ghost use Rattle.std.specs.Prelude.{◌≡◌, is_some, Some};
ghost use Rattle.std.specs.Option.{option_map};
ghost use Rattle.sn_tree.specs.Faults.{insert_fault, is_synth, replace_fault};
ghost use Rattle.sn_world.specs.NewNodes.{id_for, one_below, next_after, add_action, action_for, replaces, node_refusal};
ghost use Rattle.sn_nodecmd.specs.Judging.{reason_against_new, fault_by};

use crate::faults::reason_of;
use sn_reply::Reason;
use sn_tree::{AddAction, NodeKind, Spot, Tree, TreeFault};
use sn_world::{Held, NewNode, NodeId};

/// Whether a kind is that of synths.
pub fn is_synth(kind: NodeKind) -> bool
    ensures { result ≡ is_synth kind }
{
    match kind {
        NodeKind::Synth => true,
        NodeKind::Group | NodeKind::Parallel => false,
    }
}

/// The id that a new node gets.
pub fn id_for(next_id: Option<i32>, new: &NewNode) -> Option<NodeId>
    ensures { option_map (λ node. node.id) result ≡ id_for next_id new.now.id }
{
    if new.id != -1 {
        return Some(NodeId { id: new.id });
    }
    match next_id {
        Some(id) => Some(NodeId { id }),
        None => None,
    }
}

fn one_below(next_id: Option<i32>) -> Option<i32>
    ensures { result ≡ one_below next_id }
{
    match next_id {
        Some(id) if id < 0 => id.checked_sub(1),
        _ => None,
    }
}

/// The id that is chosen next, after the node was made.
pub fn next_after(next_id: Option<i32>, new: &NewNode) -> Option<i32>
    ensures { result ≡ next_after next_id new.now.id }
{
    if new.id != -1 {
        return next_id;
    }
    one_below(next_id)
}

/// The add action with a number.
pub fn add_action(action: i32) -> Option<AddAction>
    ensures { result ≡ add_action action }
{
    match action {
        0 => Some(AddAction::Head),
        1 => Some(AddAction::Tail),
        2 | 4 => Some(AddAction::Before),
        3 => Some(AddAction::After),
        _ => None,
    }
}

/// Whether the node takes the place of its target.
pub fn replaces(new: &NewNode) -> bool
    ensures { result ≡ replaces new.now.action }
{
    new.action == 4
}

/// Where the node goes: at the head if no add action has the number.
pub fn spot_of(new: &NewNode) -> Spot
    ensures { result ≡ record { action = action_for new.now.action; target = new.now.target } }
{
    Spot {
        action: add_action(new.action).unwrap_or(AddAction::Head),
        target: new.target,
    }
}

/// Whether an add action has the number.
fn is_known(new: &NewNode) -> bool
    ensures { result ≡ is_some (add_action new.now.action) }
{
    add_action(new.action).is_some()
}

/// The reason against a new node, by the fault that the tree has, and by whether an add action has the number.
fn reason_against_new(known: bool, fault: Option<TreeFault>) -> Option<Reason>
    ensures { result ≡ reason_against_new known fault }
{
    match fault {
        Some(TreeFault::InUse) => Some(Reason::IdInUse),
        _ if !known => Some(Reason::AddAction),
        Some(fault) => Some(reason_of(fault)),
        None => None,
    }
}

/// Why the tree refuses a new node that is put beside others, apart from `NoMemory`.
fn fault_of_insert(tree: &Tree<Held>, node: &NodeId, spot: Spot) -> Option<TreeFault>
    ensures { result ≡ insert_fault node.now.id spot.action spot.target tree.now.attached }
{
    tree.refusal(node.id, spot)
}

/// Why the tree refuses a new node in the place of its target, apart from `NoMemory`.
fn fault_of_replace(tree: &Tree<Held>, node: &NodeId, new: &NewNode) -> Option<TreeFault>
    ensures { result ≡ replace_fault node.now.id new.now.target tree.now.attached }
{
    tree.refusal_to_replace(node.id, new.target)
}

/// Why the tree refuses a new node, apart from `NoMemory`.
fn fault_of(tree: &Tree<Held>, node: &NodeId, new: &NewNode) -> Option<TreeFault>
    ensures { result ≡ fault_by (replaces new.now.action) node.now.id (action_for new.now.action) new.now.target tree.now.attached }
{
    match replaces(new) {
        true => fault_of_replace(tree, node, new),
        false => fault_of_insert(tree, node, spot_of(new)),
    }
}

/// The first reason against a new node.
pub fn refusal(tree: &Tree<Held>, node: &NodeId, new: &NewNode) -> Option<Reason>
    ensures { result ≡ node_refusal (Some node.now.id) new.now.action new.now.target tree.now.attached }
{
    // A hint for the proof alone: a tree has at most 4,096 nodes, so there is room for one more in the place of
    // another.
    let _nodes = tree.len();
    reason_against_new(is_known(new), fault_of(tree, node, new))
}
