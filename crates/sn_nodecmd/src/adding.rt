//! A new node that is added to a tree, and the nodes that it replaces.
ghost use Rattle.std.specs.Prelude.{◌≡◌, OnOk, OnErr};
ghost use Rattle.sn_tree.specs.Steps.{HasRoom, inserted, replaced};
ghost use Rattle.sn_tree.specs.Views.{views_below};
ghost use Rattle.sn_world.specs.World.{World};
ghost use Rattle.sn_world.specs.NewNodes.{replaces, action_for, told_if};
ghost use Rattle.sn_world.specs.Answers.{Continues};
ghost use Rattle.sn_nodecmd.specs.Adding.{added};

use crate::judging::{replaces, spot_of};
use crate::telling::tell_all_end;
use sn_ports::NoMemory;
use sn_reply::Replies;
use sn_tree::{NodeKind, Spot, Tree};
use sn_world::{Flags, Held, NewNode, NodeId};
use std::alloc::Global;

/// Tells of the nodes that end because a new one takes the place of its target, at the places where they stand.
pub fn tell_replaced(
    alloc: Global,
    tree: &Tree<Held>,
    flags: &Flags,
    new: &NewNode,
    replies: &mut Replies,
) -> Result<(), NoMemory>
    ensures told { OnOk result ((w : World) → w.notify ≡ flags.now → told_if (replaces new.now.action) (views_below new.now.target tree.now.attached) (record { world = w; replies = replies.old }) ≡ record { world = w; replies = replies.new }) }
    ensures continues { Continues replies.old replies.new }
{
    if !replaces(new) {
        return Ok(());
    }
    let target = NodeId { id: new.target };
    tell_all_end(alloc, tree, flags, &target, replies)
}

/// Puts a node into the tree.
fn insert(
    tree: &mut Tree<Held>,
    node: &NodeId,
    kind: NodeKind,
    spot: Spot,
    held: Held,
) -> Result<(), NoMemory>
    ensures ok { OnOk result (tree.new ≡ inserted node.now.id kind spot.action spot.target held tree.old) }
    ensures err { OnErr result (tree.new ≡ tree.old) }
{
    match tree.insert(node.id, kind, spot, held) {
        Ok(()) => Ok(()),
        Err(_) => Err(NoMemory),
    }
}

/// Puts a node into the tree in the place of its target, which is detached with all below it.
fn replace(
    tree: &mut Tree<Held>,
    node: &NodeId,
    kind: NodeKind,
    new: &NewNode,
    held: Held,
) -> Result<(), NoMemory>
    requires room { HasRoom tree.old.journal }
    ensures ok { OnOk result (tree.new ≡ replaced node.now.id kind new.now.target held tree.old) }
    ensures err { OnErr result (tree.new ≡ tree.old) }
{
    match tree.replace(node.id, kind, new.target, held) {
        Ok(()) => Ok(()),
        Err(_) => Err(NoMemory),
    }
}

/// Adds a new node to the tree.
pub fn add(
    tree: &mut Tree<Held>,
    node: &NodeId,
    kind: NodeKind,
    new: &NewNode,
    held: Held,
) -> Result<(), NoMemory>
    requires room { HasRoom tree.old.journal }
    ensures ok { OnOk result (tree.new ≡ added (replaces new.now.action) node.now.id kind (action_for new.now.action) new.now.target held tree.old) }
    ensures err { OnErr result (tree.new ≡ tree.old) }
{
    match replaces(new) {
        true => replace(tree, node, kind, new, held),
        false => insert(tree, node, kind, spot_of(new), held),
    }
}
