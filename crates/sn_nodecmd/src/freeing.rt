//! Nodes that are freed.
ghost use Rattle.std.specs.Prelude.{◌≡◌, ◌<◌, ◌+◌, ◌*◌, ◌^◌, length, map, OnOk, None, List, ℕ};
ghost use Rattle.sn_osc.specs.Shape.{argument_of};
ghost use Rattle.sn_tree.specs.Trees.{holds};
ghost use Rattle.sn_tree.specs.Steps.{HasRoom, detached};
ghost use Rattle.sn_world.specs.World.{turn_of};
ghost use Rattle.sn_world.specs.Pictures.{Pictures};
ghost use Rattle.sn_world.specs.Rows.{row, singles, some_of};
ghost use Rattle.sn_world.specs.Freeing.{node_id, free_refusal, freed, judge_free, act_free};
ghost use Rattle.sn_world.specs.Answers.{Continues, Follows, UnlessFollowed};
ghost use Rattle.sn_nodecmd.specs.Alone.{single};
ghost use Rattle.sn_nodecmd.specs.Folding.{IsAtRest, Keeps};
ghost use Rattle.sn_nodecmd.specs.Sparing.{SparesRoom};

use crate::folding::{Repetition, each, run};
use crate::telling::{tell_all_end, view_of};
use sn_osc::Arg;
use sn_ports::NoMemory;
use sn_reply::{Reason, Replies};
use sn_tree::Tree;
use sn_world::{Held, NodeId, Single, Stage, singles};
use std::alloc::Global;

/// Whether a node is in the tree.
#[tactic(auto, using(sn_world::proofs::Turning::is_seen))]
pub fn is_attached(tree: &Tree<Held>, node: &NodeId) -> bool
    ensures { result ≡ holds node.now.id tree.now.attached }
{
    view_of(tree, node).is_some()
}

/// The first reason against freeing a node.
fn refusal(tree: &Tree<Held>, node: &NodeId) -> Option<Reason>
    ensures { result ≡ free_refusal node.now.id tree.now.attached }
{
    if !is_attached(tree, node) {
        return Some(Reason::NoSuchNode);
    }
    if node.id == 0 {
        return Some(Reason::Root);
    }
    None
}

#[tactic(auto, using(crate::proofs::Stepping::detach_allowed))]
fn detach(tree: &mut Tree<Held>, node: &NodeId)
    requires allowed { free_refusal node.now.id tree.old.attached ≡ None }
    requires room { HasRoom tree.old.journal }
    ensures { tree.new ≡ detached node.now.id tree.old }
{
    match tree.detach(node.id) {
        Ok(()) => {}
        Err(_) => unreachable!(),
    }
}

/// Frees a node and all below it, and tells of each of them.
pub fn free_node(
    alloc: Global,
    stage: &mut Stage,
    node: &NodeId,
    replies: &mut Replies,
) -> Result<(), NoMemory>
    requires allowed { free_refusal node.now.id stage.old.tree.attached ≡ None }
    requires room { HasRoom stage.old.tree.journal }
    ensures row { OnOk result ((words : List ℕ) → freed node.now.id (turn_of stage.old words replies.old) ≡ turn_of stage.new words replies.new) }
    ensures keeps { Keeps stage.old stage.new }
    ensures spares { SparesRoom stage.old.tree stage.new.tree }
    ensures continues { Continues replies.old replies.new }
{
    tell_all_end(alloc, &stage.tree, &stage.notify, node, replies)?;
    detach(&mut stage.tree, node);
    Ok(())
}

impl Repetition for NodeId {
    ghost use Rattle.sn_world.specs.Freeing.{judge_free, act_free};

    ghost judge = { judge_free };

    ghost act = { act_free };

    fn step(
        &self,
        alloc: Global,
        stage: &mut Stage,
        replies: &mut Replies,
    ) -> Result<Option<Reason>, NoMemory> {
        if let Some(reason) = refusal(&stage.tree, self) {
            return Ok(Some(reason));
        }
        free_node(alloc, stage, self, replies)?;
        Ok(None)
    }
}

/// The node of an `/n_free` of one node.
fn alone(arguments: &[Arg]) -> Option<NodeId>
    ensures { result ≡ single node_id (map argument_of arguments.now) }
{
    match arguments {
        [id] => NodeId::from_one(id),
        _ => None,
    }
}

/// `/n_free` id.. One node takes no memory for a list.
pub fn run_free(
    alloc: Global,
    stage: &mut Stage,
    arguments: &[Arg],
    replies: &mut Replies,
) -> Result<Option<Reason>, NoMemory>
    requires rest { IsAtRest stage.old }
    requires few { 16 * length arguments.now + 2 ^ 20 < 2 ^ 31 }
    ensures row { (words : List ℕ) → Follows result (row judge_free act_free (some_of (singles node_id (map argument_of arguments.now))) (turn_of stage.old words replies.old)) (turn_of stage.new words replies.new) }
    ensures unchanged { UnlessFollowed result (stage.new ≡ stage.old) }
    ensures untold { UnlessFollowed result (replies.new ≡ replies.old) }
    ensures pictures { (words : List ℕ) → Pictures stage.old words → Pictures stage.new words }
    ensures clients { stage.new.notify ≡ stage.old.notify }
    ensures region { stage.new.pool.region ≡ stage.old.pool.region }
{
    if let Some(one) = alone(arguments) {
        return each(alloc, stage, &[one], replies);
    }
    let found = singles::<NodeId>(alloc, arguments)?;
    run(alloc, stage, found, replies)
}
