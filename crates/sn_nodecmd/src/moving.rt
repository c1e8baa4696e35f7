//! Nodes that are moved.
ghost use Rattle.std.specs.Prelude.{◌≡◌, ◌<◌, ◌+◌, ◌*◌, ◌^◌, ◌∷◌, [], length, map, false, Ok, OnOk, OnErr, IfOk, List, ℕ};
ghost use Rattle.std.specs.List.{list_any};
ghost use Rattle.std.specs.Option.{option_map};
ghost use Rattle.sn_tree.specs.Faults.{fault_of, move_fault};
ghost use Rattle.sn_tree.specs.Steps.{HasRoom, moved};
ghost use Rattle.sn_reply.specs.Replies.{ReplyShape};
ghost use Rattle.sn_world.specs.Notices.{told};
ghost use Rattle.sn_world.specs.declared.notices.NodeEvent.TheVariants.{Moved};
ghost use Rattle.sn_osc.specs.Shape.{argument_of};
ghost use Rattle.sn_world.specs.World.{turn_of};
ghost use Rattle.sn_world.specs.Pictures.{Pictures};
ghost use Rattle.sn_world.specs.Rows.{row, steps, pairs, some_of};
ghost use Rattle.sn_world.specs.Moving.{move_refusal, node_move, move_from, judge_move, act_move};
ghost use Rattle.sn_world.specs.Answers.{Continues, Follows, UnlessFollowed};
ghost use Rattle.sn_nodecmd.specs.Alone.{pair};
ghost use Rattle.sn_nodecmd.specs.Folding.{IsAtRest};
ghost use Rattle.sn_nodecmd.specs.Relocating.{refused_by};

use crate::faults::reason_of;
use crate::folding::{Repetition, each, run};
use crate::telling::{is_heard, tell};
use sn_osc::Arg;
use sn_ports::NoMemory;
use sn_reply::{Reason, Replies};
use sn_tree::{AddAction, Spot, Tree, TreeFault};
use sn_world::{Held, NodeEvent, NodeId, NodeMove, Stage};
use std::alloc::Global;

fn node_move(action: AddAction, first: i32, second: i32) -> NodeMove
    ensures { result ≡ node_move action first second }
{
    match action {
        AddAction::Before | AddAction::After => NodeMove {
            action,
            id: first,
            target: second,
        },
        AddAction::Head | AddAction::Tail => NodeMove {
            action,
            id: second,
            target: first,
        },
    }
}

fn move_from(action: AddAction, first: &Arg, second: &Arg) -> Option<NodeMove>
    ensures { result ≡ move_from action (argument_of first.now) (argument_of second.now) }
{
    match (first, second) {
        (Arg::Int(first), Arg::Int(second)) => Some(node_move(action, *first, *second)),
        _ => None,
    }
}

/// Moves with an action, each of two arguments: (id target).. for `/n_before` and `/n_after`, (group id).. for
/// `/g_head` and `/g_tail`.
fn moves(
    alloc: Global,
    action: AddAction,
    arguments: &[Arg],
) -> Result<Option<Vec<NodeMove>>, NoMemory>
    ensures { IfOk result (λ found. option_map (λ v. v.items) found ≡ pairs (move_from action) (map argument_of arguments.now)) }
{
    let mut found = Vec::new(alloc);
    let mut rest = arguments;
    while let [first, second, after @ ..] = rest {
        let Some(one) = move_from(action, first, second) else {
            return Ok(None);
        };
        found.push(one)?;
        rest = after;
    }
    if rest.is_empty() {
        Ok(Some(found))
    } else {
        Ok(None)
    }
}

/// Where the node goes.
fn spot_of(to: &NodeMove) -> Spot
    ensures { result ≡ record { action = to.now.action; target = to.now.target } }
{
    Spot {
        action: to.action,
        target: to.target,
    }
}

/// Moves a node in the tree, or gives the tree's fault.
fn shift(tree: &mut Tree<Held>, to: &NodeMove) -> Result<(), TreeFault>
    requires room { HasRoom tree.old.journal }
    ensures fault { fault_of result ≡ move_fault to.now.id to.now.action to.now.target tree.old.attached }
    ensures ok { OnOk result (tree.new ≡ moved to.now.id to.now.action to.now.target tree.old) }
    ensures refused { OnErr result (tree.new ≡ tree.old) }
{
    tree.move_to(to.id, spot_of(to))
}

/// Moves a node in the tree, if nothing is against it.
fn relocate(tree: &mut Tree<Held>, to: &NodeMove) -> Result<(), Reason>
    requires room { HasRoom tree.old.journal }
    ensures reason { refused_by result ≡ move_refusal to.now tree.old.attached }
    ensures ok { OnOk result (tree.new ≡ moved to.now.id to.now.action to.now.target tree.old) }
    ensures refused { OnErr result (tree.new ≡ tree.old) }
{
    match shift(tree, to) {
        Ok(()) => Ok(()),
        Err(fault) => Err(reason_of(fault)),
    }
}

/// Tells clients where a node stands after its move.
fn tell_move(
    alloc: Global,
    stage: &Stage,
    to: &NodeMove,
    replies: &mut Replies,
) -> Result<(), NoMemory>
    ensures told { OnOk result ((words : List ℕ) → turn_of stage.now words replies.new ≡ told Moved to.now.id (turn_of stage.now words replies.old)) }
    ensures continues { Continues replies.old replies.new }
{
    let node = NodeId { id: to.id };
    tell(alloc, stage, NodeEvent::Moved, &node, replies)
}

impl Repetition for NodeMove {
    ghost use Rattle.sn_world.specs.Moving.{judge_move, act_move};

    ghost judge = { judge_move };

    ghost act = { act_move };

    fn step(
        &self,
        alloc: Global,
        stage: &mut Stage,
        replies: &mut Replies,
    ) -> Result<Option<Reason>, NoMemory> {
        match relocate(&mut stage.tree, self) {
            Ok(()) => {}
            Err(reason) => return Ok(Some(reason)),
        }
        tell_move(alloc, stage, self, replies)?;
        Ok(None)
    }
}

/// The move of a message that asks for one.
fn alone(action: AddAction, arguments: &[Arg]) -> Option<NodeMove>
    ensures { result ≡ pair (move_from action) (map argument_of arguments.now) }
{
    match arguments {
        [first, second] => move_from(action, first, second),
        _ => None,
    }
}

/// Moves a node, if nothing is against it, and tells no client. It takes no memory, and there is nothing to undo.
fn move_unheard(stage: &mut Stage, to: &NodeMove) -> Option<Reason>
    requires rest { IsAtRest stage.old }
    requires unheard { list_any (λ on. on) stage.old.notify ≡ false }
    ensures row { (words : List ℕ) (replies : List ReplyShape) → Follows (Ok result) (steps judge_move act_move (to.now ∷ []) (turn_of stage.old words replies)) (turn_of stage.new words replies) }
    ensures unchanged { UnlessFollowed (Ok result) (stage.new ≡ stage.old) }
    ensures pictures { (words : List ℕ) → Pictures stage.old words → Pictures stage.new words }
    ensures clients { stage.new.notify ≡ stage.old.notify }
    ensures region { stage.new.pool.region ≡ stage.old.pool.region }
{
    match relocate(&mut stage.tree, to) {
        Ok(()) => None,
        Err(reason) => Some(reason),
    }
}

/// One move, whole or not at all. It takes no memory if no client is told.
fn run_alone(
    alloc: Global,
    stage: &mut Stage,
    one: NodeMove,
    replies: &mut Replies,
) -> Result<Option<Reason>, NoMemory>
    requires rest { IsAtRest stage.old }
    ensures row { (words : List ℕ) → Follows result (steps judge_move act_move (one ∷ []) (turn_of stage.old words replies.old)) (turn_of stage.new words replies.new) }
    ensures unchanged { UnlessFollowed result (stage.new ≡ stage.old) }
    ensures untold { UnlessFollowed result (replies.new ≡ replies.old) }
    ensures pictures { (words : List ℕ) → Pictures stage.old words → Pictures stage.new words }
    ensures clients { stage.new.notify ≡ stage.old.notify }
    ensures region { stage.new.pool.region ≡ stage.old.pool.region }
{
    if !is_heard(&stage.notify) {
        return Ok(move_unheard(stage, &one));
    }
    each(alloc, stage, &[one], replies)
}

/// `/n_before` and `/n_after` (id target).., `/g_head` and `/g_tail` (group id).. One move takes no memory for a list,
/// and none at all if no client is told.
pub fn run_moves(
    alloc: Global,
    stage: &mut Stage,
    action: AddAction,
    arguments: &[Arg],
    replies: &mut Replies,
) -> Result<Option<Reason>, NoMemory>
    requires rest { IsAtRest stage.old }
    requires few { 16 * length arguments.now + 2 ^ 20 < 2 ^ 31 }
    ensures row { (words : List ℕ) → Follows result (row judge_move act_move (some_of (pairs (move_from action) (map argument_of arguments.now))) (turn_of stage.old words replies.old)) (turn_of stage.new words replies.new) }
    ensures unchanged { UnlessFollowed result (stage.new ≡ stage.old) }
    ensures untold { UnlessFollowed result (replies.new ≡ replies.old) }
    ensures pictures { (words : List ℕ) → Pictures stage.old words → Pictures stage.new words }
    ensures clients { stage.new.notify ≡ stage.old.notify }
    ensures region { stage.new.pool.region ≡ stage.old.pool.region }
{
    if let Some(one) = alone(action, arguments) {
        return run_alone(alloc, stage, one, replies);
    }
    let found = moves(alloc, action, arguments)?;
    run(alloc, stage, found, replies)
}
