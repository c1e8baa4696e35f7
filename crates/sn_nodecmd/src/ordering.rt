//! Nodes that are put in a row.
ghost use Rattle.std.specs.Prelude.{◌≡◌, ◌≤◌, ◌+◌, ◌*◌, ◌^◌, ◌<◌, ◌&&◌, [], ◌∷◌, map, length, IfOk, IfSome, List, ℕ};
ghost use Rattle.std.specs.Option.{option_map};
ghost use Rattle.std.specs.List.{filter};
ghost use Rattle.sn_osc.specs.Shape.{argument_of};
ghost use Rattle.sn_reply.specs.declared.reason.Reason.TheVariants as Reasons;
ghost use Rattle.sn_tree.specs.declared.node.AddAction.TheVariants.{After};
ghost use Rattle.sn_tree.specs.Trees.{holds, label_of, view_of};
ghost use Rattle.sn_tree.specs.Faults.{is_beside_root, is_inside, is_synth};
ghost use Rattle.sn_world.specs.World.{turn_of};
ghost use Rattle.sn_world.specs.NewNodes.{action_for};
ghost use Rattle.sn_world.specs.NodeOrder.{node_order, is_place, place_refusal, listed, in_a_row, moves_of, order_row};
ghost use Rattle.sn_world.specs.Rows.{first_of};
ghost use Rattle.sn_world.specs.Answers.{Follows, UnlessFollowed};
ghost use Rattle.sn_world.specs.Pictures.{Pictures};
ghost use Rattle.sn_nodecmd.specs.Folding.{IsAtRest};
ghost use Rattle.sn_nodecmd.specs.Ordering.{order_of};

use crate::folding::each;
use crate::freeing::is_attached;
use crate::judging::add_action;
use sn_osc::Arg;
use sn_ports::NoMemory;
use sn_reply::{Reason, Replies};
use sn_tree::{AddAction, NodeKind, NodeView, Spot, Tree};
use sn_world::{Held, NodeId, NodeMove, NodePlace, Pair, Stage, singles};
use std::alloc::Global;

/// What `/n_order` asks for: a place for the first node, and the nodes.
#[derive(Drop)]
struct AskedOrder {
    place: NodePlace,
    nodes: Vec<NodeId>,
}

/// What arguments ask for, if they are those of `/n_order`.
fn asked_by(alloc: Global, arguments: &[Arg]) -> Result<Option<AskedOrder>, NoMemory>
    ensures order { IfOk result (λ found. option_map order_of found ≡ node_order (map argument_of arguments.now)) }
    ensures few { IfOk result (λ found. IfSome found (λ a. length a.nodes.items ≤ length arguments.now)) }
{
    let [action, target, ids @ ..] = arguments else {
        return Ok(None);
    };
    let Some(place) = NodePlace::from_two(action, target) else {
        return Ok(None);
    };
    let Some(nodes) = singles::<NodeId>(alloc, ids)? else {
        return Ok(None);
    };
    Ok(Some(AskedOrder { place, nodes }))
}

/// Whether there is an add action with the number that replaces no node.
fn is_place(place: &NodePlace) -> bool
    ensures { result ≡ is_place place.now.action }
{
    add_action(place.action).is_some() && place.action != 4
}

/// Where the first node goes: at the head if no add action has the number.
fn spot_of(place: &NodePlace) -> Spot
    ensures { result ≡ record { action = action_for place.now.action; target = place.now.target } }
{
    Spot {
        action: add_action(place.action).unwrap_or(AddAction::Head),
        target: place.target,
    }
}

/// The target as it stands.
fn target_of(tree: &Tree<Held>, place: &NodePlace) -> Option<NodeView>
    ensures { result ≡ view_of place.now.target tree.now.attached }
{
    tree.node(place.target)
}

/// What the target is.
fn target_kind(tree: &Tree<Held>, place: &NodePlace) -> Option<NodeKind>
    ensures { result ≡ option_map (λ l. l.kind) (label_of place.now.target tree.now.attached) }
{
    match target_of(tree, place) {
        Some(view) => Some(view.kind),
        None => None,
    }
}

/// The first reason against a spot at a target of this kind.
fn refusal_at(kind: NodeKind, spot: Spot) -> Option<Reason>
    ensures { result ≡ first_of ((is_inside spot.action && is_synth kind, Reasons.NotGroup) ∷ (is_beside_root spot.action spot.target, Reasons.Root) ∷ []) }
{
    match (spot.action, kind) {
        (AddAction::Head | AddAction::Tail, NodeKind::Synth) => Some(Reason::NotGroup),
        (AddAction::Before | AddAction::After, _) if spot.target == 0 => Some(Reason::Root),
        _ => None,
    }
}

/// The first reason against a place, whichever nodes go there.
fn refusal(tree: &Tree<Held>, place: &NodePlace) -> Option<Reason>
    ensures { result ≡ place_refusal place.now tree.now.attached }
{
    if !is_place(place) {
        return Some(Reason::AddAction);
    }
    match target_kind(tree, place) {
        None => Some(Reason::NoSuchNode),
        Some(kind) => refusal_at(kind, spot_of(place)),
    }
}

/// The nodes that are there.
fn attached(tree: &Tree<Held>, nodes: Vec<NodeId>) -> Vec<NodeId>
    ensures there { result.items ≡ filter (λ n. holds n.id tree.now.attached) nodes.items }
    ensures few { length result.items ≤ length nodes.items }
{
    let mut nodes = nodes;
    nodes.retain(|node| is_attached(tree, node));
    nodes
}

/// The nodes that are there, each once if it comes several times in a row.
fn listed(tree: &Tree<Held>, nodes: Vec<NodeId>) -> Vec<NodeId>
    ensures listed { result.items ≡ listed nodes.items tree.now.attached }
    ensures few { length result.items ≤ length nodes.items }
{
    let mut there = attached(tree, nodes);
    there.dedup();
    there
}

/// A node goes to a spot.
fn move_to(spot: Spot, node: &NodeId) -> NodeMove
    ensures { result ≡ record { action = spot.action; id = node.now.id; target = spot.target } }
{
    NodeMove {
        action: spot.action,
        id: node.id,
        target: spot.target,
    }
}

/// The spot just after a node.
fn after(node: &NodeId) -> Spot
    ensures { result ≡ record { action = After; target = node.now.id } }
{
    Spot {
        action: AddAction::After,
        target: node.id,
    }
}

/// Moves of nodes: the first goes to a spot, and each further one just after the one before it.
fn in_a_row(alloc: Global, spot: Spot, nodes: &[NodeId]) -> Result<Vec<NodeMove>, NoMemory>
    ensures row { IfOk result (λ moves. moves.items ≡ in_a_row spot.action spot.target nodes.now) }
    ensures few { IfOk result (λ moves. length moves.items ≤ length nodes.now) }
{
    let mut moves = Vec::new(alloc);
    let mut spot = spot;
    for node in nodes {
        moves.push(move_to(spot, node))?;
        spot = after(node);
    }
    Ok(moves)
}

/// The moves that put nodes in a row.
fn moves_of(alloc: Global, tree: &Tree<Held>, asked: AskedOrder) -> Result<Vec<NodeMove>, NoMemory>
    ensures moves { IfOk result (λ moves. moves.items ≡ moves_of (order_of asked) tree.now.attached) }
    ensures few { IfOk result (λ moves. length moves.items ≤ length asked.nodes.items) }
{
    let spot = spot_of(&asked.place);
    let nodes = listed(tree, asked.nodes);
    in_a_row(alloc, spot, &nodes)
}

/// `/n_order` action target id.., or no id
pub fn run_order(
    alloc: Global,
    stage: &mut Stage,
    arguments: &[Arg],
    replies: &mut Replies,
) -> Result<Option<Reason>, NoMemory>
    requires rest { IsAtRest stage.old }
    requires few { 16 * length arguments.now + 2 ^ 20 < 2 ^ 31 }
    ensures row { (from : ℕ) (words : List ℕ) → Follows result (order_row from (map argument_of arguments.now) (turn_of stage.old words replies.old)) (turn_of stage.new words replies.new) }
    ensures unchanged { UnlessFollowed result (stage.new ≡ stage.old) }
    ensures untold { UnlessFollowed result (replies.new ≡ replies.old) }
    ensures pictures { (words : List ℕ) → Pictures stage.old words → Pictures stage.new words }
    ensures clients { length stage.new.notify ≡ length stage.old.notify }
    ensures region { stage.new.pool.region ≡ stage.old.pool.region }
{
    let Some(asked) = asked_by(alloc, arguments)? else {
        return Ok(Some(Reason::Arguments));
    };
    if let Some(reason) = refusal(&stage.tree, &asked.place) {
        return Ok(Some(reason));
    }
    let moves = moves_of(alloc, &stage.tree, asked)?;
    each(alloc, stage, &moves, replies)
}
