//! How clients are told of events of nodes.
ghost use Rattle.std.specs.Prelude.{◌≡◌, ◌++◌, IfOk, OnOk, List, ℕ};
ghost use Rattle.std.specs.List.{list_any};
ghost use Rattle.sn_tree.specs.Trees.{view_of};
ghost use Rattle.sn_tree.specs.Views.{views_below};
ghost use Rattle.sn_world.specs.World.{World, turn_of};
ghost use Rattle.sn_world.specs.Notices.{told, event_message, notices};
ghost use Rattle.sn_world.specs.Freeing.{told_ends};
ghost use Rattle.sn_world.specs.Answers.{Continues};

use sn_ports::NoMemory;
use sn_reply::Replies;
use sn_tree::{NodeView, Tree};
use sn_world::{Flags, Held, NodeEvent, NodeId, Stage, notify};
use std::alloc::Global;

/// Whether any client is told of events of nodes.
pub fn is_heard(flags: &Flags) -> bool
    ensures { result ≡ list_any (λ on. on) flags.now }
{
    flags.as_slice().iter().any(|on| *on)
}

/// A node as it stands.
pub fn view_of(tree: &Tree<Held>, node: &NodeId) -> Option<NodeView>
    ensures { result ≡ view_of node.now.id tree.now.attached }
{
    tree.node(node.id)
}

/// A node and all below it as they stand.
fn views_of(tree: &Tree<Held>, node: &NodeId) -> Result<Vec<(i32, NodeView)>, NoMemory>
    ensures { IfOk result (λ views. views.items ≡ views_below node.now.id tree.now.attached) }
{
    tree.views(node.id)
}

/// Tells of an event of a node with this view.
pub fn tell_of(
    alloc: Global,
    flags: &Flags,
    event: NodeEvent,
    node: &NodeId,
    view: &NodeView,
    replies: &mut Replies,
) -> Result<(), NoMemory>
    ensures told { OnOk result (replies.new ≡ replies.old ++ notices 0 flags.now (event_message event node.now.id view.now)) }
    ensures continues { Continues replies.old replies.new }
{
    notify(alloc, flags, event, node.id, view, replies)
}

/// Tells of an event of an attached node, at the place where it stands.
pub fn tell(
    alloc: Global,
    stage: &Stage,
    event: NodeEvent,
    node: &NodeId,
    replies: &mut Replies,
) -> Result<(), NoMemory>
    ensures told { OnOk result ((words : List ℕ) → turn_of stage.now words replies.new ≡ told event node.now.id (turn_of stage.now words replies.old)) }
    ensures continues { Continues replies.old replies.new }
{
    if !is_heard(&stage.notify) {
        return Ok(());
    }
    let Some(view) = view_of(&stage.tree, node) else {
        return Ok(());
    };
    tell_of(alloc, &stage.notify, event, node, &view, replies)
}

/// Tells of nodes that end, at the places where they stand.
fn tell_ends(
    alloc: Global,
    flags: &Flags,
    ended: &[(i32, NodeView)],
    replies: &mut Replies,
) -> Result<(), NoMemory>
    ensures told { OnOk result ((w : World) → w.notify ≡ flags.now → told_ends ended.now (record { world = w; replies = replies.old }) ≡ record { world = w; replies = replies.new }) }
    ensures continues { Continues replies.old replies.new }
{
    for (id, view) in ended {
        let node = NodeId { id: *id };
        tell_of(alloc, flags, NodeEvent::Ended, &node, view, replies)?;
    }
    Ok(())
}

/// Tells of a node and all below it, as of nodes that end, at the places where they stand.
pub fn tell_all_end(
    alloc: Global,
    tree: &Tree<Held>,
    flags: &Flags,
    node: &NodeId,
    replies: &mut Replies,
) -> Result<(), NoMemory>
    ensures told { OnOk result ((w : World) → w.notify ≡ flags.now → told_ends (views_below node.now.id tree.now.attached) (record { world = w; replies = replies.old }) ≡ record { world = w; replies = replies.new }) }
    ensures continues { Continues replies.old replies.new }
{
    if !is_heard(flags) {
        return Ok(());
    }
    let views = views_of(tree, node)?;
    tell_ends(alloc, flags, &views, replies)
}
