//! What clients are told of what happens to nodes.
ghost use Rattle.std.specs.Prelude.{◌≡◌, ◌++◌, ◌∷◌, [], IfOk, OnOk};
ghost use Rattle.sn_osc.specs.Shape.{message_of};
ghost use Rattle.sn_reply.specs.Answering.{IsAddress};
ghost use Rattle.sn_reply.specs.Sending.{IsSendable};
ghost use Rattle.sn_world.specs.Answers.{Continues};
ghost use Rattle.sn_world.specs.Notices.{event_address, kind_arguments, event_message, notices};

use crate::flags::Flags;
use sn_osc::Message;
use sn_ports::NoMemory;
use sn_reply::{Answer, Replies, To};
use sn_tree::{NodeKind, NodeView};
use std::alloc::Global;

/// What happened to a node.
#[derive(Clone, Copy, Debug, PartialEq, Eq)]
pub enum NodeEvent {
    /// `/n_go`: the node was made.
    Went,
    /// `/n_end`: the node was freed.
    Ended,
    /// `/n_on`: the node runs again.
    TurnedOn,
    /// `/n_off`: the node was paused.
    TurnedOff,
    /// `/n_move`: the node was moved.
    Moved,
    /// `/n_info`: the answer to a query.
    Asked,
}

fn address(event: NodeEvent) -> &'static [u8]
    ensures value { result.now ≡ event_address event }
    ensures address { IsAddress result.now }
{
    match event {
        NodeEvent::Went => b"/n_go",
        NodeEvent::Ended => b"/n_end",
        NodeEvent::TurnedOn => b"/n_on",
        NodeEvent::TurnedOff => b"/n_off",
        NodeEvent::Moved => b"/n_move",
        NodeEvent::Asked => b"/n_info",
    }
}

/// What a node is: 0 for a synth; 1 for a group, and then its first and its last child.
fn push_kind(answer: &mut Answer, view: &NodeView) -> Result<(), NoMemory>
    ensures { OnOk result (answer.new ≡ answer.old ++ kind_arguments view.now.kind view.now.head view.now.tail) }
{
    match view.kind {
        NodeKind::Synth => answer.push_int(0),
        NodeKind::Group | NodeKind::Parallel => {
            answer.push_int(1)?;
            answer.push_int(view.head)?;
            answer.push_int(view.tail)
        }
    }
}

/// The message of an event of a node: its id, its parent, the node before it and the node after it, with -1 for none,
/// and what it is.
pub fn event_message(
    alloc: Global,
    event: NodeEvent,
    id: i32,
    view: &NodeView,
) -> Result<Message, NoMemory>
    ensures message { IfOk result (λ m. message_of m ≡ event_message event id view.now) }
    ensures sendable { IfOk result (λ m. IsSendable (message_of m)) }
{
    let mut answer = Answer::new(alloc);
    answer.push_int(id)?;
    answer.push_int(view.parent)?;
    answer.push_int(view.previous)?;
    answer.push_int(view.next)?;
    push_kind(&mut answer, view)?;
    answer.into_message(address(event))
}

/// Tells a client of an event of a node, if its flag is on.
#[tactic(auto, using(crate::proofs::Continuing::continues_same, crate::proofs::Continuing::continues_more))]
fn notify_one(
    alloc: Global,
    on: bool,
    client: u32,
    event: NodeEvent,
    id: i32,
    view: &NodeView,
    replies: &mut Replies,
) -> Result<(), NoMemory>
    ensures told { OnOk result (replies.new ≡ replies.old ++ notices client (on ∷ []) (event_message event id view.now)) }
    ensures continues { Continues replies.old replies.new }
{
    if !on {
        return Ok(());
    }
    let message = event_message(alloc, event, id, view)?;
    replies.push(To::Client(client), message)?;
    Ok(())
}

/// Tells each client whose flag is on of an event of a node. After `NoMemory` some of them may have been told. No
/// earlier reply is lost.
pub fn notify(
    alloc: Global,
    flags: &Flags,
    event: NodeEvent,
    id: i32,
    view: &NodeView,
    replies: &mut Replies,
) -> Result<(), NoMemory>
    ensures told { OnOk result (replies.new ≡ replies.old ++ notices 0 flags.now (event_message event id view.now)) }
    ensures continues { Continues replies.old replies.new }
{
    let mut client = 0;
    for on in flags.as_slice() {
        notify_one(alloc, *on, client, event, id, view, replies)?;
        client += 1;
    }
    Ok(())
}
