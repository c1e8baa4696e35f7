//! What is due acts, and completions act after it.
ghost use Rattle.std.specs.Prelude.{◌≡◌, ◌+◌, Ok, map, length, IfOk, OnOk};
ghost use Rattle.std.specs.List.{AllByRecursion};
ghost use Rattle.sn_osc.specs.Shape.{message_of};
ghost use Rattle.sn_mem.specs.Words.{SameButWords};
ghost use Rattle.sn_mem.specs.Layout.{bus_words};
ghost use Rattle.sn_reply.specs.Sending.{IsAnswerable};
ghost use Rattle.sn_world.specs.World.{turn_of, world_of};
ghost use Rattle.sn_world.specs.Ending.{is_completing};
ghost use Rattle.sn_world.specs.Pictures.{KeepsOutside, Pictures, WritesWorld};
ghost use Rattle.sn_world.specs.Commands.{run_node, run_bus, either as first_there, command, next_after};
ghost use Rattle.sn_world.specs.Answers.{Handles, UnlessDone, TellsNext, NextHas, next_told};
ghost use Rattle.sn_engine.specs.Boundary.{completed, act_message, act_messages, act_entries, asked_by, both, messages_ask, entries_ask, due_at, later_than, left_at};
ghost use Rattle.sn_engine.specs.Answerable.{AllAnswerable};
ghost use Rattle.sn_engine.specs.Holding.{LayoutStays};

use sn_buscmd::run_bus_command;
use sn_layout::Watch;
use sn_mem::{Below, Port};
use sn_nodecmd::run_node_command;
use sn_osc::Message;
use sn_ports::NoMemory;
use sn_queue::Queue;
use sn_reply::{Reason, Replies, To, fail};
use sn_world::{Handled, MOST_COMPLETIONS, Stage};
use std::alloc::Global;

/// What messages ask of the server besides what they do to its world.
#[derive(Clone, Copy, Debug, PartialEq, Eq)]
pub struct Asked {
    /// That it drops the entries that are due later.
    pub clear: bool,
    /// That it ends.
    pub quit: bool,
}

const NOTHING: Asked = Asked {
    clear: false,
    quit: false,
};

/// What either of two asks.
fn both(a: Asked, b: Asked) -> Asked
    ensures { result ≡ both a b }
{
    Asked {
        clear: a.clear || b.clear,
        quit: a.quit || b.quit,
    }
}

/// What is asked by a message that was handled so.
fn asked_by(handled: &Handled) -> Asked
    ensures { result ≡ asked_by (next_told handled.now) }
{
    match handled {
        Handled::Quit => Asked {
            clear: false,
            quit: true,
        },
        Handled::ClearSched => Asked {
            clear: true,
            quit: false,
        },
        _ => NOTHING,
    }
}

/// Runs a message from a client, if its address is that of a command.
fn run_known<P: Port>(
    alloc: Global,
    stage: &mut Stage,
    port: &mut P,
    message: &Message,
    from: u32,
    replies: &mut Replies,
) -> Result<Handled, NoMemory>
    requires message { IsAnswerable (message_of message.now) }
    requires pictures { Pictures stage.old (P.words port.old) }
    requires foot { WritesWorld (P.foot port.old) stage.old.pool.region }
    ensures row { Handles result (first_there (run_node from (message_of message.now) (turn_of stage.old (P.words port.old) replies.old)) (run_bus from (message_of message.now) (turn_of stage.old (P.words port.old) replies.old))) (turn_of stage.new (P.words port.new) replies.new) }
    ensures next { TellsNext result (next_after from (message_of message.now) (turn_of stage.old (P.words port.old) replies.old)) }
    ensures answerable { NextHas IsAnswerable result }
    ensures unchanged { UnlessDone result (turn_of stage.new (P.words port.new) replies.new ≡ turn_of stage.old (P.words port.old) replies.old) }
    ensures pictures { Pictures stage.new (P.words port.new) }
    ensures region { stage.new.pool.region ≡ stage.old.pool.region }
    ensures len { length (P.words port.new) ≡ length (P.words port.old) }
    ensures port { SameButWords P.foot P.rest port.old port.new }
{
    match run_node_command(alloc, stage, port, message, from, replies)? {
        Handled::NotMine => run_bus_command(alloc, stage, port, message, from, replies),
        Handled::Failed(reason) => Ok(Handled::Failed(reason)),
        Handled::Done | Handled::Quit | Handled::ClearSched => Ok(Handled::Done),
        Handled::Completion(_) => Ok(Handled::Done),
    }
}

/// Runs a message from a client, whichever command it is, and answers `/fail` if it is refused. Returns what was done
/// with it.
fn run_command<P: Port>(
    alloc: Global,
    stage: &mut Stage,
    port: &mut P,
    message: &Message,
    from: u32,
    replies: &mut Replies,
) -> Result<Handled, NoMemory>
    requires message { IsAnswerable (message_of message.now) }
    requires pictures { Pictures stage.old (P.words port.old) }
    requires foot { WritesWorld (P.foot port.old) stage.old.pool.region }
    ensures command { OnOk result (turn_of stage.new (P.words port.new) replies.new ≡ command from (message_of message.now) (turn_of stage.old (P.words port.old) replies.old)) }
    ensures next { TellsNext result (next_after from (message_of message.now) (turn_of stage.old (P.words port.old) replies.old)) }
    ensures answerable { NextHas IsAnswerable result }
    ensures pictures { Pictures stage.new (P.words port.new) }
    ensures region { stage.new.pool.region ≡ stage.old.pool.region }
    ensures len { length (P.words port.new) ≡ length (P.words port.old) }
    ensures port { SameButWords P.foot P.rest port.old port.new }
{
    let reason = match run_known(alloc, stage, port, message, from, replies)? {
        Handled::Done => return Ok(Handled::Done),
        Handled::Completion(completion) => return Ok(Handled::Completion(completion)),
        Handled::Quit => return Ok(Handled::Quit),
        Handled::ClearSched => return Ok(Handled::ClearSched),
        Handled::Failed(reason) => reason,
        Handled::NotMine => Reason::UnknownCommand,
    };
    let refusal = fail(alloc, &message.address, reason)?;
    replies.push(To::Client(from), refusal)?;
    Ok(Handled::Failed(reason))
}

/// Runs the completion message that a command carried, if it carried one. Returns what was done with it, or with the
/// command that carried none.
fn complete<P: Port>(
    alloc: Global,
    stage: &mut Stage,
    port: &mut P,
    handled: Handled,
    from: u32,
    replies: &mut Replies,
) -> Result<Handled, NoMemory>
    requires message { NextHas IsAnswerable (Ok handled) }
    requires pictures { Pictures stage.old (P.words port.old) }
    requires foot { WritesWorld (P.foot port.old) stage.old.pool.region }
    ensures acts { OnOk result (turn_of stage.new (P.words port.new) replies.new ≡ (completed from (next_told handled) (turn_of stage.old (P.words port.old) replies.old)).turn) }
    ensures next { TellsNext result (completed from (next_told handled) (turn_of stage.old (P.words port.old) replies.old)).next }
    ensures answerable { NextHas IsAnswerable result }
    ensures pictures { Pictures stage.new (P.words port.new) }
    ensures region { stage.new.pool.region ≡ stage.old.pool.region }
    ensures len { length (P.words port.new) ≡ length (P.words port.old) }
    ensures port { SameButWords P.foot P.rest port.old port.new }
{
    match handled {
        Handled::Completion(message) => run_command(alloc, stage, port, &message, from, replies),
        Handled::Quit => Ok(Handled::Quit),
        Handled::ClearSched => Ok(Handled::ClearSched),
        Handled::Done | Handled::Failed(_) | Handled::NotMine => Ok(Handled::Done),
    }
}

/// Whether a completion message is to act next.
fn carries(handled: &Handled) -> bool
    ensures { result ≡ is_completing (next_told handled.now) }
{
    match handled {
        Handled::Completion(_) => true,
        _ => false,
    }
}

/// Runs a message from a client, and right after it the completion messages that it carries, each inside the one
/// before. Returns what they ask besides.
fn act_message<P: Port>(
    alloc: Global,
    stage: &mut Stage,
    port: &mut P,
    message: &Message,
    from: u32,
    replies: &mut Replies,
) -> Result<Asked, NoMemory>
    requires message { IsAnswerable (message_of message.now) }
    requires pictures { Pictures stage.old (P.words port.old) }
    requires foot { WritesWorld (P.foot port.old) stage.old.pool.region }
    ensures acts { OnOk result (turn_of stage.new (P.words port.new) replies.new ≡ (act_message from (message_of message.now) (turn_of stage.old (P.words port.old) replies.old)).turn) }
    ensures asked { IfOk result (λ a. a ≡ asked_by (act_message from (message_of message.now) (turn_of stage.old (P.words port.old) replies.old)).next) }
    ensures pictures { Pictures stage.new (P.words port.new) }
    ensures region { stage.new.pool.region ≡ stage.old.pool.region }
    ensures len { length (P.words port.new) ≡ length (P.words port.old) }
    ensures port { SameButWords P.foot P.rest port.old port.new }
{
    let mut handled = run_command(alloc, stage, port, message, from, replies)?;
    for _ in 0..MOST_COMPLETIONS {
        if !carries(&handled) {
            return Ok(asked_by(&handled));
        }
        handled = complete(alloc, stage, port, handled, from, replies)?;
    }
    Ok(asked_by(&handled))
}

/// Runs a message from a client with its completion messages, under a watch on the layout. Returns what they ask
/// besides.
fn act_one<P: Port>(
    alloc: Global,
    stage: &mut Stage,
    port: &mut P,
    message: &Message,
    from: u32,
    watch: &mut Watch,
    replies: &mut Replies,
) -> Result<Asked, NoMemory>
    requires message { IsAnswerable (message_of message.now) }
    requires pictures { Pictures stage.old (P.words port.old) }
    requires foot { WritesWorld (P.foot port.old) stage.old.pool.region }
    ensures acts { OnOk result (turn_of stage.new (P.words port.new) replies.new ≡ (act_message from (message_of message.now) (turn_of stage.old (P.words port.old) replies.old)).turn) }
    ensures asked { IfOk result (λ a. a ≡ asked_by (act_message from (message_of message.now) (turn_of stage.old (P.words port.old) replies.old)).next) }
    ensures layout { OnOk result (LayoutStays watch.old.stays watch.new.stays (world_of stage.old (P.words port.old)) (world_of stage.new (P.words port.new))) }
    ensures pictures { Pictures stage.new (P.words port.new) }
    ensures region { stage.new.pool.region ≡ stage.old.pool.region }
    ensures len { length (P.words port.new) ≡ length (P.words port.old) }
    ensures port { SameButWords P.foot P.rest port.old port.new }
{
    watch.see(stage, message);
    act_message(alloc, stage, port, message, from, replies)
}

/// Runs messages of a client, one after another, under a watch on the layout. Returns what they ask besides.
fn act_messages<P: Port>(
    alloc: Global,
    stage: &mut Stage,
    port: &mut P,
    messages: &[Message],
    from: u32,
    watch: &mut Watch,
    replies: &mut Replies,
) -> Result<Asked, NoMemory>
    requires messages { AllByRecursion IsAnswerable (map message_of messages.now) }
    requires pictures { Pictures stage.old (P.words port.old) }
    requires foot { WritesWorld (P.foot port.old) stage.old.pool.region }
    ensures acts { OnOk result (turn_of stage.new (P.words port.new) replies.new ≡ act_messages from (map message_of messages.now) (turn_of stage.old (P.words port.old) replies.old)) }
    ensures asked { IfOk result (λ a. a ≡ messages_ask from (map message_of messages.now) (turn_of stage.old (P.words port.old) replies.old)) }
    ensures layout { OnOk result (LayoutStays watch.old.stays watch.new.stays (world_of stage.old (P.words port.old)) (world_of stage.new (P.words port.new))) }
    ensures pictures { Pictures stage.new (P.words port.new) }
    ensures region { stage.new.pool.region ≡ stage.old.pool.region }
    ensures len { length (P.words port.new) ≡ length (P.words port.old) }
    ensures port { SameButWords P.foot P.rest port.old port.new }
{
    let mut asked = NOTHING;
    for message in messages {
        let more = act_one(alloc, stage, port, message, from, watch, replies)?;
        asked = both(asked, more);
    }
    Ok(asked)
}

/// Takes the entries that are due at boundary `now`, in their order, and runs their messages, under a watch on the
/// layout. Returns what they ask besides.
fn act_taken<P: Port>(
    alloc: Global,
    stage: &mut Stage,
    port: &mut P,
    queue: &mut Queue,
    now: u64,
    watch: &mut Watch,
    replies: &mut Replies,
) -> Result<Asked, NoMemory>
    requires waiting { AllAnswerable queue.old.waiting }
    requires pictures { Pictures stage.old (P.words port.old) }
    requires foot { WritesWorld (P.foot port.old) stage.old.pool.region }
    ensures acts { OnOk result (turn_of stage.new (P.words port.new) replies.new ≡ act_entries (due_at now queue.old) (turn_of stage.old (P.words port.old) replies.old)) }
    ensures asked { IfOk result (λ a. a ≡ entries_ask (due_at now queue.old) (turn_of stage.old (P.words port.old) replies.old)) }
    ensures layout { OnOk result (LayoutStays watch.old.stays watch.new.stays (world_of stage.old (P.words port.old)) (world_of stage.new (P.words port.new))) }
    ensures left { OnOk result (queue.new ≡ record queue.old { waiting = later_than now queue.old }) }
    ensures kept { queue.new ≡ record queue.old { waiting = queue.new.waiting } }
    ensures waiting { AllAnswerable queue.new.waiting }
    ensures pictures { Pictures stage.new (P.words port.new) }
    ensures region { stage.new.pool.region ≡ stage.old.pool.region }
    ensures len { length (P.words port.new) ≡ length (P.words port.old) }
    ensures port { SameButWords P.foot P.rest port.old port.new }
{
    let mut asked = NOTHING;
    while let Some(entry) = queue.take_due(now) {
        let more = act_messages(
            alloc,
            stage,
            port,
            entry.messages.as_slice(),
            entry.from,
            watch,
            replies,
        )?;
        asked = both(asked, more);
    }
    Ok(asked)
}

/// Runs the messages of the entries that are due at boundary `now`, in their order. If one of them clears what waits,
/// the entries that are due later are dropped. A watch sees each message: if it tells that the layout stays, it does.
/// Tells whether one of them ends the server.
pub fn act_due<P: Port>(
    alloc: Global,
    stage: &mut Stage,
    port: &mut P,
    queue: &mut Queue,
    now: u64,
    watch: &mut Watch,
    replies: &mut Replies,
) -> Result<bool, NoMemory>
    requires waiting { AllAnswerable queue.old.waiting }
    requires pictures { Pictures stage.old (P.words port.old) }
    requires foot { WritesWorld (P.foot port.old) stage.old.pool.region }
    ensures acts { OnOk result (turn_of stage.new (P.words port.new) replies.new ≡ act_entries (due_at now queue.old) (turn_of stage.old (P.words port.old) replies.old)) }
    ensures quit { IfOk result (λ q. q ≡ (entries_ask (due_at now queue.old) (turn_of stage.old (P.words port.old) replies.old)).quit) }
    ensures layout { OnOk result (LayoutStays watch.old.stays watch.new.stays (world_of stage.old (P.words port.old)) (world_of stage.new (P.words port.new))) }
    ensures left { OnOk result (queue.new ≡ record queue.old { waiting = left_at now queue.old (turn_of stage.old (P.words port.old) replies.old) }) }
    ensures kept { queue.new ≡ record queue.old { waiting = queue.new.waiting } }
    ensures waiting { AllAnswerable queue.new.waiting }
    ensures pictures { Pictures stage.new (P.words port.new) }
    ensures region { stage.new.pool.region ≡ stage.old.pool.region }
    ensures len { length (P.words port.new) ≡ length (P.words port.old) }
    ensures port { SameButWords P.foot P.rest port.old port.new }
{
    let asked = act_taken(alloc, stage, port, queue, now, watch, replies)?;
    if !asked.clear {
        return Ok(asked.quit);
    }
    queue.clear_after(now);
    Ok(asked.quit)
}

/// The same over only the words below `end`, where those of the pool end: the others are unchanged.
pub fn act_below<P: Port>(
    alloc: Global,
    stage: &mut Stage,
    port: &mut P,
    end: u32,
    queue: &mut Queue,
    now: u64,
    watch: &mut Watch,
    replies: &mut Replies,
) -> Result<bool, NoMemory>
    requires waiting { AllAnswerable queue.old.waiting }
    requires pictures { Pictures stage.old (P.words port.old) }
    requires end { end ≡ bus_words + stage.old.pool.region.len }
    requires foot { WritesWorld (P.foot port.old) stage.old.pool.region }
    ensures acts { OnOk result (turn_of stage.new (P.words port.new) replies.new ≡ act_entries (due_at now queue.old) (turn_of stage.old (P.words port.old) replies.old)) }
    ensures quit { IfOk result (λ q. q ≡ (entries_ask (due_at now queue.old) (turn_of stage.old (P.words port.old) replies.old)).quit) }
    ensures layout { OnOk result (LayoutStays watch.old.stays watch.new.stays (world_of stage.old (P.words port.old)) (world_of stage.new (P.words port.new))) }
    ensures left { OnOk result (queue.new ≡ record queue.old { waiting = left_at now queue.old (turn_of stage.old (P.words port.old) replies.old) }) }
    ensures kept { queue.new ≡ record queue.old { waiting = queue.new.waiting } }
    ensures waiting { AllAnswerable queue.new.waiting }
    ensures pictures { Pictures stage.new (P.words port.new) }
    ensures region { stage.new.pool.region ≡ stage.old.pool.region }
    ensures len { length (P.words port.new) ≡ length (P.words port.old) }
    ensures port { SameButWords P.foot P.rest port.old port.new }
    ensures others { KeepsOutside stage.old.pool.region (P.words port.old) (P.words port.new) }
{
    let mut below = Below::new(port, end);
    act_due(alloc, stage, &mut below, queue, now, watch, replies)
}
