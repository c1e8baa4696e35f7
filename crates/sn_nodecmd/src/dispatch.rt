//! Messages that are run as commands.
ghost use Rattle.std.specs.Prelude.{◌≡◌, ◌+◌, ◌*◌, ◌^◌, ◌<◌, length, map};
ghost use Rattle.sn_osc.specs.Shape.{argument_of, message_of};
ghost use Rattle.sn_osc.specs.Bytes.{arguments_bytes};
ghost use Rattle.sn_mem.specs.Words.{SameButWords};
ghost use Rattle.sn_reply.specs.Sending.{IsAnswerable};
ghost use Rattle.sn_world.specs.World.{turn_of};
ghost use Rattle.sn_world.specs.Pictures.{Pictures, WritesWorld, KeepsOutside};
ghost use Rattle.sn_world.specs.Addresses.{node_command_of};
ghost use Rattle.sn_world.specs.Commands.{node_row, run_node};
ghost use Rattle.sn_world.specs.Answers.{Follows, UnlessFollowed, Handles, UnlessDone, AsksNothing};

use crate::describing::run_tree_query;
use crate::emptying::run_deep_free;
use crate::folding::run;
use crate::freeing::run_free;
use crate::getting::run_get;
use crate::groups::groups_of;
use crate::making::run_new;
use crate::mappings::run_map;
use crate::moving::run_moves;
use crate::notifying::run_notify;
use crate::ordering::run_order;
use crate::querying::run_query;
use crate::runs::RunForm;
use crate::setting::run_set;
use sn_mem::Port;
use sn_osc::{Arg, Message};
use sn_ports::NoMemory;
use sn_reply::{Reason, Replies};
use sn_world::{
    Command, FreeAll, Handled, NodeCommand, RunFlag, Stage, arguments_of, command_of, pairs,
    singles,
};
use std::alloc::Global;

/// The command on nodes with an address.
fn node_command_of(address: &[u8]) -> Option<NodeCommand>
    ensures { result ≡ node_command_of address.now }
{
    match command_of(address) {
        Some(Command::OnNodes(command)) => Some(command),
        Some(Command::OnServer(_)) => None,
        None => None,
    }
}

/// A command with its arguments, whole or not at all.
fn run_row<P: Port>(
    alloc: Global,
    stage: &mut Stage,
    port: &mut P,
    command: NodeCommand,
    arguments: &[Arg],
    from: u32,
    replies: &mut Replies,
) -> Result<Option<Reason>, NoMemory>
    requires few { 16 * length arguments.now + 2 ^ 20 < 2 ^ 31 }
    requires short { 4 * length (arguments_bytes (map argument_of arguments.now)) + 2 ^ 20 < 2 ^ 31 }
    requires pictures { Pictures stage.old (P.words port.old) }
    requires foot { WritesWorld (P.foot port.old) stage.old.pool.region }
    ensures row { Follows result (node_row command from (map argument_of arguments.now) (turn_of stage.old (P.words port.old) replies.old)) (turn_of stage.new (P.words port.new) replies.new) }
    ensures stage { UnlessFollowed result (stage.new ≡ stage.old) }
    ensures words { UnlessFollowed result (P.words port.new ≡ P.words port.old) }
    ensures untold { UnlessFollowed result (replies.new ≡ replies.old) }
    ensures pictures { Pictures stage.new (P.words port.new) }
    ensures clients { length stage.new.notify ≡ length stage.old.notify }
    ensures region { stage.new.pool.region ≡ stage.old.pool.region }
    ensures others { KeepsOutside stage.old.pool.region (P.words port.old) (P.words port.new) }
    ensures len { length (P.words port.new) ≡ length (P.words port.old) }
    ensures port { SameButWords P.foot P.rest port.old port.new }
{
    match command {
        NodeCommand::New => run_new(alloc, stage, port, arguments, replies),
        NodeCommand::Notify => run_notify(alloc, stage, arguments, from, replies),
        NodeCommand::TurnNodes => run::<RunFlag>(alloc, stage, pairs(alloc, arguments)?, replies),
        NodeCommand::SetControls => run_set(alloc, stage, RunForm::Value, arguments),
        NodeCommand::SetRuns => run_set(alloc, stage, RunForm::Values, arguments),
        NodeCommand::FillRuns => run_set(alloc, stage, RunForm::Fill, arguments),
        NodeCommand::MapControls => run_map(alloc, stage, arguments),
        NodeCommand::NewGroup => {
            let groups = groups_of(alloc, false, arguments)?;
            run(alloc, stage, groups, replies)
        }
        NodeCommand::NewParallel => {
            let groups = groups_of(alloc, true, arguments)?;
            run(alloc, stage, groups, replies)
        }
        NodeCommand::Free => run_free(alloc, stage, arguments, replies),
        NodeCommand::FreeAll => run::<FreeAll>(alloc, stage, singles(alloc, arguments)?, replies),
        NodeCommand::DeepFree => run_deep_free(alloc, stage, arguments, replies),
        NodeCommand::Query => run_query(alloc, stage, arguments, from, replies),
        NodeCommand::QueryTree => run_tree_query(alloc, stage, arguments, from, replies),
        NodeCommand::GetControls => run_get(alloc, stage, port, arguments, from, replies),
        NodeCommand::Move(action) => run_moves(alloc, stage, action, arguments, replies),
        NodeCommand::Order => run_order(alloc, stage, arguments, replies),
    }
}

/// Runs a message from a client, if it is a command on nodes.
///
/// `Done` comes if the command was carried out, `Failed` with the first reason against it, and `NotMine` if the address
/// is that of another command or of none. All but `Done` leave the stage, the words and the replies as they were.
pub fn run_node_command<P: Port>(
    alloc: Global,
    stage: &mut Stage,
    port: &mut P,
    message: &Message,
    from: u32,
    replies: &mut Replies,
) -> Result<Handled, NoMemory>
    requires message { IsAnswerable (message_of message.now) }
    requires pictures { Pictures stage.old (P.words port.old) }
    requires foot { WritesWorld (P.foot port.old) stage.old.pool.region }
    ensures row { Handles result (run_node from (message_of message.now) (turn_of stage.old (P.words port.old) replies.old)) (turn_of stage.new (P.words port.new) replies.new) }
    ensures nothing { AsksNothing result }
    ensures unchanged { UnlessDone result (turn_of stage.new (P.words port.new) replies.new ≡ turn_of stage.old (P.words port.old) replies.old) }
    ensures stage { UnlessDone result (stage.new ≡ stage.old) }
    ensures words { UnlessDone result (P.words port.new ≡ P.words port.old) }
    ensures untold { UnlessDone result (replies.new ≡ replies.old) }
    ensures pictures { Pictures stage.new (P.words port.new) }
    ensures clients { length stage.new.notify ≡ length stage.old.notify }
    ensures region { stage.new.pool.region ≡ stage.old.pool.region }
    ensures others { KeepsOutside stage.old.pool.region (P.words port.old) (P.words port.new) }
    ensures len { length (P.words port.new) ≡ length (P.words port.old) }
    ensures port { SameButWords P.foot P.rest port.old port.new }
{
    let Some(command) = node_command_of(message.address.as_slice()) else {
        return Ok(Handled::NotMine);
    };
    let Some(arguments) = arguments_of(message) else {
        return Ok(Handled::Failed(Reason::ArgumentType));
    };
    match run_row(alloc, stage, port, command, arguments, from, replies)? {
        None => Ok(Handled::Done),
        Some(reason) => Ok(Handled::Failed(reason)),
    }
}
