//! Messages that are run as commands.
ghost use Rattle.std.specs.Prelude.{◌≡◌, ◌+◌, ◌*◌, ◌^◌, ◌<◌, Some, Ok, length, map, OnErr};
ghost use Rattle.sn_osc.specs.Shape.{argument_of, message_of};
ghost use Rattle.sn_reply.specs.Sending.{IsAnswerable};
ghost use Rattle.sn_world.specs.World.{turn_of};
ghost use Rattle.sn_world.specs.Pictures.{Pictures, WritesWorld, KeepsOutside};
ghost use Rattle.sn_osc.specs.Reading.{read};
ghost use Rattle.sn_mem.specs.Words.{SameButWords};
ghost use Rattle.sn_world.specs.Completing.{one_message};
ghost use Rattle.sn_world.specs.Addresses.{server_command_of};
ghost use Rattle.sn_world.specs.Commands.{server_row, carrying_row, run_bus, next_alone, next_with, next_of, handled_as};
ghost use Rattle.sn_world.specs.Answers.{Follows, UnlessFollowed, Handles, UnlessDone, IsNext, NextHas};
ghost use Rattle.sn_buscmd.specs.Refusing.{IfRefused, IfFailed};

use crate::asking::run_get;
use crate::asking_runs::run_get_runs;
use crate::buffer_freeing::run_buffer_free;
use crate::buffer_making::run_buffer_alloc;
use crate::buffer_querying::run_buffer_query;
use crate::buffer_reading::run_buffer_read;
use crate::buffer_zeroing::run_buffer_zero;
use crate::completing::{carried, completion_in, own};
use crate::ending::{run_clear, run_quit};
use crate::filling::run_fill;
use crate::freeing::run_free;
use crate::receiving::run_receive;
use crate::sample_changes::{run_fill_samples, run_set_sample_runs, run_set_samples};
use crate::sample_questions::{run_get_sample_runs, run_get_samples};
use crate::setting::run_set;
use crate::setting_runs::run_set_runs;
use crate::status::run_status;
use crate::syncing::run_sync;
use sn_mem::Port;
use sn_osc::{Arg, Message};
use sn_ports::NoMemory;
use sn_reply::{Reason, Replies};
use sn_world::{Command, Handled, ServerCommand, Stage, arguments_of, command_of};
use std::alloc::Global;

/// The command on control buses, on buffers, on definitions or on the server itself with an address.
pub fn server_command_of(address: &[u8]) -> Option<ServerCommand>
    ensures { result ≡ server_command_of address.now }
{
    match command_of(address) {
        Some(Command::OnServer(command)) => Some(command),
        Some(Command::OnNodes(_)) => None,
        None => None,
    }
}

/// A command with its arguments, whole or not at all.
#[tactic(auto, using(crate::proofs::RunningLemmas::stage_still))]
fn run_row<P: Port>(
    alloc: Global,
    stage: &mut Stage,
    port: &mut P,
    command: ServerCommand,
    arguments: &[Arg],
    from: u32,
    replies: &mut Replies,
) -> Result<Option<Reason>, NoMemory>
    requires few { 20 * length arguments.now + 2 ^ 20 < 2 ^ 31 }
    requires pictures { Pictures stage.old (P.words port.old) }
    requires foot { WritesWorld (P.foot port.old) stage.old.pool.region }
    ensures row { Follows result (server_row command from (map argument_of arguments.now) (turn_of stage.old (P.words port.old) replies.old)) (turn_of stage.new (P.words port.new) replies.new) }
    ensures unchanged { UnlessFollowed result (turn_of stage.new (P.words port.new) replies.new ≡ turn_of stage.old (P.words port.old) replies.old) }
    ensures stage { IfRefused result (stage.new ≡ stage.old) }
    ensures kept { OnErr result (stage.new ≡ record stage.old { defs = stage.new.defs }) }
    ensures words { UnlessFollowed result (P.words port.new ≡ P.words port.old) }
    ensures untold { UnlessFollowed result (replies.new ≡ replies.old) }
    ensures pictures { Pictures stage.new (P.words port.new) }
    ensures region { stage.new.pool.region ≡ stage.old.pool.region }
    ensures others { KeepsOutside stage.old.pool.region (P.words port.old) (P.words port.new) }
    ensures len { length (P.words port.new) ≡ length (P.words port.old) }
    ensures port { SameButWords P.foot P.rest port.old port.new }
{
    match command {
        ServerCommand::Set => run_set(alloc, port, arguments),
        ServerCommand::SetRuns => run_set_runs(alloc, port, arguments),
        ServerCommand::Fill => run_fill(alloc, port, arguments),
        ServerCommand::Get => run_get(alloc, port, arguments, from, replies),
        ServerCommand::GetRuns => run_get_runs(alloc, port, arguments, from, replies),
        ServerCommand::AllocBuffer => run_buffer_alloc(
            alloc, stage, port, arguments, from, replies,
        ),
        ServerCommand::ReadBuffer => run_buffer_read(alloc, stage, port, arguments, from, replies),
        ServerCommand::FreeBuffer => run_buffer_free(alloc, stage, arguments, from, replies),
        ServerCommand::ZeroBuffer => run_buffer_zero(alloc, stage, port, arguments, from, replies),
        ServerCommand::QueryBuffers => run_buffer_query(alloc, stage, arguments, from, replies),
        ServerCommand::SetSamples => run_set_samples(alloc, stage, port, arguments),
        ServerCommand::SetSampleRuns => run_set_sample_runs(alloc, stage, port, arguments),
        ServerCommand::FillSamples => run_fill_samples(alloc, stage, port, arguments),
        ServerCommand::GetSamples => run_get_samples(alloc, stage, port, arguments, from, replies),
        ServerCommand::GetSampleRuns => run_get_sample_runs(
            alloc, stage, port, arguments, from, replies,
        ),
        ServerCommand::Sync => run_sync(alloc, arguments, from, replies),
        ServerCommand::Receive => run_receive(alloc, stage, arguments, from, replies),
        ServerCommand::Free => run_free(alloc, stage, arguments),
        ServerCommand::Status => run_status(alloc, stage, arguments, from, replies),
        ServerCommand::ClearSched => run_clear(arguments),
        ServerCommand::Quit => run_quit(alloc, arguments, from, replies),
    }
}

/// How it is told that a command without a completion message was carried out.
fn handled_as(command: ServerCommand) -> Handled
    ensures told { result ≡ handled_as command }
    ensures alone { NextHas IsAnswerable (Ok result) }
{
    match command {
        ServerCommand::ClearSched => Handled::ClearSched,
        ServerCommand::Quit => Handled::Quit,
        _ => Handled::Done,
    }
}

/// A command that carries no completion message.
fn run_alone<P: Port>(
    alloc: Global,
    stage: &mut Stage,
    port: &mut P,
    command: ServerCommand,
    arguments: &[Arg],
    from: u32,
    replies: &mut Replies,
) -> Result<Handled, NoMemory>
    requires few { 20 * length arguments.now + 2 ^ 20 < 2 ^ 31 }
    requires pictures { Pictures stage.old (P.words port.old) }
    requires foot { WritesWorld (P.foot port.old) stage.old.pool.region }
    ensures row { Handles result (Some (server_row command from (map argument_of arguments.now) (turn_of stage.old (P.words port.old) replies.old))) (turn_of stage.new (P.words port.new) replies.new) }
    ensures next { IsNext result (next_alone command) }
    ensures answerable { NextHas IsAnswerable result }
    ensures unchanged { UnlessDone result (turn_of stage.new (P.words port.new) replies.new ≡ turn_of stage.old (P.words port.old) replies.old) }
    ensures stage { IfFailed result (stage.new ≡ stage.old) }
    ensures kept { OnErr result (stage.new ≡ record stage.old { defs = stage.new.defs }) }
    ensures words { UnlessDone result (P.words port.new ≡ P.words port.old) }
    ensures untold { UnlessDone result (replies.new ≡ replies.old) }
    ensures pictures { Pictures stage.new (P.words port.new) }
    ensures region { stage.new.pool.region ≡ stage.old.pool.region }
    ensures others { KeepsOutside stage.old.pool.region (P.words port.old) (P.words port.new) }
    ensures len { length (P.words port.new) ≡ length (P.words port.old) }
    ensures port { SameButWords P.foot P.rest port.old port.new }
{
    match run_row(alloc, stage, port, command, arguments, from, replies)? {
        None => Ok(handled_as(command)),
        Some(reason) => Ok(Handled::Failed(reason)),
    }
}

/// A command with the blob after its own arguments.
fn run_carrying<P: Port>(
    alloc: Global,
    stage: &mut Stage,
    port: &mut P,
    command: ServerCommand,
    arguments: &[Arg],
    blob: &[u8],
    from: u32,
    replies: &mut Replies,
) -> Result<Handled, NoMemory>
    requires few { 20 * length arguments.now + 2 ^ 20 < 2 ^ 31 }
    requires pictures { Pictures stage.old (P.words port.old) }
    requires foot { WritesWorld (P.foot port.old) stage.old.pool.region }
    ensures row { Handles result (Some (carrying_row command (Some blob.now) from (map argument_of arguments.now) (turn_of stage.old (P.words port.old) replies.old))) (turn_of stage.new (P.words port.new) replies.new) }
    ensures next { IsNext result (next_with command (one_message (read blob.now))) }
    ensures answerable { NextHas IsAnswerable result }
    ensures unchanged { UnlessDone result (turn_of stage.new (P.words port.new) replies.new ≡ turn_of stage.old (P.words port.old) replies.old) }
    ensures stage { IfFailed result (stage.new ≡ stage.old) }
    ensures kept { OnErr result (stage.new ≡ record stage.old { defs = stage.new.defs }) }
    ensures words { UnlessDone result (P.words port.new ≡ P.words port.old) }
    ensures untold { UnlessDone result (replies.new ≡ replies.old) }
    ensures pictures { Pictures stage.new (P.words port.new) }
    ensures region { stage.new.pool.region ≡ stage.old.pool.region }
    ensures others { KeepsOutside stage.old.pool.region (P.words port.old) (P.words port.new) }
    ensures len { length (P.words port.new) ≡ length (P.words port.old) }
    ensures port { SameButWords P.foot P.rest port.old port.new }
{
    let Some(completion) = completion_in(alloc, blob)? else {
        return Ok(Handled::Failed(Reason::Arguments));
    };
    match run_row(alloc, stage, port, command, own(arguments), from, replies)? {
        None => Ok(Handled::Completion(completion)),
        Some(reason) => Ok(Handled::Failed(reason)),
    }
}

/// Runs a message from a client, if it is a command on control buses, on buffers, on definitions or on the server
/// itself.
///
/// `Done` comes if the command was carried out, and `Completion` if it also carries a completion message. `Quit` and
/// `ClearSched` come if it was the command of that name. `Failed` comes with the first reason against it, and `NotMine`
/// if the address is that of another command or of none. `Failed` and `NotMine` leave the stage, the words and the
/// replies as they were. So does `NoMemory`, except for how the definitions are kept: they are the same ones.
pub fn run_bus_command<P: Port>(
    alloc: Global,
    stage: &mut Stage,
    port: &mut P,
    message: &Message,
    from: u32,
    replies: &mut Replies,
) -> Result<Handled, NoMemory>
    requires message { IsAnswerable (message_of message.now) }
    requires pictures { Pictures stage.old (P.words port.old) }
    requires foot { WritesWorld (P.foot port.old) stage.old.pool.region }
    ensures row { Handles result (run_bus from (message_of message.now) (turn_of stage.old (P.words port.old) replies.old)) (turn_of stage.new (P.words port.new) replies.new) }
    ensures next { IsNext result (next_of (server_command_of (message_of message.now).address) (message_of message.now).body) }
    ensures answerable { NextHas IsAnswerable result }
    ensures unchanged { UnlessDone result (turn_of stage.new (P.words port.new) replies.new ≡ turn_of stage.old (P.words port.old) replies.old) }
    ensures stage { IfFailed result (stage.new ≡ stage.old) }
    ensures kept { OnErr result (stage.new ≡ record stage.old { defs = stage.new.defs }) }
    ensures words { UnlessDone result (P.words port.new ≡ P.words port.old) }
    ensures untold { UnlessDone result (replies.new ≡ replies.old) }
    ensures pictures { Pictures stage.new (P.words port.new) }
    ensures region { stage.new.pool.region ≡ stage.old.pool.region }
    ensures others { KeepsOutside stage.old.pool.region (P.words port.old) (P.words port.new) }
    ensures len { length (P.words port.new) ≡ length (P.words port.old) }
    ensures port { SameButWords P.foot P.rest port.old port.new }
{
    let Some(command) = server_command_of(message.address.as_slice()) else {
        return Ok(Handled::NotMine);
    };
    let Some(arguments) = arguments_of(message) else {
        return Ok(Handled::Failed(Reason::ArgumentType));
    };
    match carried(command, arguments) {
        None => run_alone(alloc, stage, port, command, arguments, from, replies),
        Some(blob) => run_carrying(alloc, stage, port, command, arguments, blob, from, replies),
    }
}
