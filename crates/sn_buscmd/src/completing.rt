//! Completion messages, which commands carry after their own arguments.
ghost use Rattle.std.specs.Prelude.{◌≡◌, ◌≤◌, Ok, List, ℕ, length, map, IfOk, IfSome};
ghost use Rattle.std.specs.Option.{option_map};
ghost use Rattle.std.specs.Borrow.{Bor};
ghost use Rattle.sn_osc.specs.Shape.{argument_of, message_of, shape};
ghost use Rattle.sn_osc.specs.Reading.{read};
ghost use Rattle.sn_reply.specs.Sending.{IsAnswerable};
ghost use Rattle.sn_world.specs.Completing.{behind_frames, behind_samples, behind_number, behind_text, carried, own, one_message};
ghost use Rattle.sn_world.specs.Commands.{completion_of, depth_within, acceptable};

use crate::dispatch::server_command_of;
use sn_osc::{Arg, Body, Message, Packet, Undecoded, decode};
use sn_ports::NoMemory;
use sn_world::{MOST_COMPLETIONS, ServerCommand};
use std::alloc::Global;

/// The blob after a number, frames and channels, if they are given.
fn behind_frames(arguments: &[Arg]) -> Option<&[u8]>
    ensures { option_map (λ (blob : Bor (List ℕ)). blob.now) result ≡ behind_frames (map argument_of arguments.now) }
{
    match arguments {
        [Arg::Int(_), Arg::Int(_), Arg::Blob(blob)] => Some(blob.as_slice()),
        [Arg::Int(_), Arg::Int(_), Arg::Int(_), Arg::Blob(blob)] => Some(blob.as_slice()),
        _ => None,
    }
}

/// The blob after a number, frames, channels and samples.
fn behind_samples(arguments: &[Arg]) -> Option<&[u8]>
    ensures { option_map (λ (blob : Bor (List ℕ)). blob.now) result ≡ behind_samples (map argument_of arguments.now) }
{
    match arguments {
        [
            Arg::Int(_),
            Arg::Int(_),
            Arg::Int(_),
            Arg::Blob(_),
            Arg::Blob(blob),
        ] => Some(blob.as_slice()),
        _ => None,
    }
}

/// The blob after a number.
fn behind_number(arguments: &[Arg]) -> Option<&[u8]>
    ensures { option_map (λ (blob : Bor (List ℕ)). blob.now) result ≡ behind_number (map argument_of arguments.now) }
{
    match arguments {
        [Arg::Int(_), Arg::Blob(blob)] => Some(blob.as_slice()),
        _ => None,
    }
}

/// The blob after a text.
fn behind_text(arguments: &[Arg]) -> Option<&[u8]>
    ensures { option_map (λ (blob : Bor (List ℕ)). blob.now) result ≡ behind_text (map argument_of arguments.now) }
{
    match arguments {
        [Arg::Blob(_), Arg::Blob(blob)] => Some(blob.as_slice()),
        _ => None,
    }
}

/// The blob that a command carries after its own arguments.
pub fn carried(command: ServerCommand, arguments: &[Arg]) -> Option<&[u8]>
    ensures { option_map (λ (blob : Bor (List ℕ)). blob.now) result ≡ carried command (map argument_of arguments.now) }
{
    match command {
        ServerCommand::AllocBuffer => behind_frames(arguments),
        ServerCommand::ReadBuffer => behind_samples(arguments),
        ServerCommand::FreeBuffer | ServerCommand::ZeroBuffer => behind_number(arguments),
        ServerCommand::Receive => behind_text(arguments),
        _ => None,
    }
}

/// The arguments before the last one.
pub fn own(arguments: &[Arg]) -> &[Arg]
    ensures value { map argument_of result.now ≡ own (map argument_of arguments.now) }
    ensures few { length result.now ≤ length arguments.now }
{
    &arguments[..arguments.len().saturating_sub(1)]
}

fn message_in(packet: Packet) -> Option<Message>
    ensures { option_map message_of result ≡ one_message (Ok (shape packet)) }
{
    match packet {
        Packet::Message(message) => Some(message),
        Packet::Bundle(_) => None,
    }
}

/// The message that bytes spell, if they spell one.
fn one_message(alloc: Global, bytes: &[u8]) -> Result<Option<Message>, NoMemory>
    ensures value { IfOk result (λ m. option_map message_of m ≡ one_message (read bytes.now)) }
    ensures answerable { IfOk result (λ m. IfSome m (λ x. IsAnswerable (message_of x))) }
{
    match decode(alloc, bytes) {
        Ok(packet) => Ok(message_in(packet)),
        Err(Undecoded::Bad(_)) => Ok(None),
        Err(Undecoded::NoMemory) => Err(NoMemory),
    }
}

/// The completion message that a message carries.
fn completion_of(alloc: Global, message: &Message) -> Result<Option<Message>, NoMemory>
    ensures { IfOk result (λ m. option_map message_of m ≡ completion_of (message_of message.now)) }
{
    let Some(command) = server_command_of(message.address.as_slice()) else {
        return Ok(None);
    };
    let Body::Args(arguments) = &message.body else {
        return Ok(None);
    };
    match carried(command, arguments.as_slice()) {
        None => Ok(None),
        Some(blob) => one_message(alloc, blob),
    }
}

/// Whether completion messages nest at most `deep` levels in a message.
fn is_within(alloc: Global, deep: u32, message: &Message) -> Result<bool, NoMemory>
    ensures { IfOk result (λ within. within ≡ depth_within deep (message_of message.now)) }
{
    let Some(completion) = completion_of(alloc, message)? else {
        return Ok(true);
    };
    if deep == 0 {
        return Ok(false);
    }
    is_within(alloc, deep - 1, &completion)
}

/// The completion message in a blob, if it is one message, in which completion messages nest one level less deep than
/// they may.
pub fn completion_in(alloc: Global, blob: &[u8]) -> Result<Option<Message>, NoMemory>
    ensures value { IfOk result (λ m. option_map message_of m ≡ acceptable (one_message (read blob.now))) }
    ensures answerable { IfOk result (λ m. IfSome m (λ x. IsAnswerable (message_of x))) }
{
    let Some(message) = one_message(alloc, blob)? else {
        return Ok(None);
    };
    if is_within(alloc, MOST_COMPLETIONS - 1, &message)? {
        Ok(Some(message))
    } else {
        Ok(None)
    }
}
