ghost use Rattle.std.specs.Prelude.{◌≡◌, ◌<◌, ◌^◌, length, IfOk, IsTrue};
ghost use Rattle.sn_osc.specs.Shape.{message_of};
ghost use Rattle.sn_osc.specs.Bytes.{has_no_null};
ghost use Rattle.sn_reply.specs.Sending.{IsSendable, IsShortText};
ghost use Rattle.sn_reply.specs.Failing.{definition_line, reason_text, fail_message};

use crate::reason::Reason;
use sn_osc::{Address, Arg, Args, Body, Message};
use sn_ports::{NoMemory, Text};
use std::alloc::Global;

/// The text of a reason.
fn reason_text(alloc: Global, reason: Reason) -> Result<Text, NoMemory>
    ensures words { IfOk result (λ text. text.bytes ≡ reason_text reason) }
    ensures short { IfOk result (λ text. IsShortText text.bytes) }
{
    let words: &[u8] = match reason {
        Reason::UnknownCommand => b"unknown command",
        Reason::ArgumentType => b"argument type",
        Reason::Arguments => b"arguments",
        Reason::NoSuchNode => b"no such node",
        Reason::IdInUse => b"id in use",
        Reason::AddAction => b"add action",
        Reason::NotGroup => b"not a group",
        Reason::Root => b"root",
        Reason::InsideItself => b"inside itself",
        Reason::NoSuchDefinition => b"no such definition",
        Reason::Bus => b"bus",
        Reason::Buffer => b"buffer",
        Reason::SampleIndex => b"sample index",
        Reason::PoolFull => b"pool full",
        Reason::TooManyNodes => b"too many nodes",
        Reason::DefinitionLine(line) => return definition_line(alloc, line),
        Reason::IndexControl => b"index control",
        Reason::QueueFull => b"queue full",
        Reason::BadPacket => b"bad packet",
        Reason::NotSynth => b"not a synth",
        Reason::File => b"file",
    };
    Text::from_slice(alloc, words)
}

fn definition_line(alloc: Global, line: u32) -> Result<Text, NoMemory>
    ensures words { IfOk result (λ text. text.bytes ≡ definition_line line) }
    ensures short { IfOk result (λ text. IsShortText text.bytes) }
{
    let text = format!(in alloc; "definition line {line}")?;
    Ok(Text::from_vec(text.into_bytes()))
}

/// The message `/fail` with the address of a refused command and the words of the reason.
pub fn fail(alloc: Global, address: &Address, reason: Reason) -> Result<Message, NoMemory>
    ensures message { IfOk result (λ message. message_of message ≡ fail_message address.now.bytes reason) }
    // It can be sent if the address has no null byte and is not too long.
    ensures sendable { IsTrue (has_no_null address.now.bytes) → length address.now.bytes < 2 ^ 30
        → IfOk result (λ message. IsSendable (message_of message)) }
{
    let mut arguments = Vec::new(alloc);
    arguments.push(Arg::Text(Text::from_slice(alloc, address.as_slice())?))?;
    arguments.push(Arg::Text(reason_text(alloc, reason)?))?;
    Ok(Message {
        address: Address::from_slice(alloc, b"/fail")?,
        body: Body::Args(Args::from_vec(arguments)),
    })
}
