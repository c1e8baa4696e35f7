//! Lines of a score, written.
ghost use Rattle.std.specs.Prelude.{◌≡◌, ◌++◌, ◌∷◌, map, flat_map, IfOk, OnOk};
ghost use Rattle.sn_osc.specs.Shape.{bundle, argument_of, body_of, message_of, shape, shapes};
ghost use Rattle.sn_score.specs.Lines.{argument_word, body_words, fields, message_line, bundle_line, line, packet_text, elements_text};
ghost use Rattle.sn_score.specs.Score.{AllFit, Score, score_text};

use crate::words::{put_address, put_blob, put_int, put_natural, put_quoted};
use sn_osc::{Arg, Body, Bundle, Message, Packet};
use sn_ports::{NoMemory, Text};
use std::alloc::Global;

fn put_argument(out: &mut Text, argument: &Arg) -> Result<(), NoMemory>
    ensures { OnOk result (out.new.bytes ≡ out.old.bytes ++ 32 ∷ argument_word (argument_of argument.now)) }
{
    out.append(b" ")?;
    match argument {
        Arg::Int(n) => put_int(out, *n),
        Arg::Text(text) => put_quoted(out, text.as_slice()),
        Arg::Blob(content) => put_blob(out, content.as_slice()),
    }
}

fn put_each(out: &mut Text, arguments: &[Arg]) -> Result<(), NoMemory>
    ensures { OnOk result (out.new.bytes ≡ out.old.bytes ++ fields (map argument_word (map argument_of arguments.now))) }
{
    for argument in arguments {
        put_argument(out, argument)?;
    }
    Ok(())
}

/// The arguments, or `()` if there are none.
fn put_arguments(out: &mut Text, arguments: &[Arg]) -> Result<(), NoMemory>
    ensures { OnOk result (out.new.bytes ≡ out.old.bytes ++ fields (body_words (Rattle.sn_osc.specs.Shape.arguments (map argument_of arguments.now)))) }
{
    if arguments.is_empty() {
        return out.append(b" ()");
    }
    put_each(out, arguments)
}

/// What follows an address, each field after a space.
fn put_body(out: &mut Text, body: &Body) -> Result<(), NoMemory>
    ensures { OnOk result (out.new.bytes ≡ out.old.bytes ++ fields (body_words (body_of body.now))) }
{
    match body {
        Body::Bare => Ok(()),
        Body::Args(arguments) => put_arguments(out, arguments.as_slice()),
        Body::Foreign { tags, rest } => {
            out.append(b" ?")?;
            put_quoted(out, tags.as_slice())?;
            out.append(b" ")?;
            put_blob(out, rest.as_slice())
        }
    }
}

/// The line of a message, without its line feed.
pub(crate) fn put_message(out: &mut Text, message: &Message) -> Result<(), NoMemory>
    ensures { OnOk result (out.new.bytes ≡ out.old.bytes ++ message_line (message_of message.now)) }
{
    put_address(out, message.address.as_slice())?;
    put_body(out, &message.body)
}

/// The first line of a bundle, without its line feed.
pub(crate) fn put_opening(out: &mut Text, tag: u64) -> Result<(), NoMemory>
    ensures { OnOk result (out.new.bytes ≡ out.old.bytes ++ bundle_line tag) }
{
    out.append(b"[ ")?;
    put_natural(out, (tag / (1 << 32)) as u32)?;
    out.append(b" ")?;
    put_natural(out, (tag % (1 << 32)) as u32)
}

/// The lines of a bundle.
#[cycle(writing)]
fn put_bundle(out: &mut Text, item: &Bundle) -> Result<(), NoMemory>
    ensures { OnOk result (out.new.bytes ≡ out.old.bytes ++ packet_text (bundle item.now.tag (shapes item.now.elements.items))) }
{
    put_opening(out, item.tag)?;
    out.append(b"\n")?;
    for element in &item.elements {
        put_packet(out, element)?;
    }
    out.append(b"]\n")
}

/// The lines of a packet.
#[cycle(writing)]
fn put_packet(out: &mut Text, packet: &Packet) -> Result<(), NoMemory>
    ensures { OnOk result (out.new.bytes ≡ out.old.bytes ++ packet_text (shape packet.now)) }
{
    match packet {
        Packet::Message(message) => {
            put_message(out, message)?;
            out.append(b"\n")
        }
        Packet::Bundle(bundle) => put_bundle(out, bundle),
    }
}

fn put_packets(out: &mut Text, packets: &[Packet]) -> Result<(), NoMemory>
    ensures { OnOk result (out.new.bytes ≡ out.old.bytes ++ flat_map packet_text (map shape packets.now)) }
{
    for packet in packets {
        put_packet(out, packet)?;
    }
    Ok(())
}

/// The one text of packets that each are no longer than a packet may be.
pub fn write_score(alloc: Global, packets: &[Packet]) -> Result<Text, NoMemory>
    requires { AllFit (map shape packets.now) }
    ensures { IfOk result (λ t. Score t.bytes (map shape packets.now)) }
{
    let mut out = Text::new(alloc);
    put_packets(&mut out, packets)?;
    Ok(out)
}
