//! The one spelling of a packet.
ghost use Rattle.std.specs.Prelude.{◌≡◌, ◌≤◌, ◌<◌, ◌^◌, ◌+◌, ◌++◌, length, map, replicate, OnOk, OnErr, IfOk};
ghost use Rattle.sn_osc.specs.declared.packet.Packet as packets;
ghost use Rattle.sn_osc.specs.Shape.{bundle, argument_of, body_of, message_of, shape, shapes};
ghost use Rattle.sn_osc.specs.Bytes.{string_bytes, blob_bytes, argument_bytes, arguments_bytes, tag_of, tags_bytes, body_bytes, message_bytes, bundle_head, packet_bytes, frame_bytes};
ghost use Rattle.std.specs.Int.{w64, to_be_bytes};
ghost use Rattle.sn_osc.specs.Grammar.{Spells, IsSpellable};

use crate::lengths::{message_len, packet_len};
use crate::packet::{Arg, Body, Bundle, Message, Packet};
use sn_ports::{NoMemory, Text};
use std::alloc::Global;

/// `count` null bytes, at most 4.
fn put_nulls(out: &mut Text, count: usize)
    requires few { count ≤ 4 }
    requires room { count ≤ out.old.spare }
    ensures bytes { out.new.bytes ≡ out.old.bytes ++ replicate count 0 }
    ensures room { out.old.spare ≤ out.new.spare + count }
{
    out.append_within(&[0, 0, 0, 0][..count]);
}

fn put_string(out: &mut Text, s: &[u8])
    requires room { length (string_bytes s.now) ≤ out.old.spare }
    ensures bytes { out.new.bytes ≡ out.old.bytes ++ string_bytes s.now }
    ensures room { out.old.spare ≤ out.new.spare + length (string_bytes s.now) }
{
    out.append_within(s);
    put_nulls(out, 4 - s.len() % 4);
}

fn put_blob(out: &mut Text, content: &[u8])
    requires few { length content.now < 2 ^ 31 }
    requires room { length (blob_bytes content.now) ≤ out.old.spare }
    ensures bytes { out.new.bytes ≡ out.old.bytes ++ blob_bytes content.now }
    ensures room { out.old.spare ≤ out.new.spare + length (blob_bytes content.now) }
{
    out.append_within(&(content.len() as u32).to_be_bytes());
    out.append_within(content);
    put_nulls(out, (4 - content.len() % 4) % 4);
}

fn put_argument(out: &mut Text, argument: &Arg)
    requires few { length (argument_bytes (argument_of argument.now)) < 2 ^ 31 }
    requires room { length (argument_bytes (argument_of argument.now)) ≤ out.old.spare }
    ensures bytes { out.new.bytes ≡ out.old.bytes ++ argument_bytes (argument_of argument.now) }
    ensures room { out.old.spare ≤ out.new.spare + length (argument_bytes (argument_of argument.now)) }
{
    match argument {
        Arg::Int(n) => out.append_within(&n.to_be_bytes()),
        Arg::Text(text) => put_string(out, text.as_slice()),
        Arg::Blob(content) => put_blob(out, content.as_slice()),
    }
}

fn put_arguments(out: &mut Text, arguments: &[Arg])
    requires few { length (arguments_bytes (map argument_of arguments.now)) < 2 ^ 31 }
    requires room { length (arguments_bytes (map argument_of arguments.now)) ≤ out.old.spare }
    ensures bytes { out.new.bytes ≡ out.old.bytes ++ arguments_bytes (map argument_of arguments.now) }
    ensures room { out.old.spare ≤ out.new.spare + length (arguments_bytes (map argument_of arguments.now)) }
{
    for argument in arguments {
        put_argument(out, argument);
    }
}

fn tag(argument: &Arg) -> u8
    ensures { result ≡ tag_of (argument_of argument.now) }
{
    match argument {
        Arg::Int(_) => b'i',
        Arg::Text(_) => b's',
        Arg::Blob(_) => b'b',
    }
}

fn put_each_tag(out: &mut Text, arguments: &[Arg])
    requires room { length arguments.now ≤ out.old.spare }
    ensures bytes { out.new.bytes ≡ out.old.bytes ++ map tag_of (map argument_of arguments.now) }
    ensures room { out.old.spare ≤ out.new.spare + length arguments.now }
{
    for argument in arguments {
        out.append_within(&[tag(argument)]);
    }
}

/// A comma and the tags of the arguments, as a string.
fn put_argument_tags(out: &mut Text, arguments: &[Arg])
    requires room { length (tags_bytes (map tag_of (map argument_of arguments.now))) ≤ out.old.spare }
    ensures bytes { out.new.bytes ≡ out.old.bytes ++ tags_bytes (map tag_of (map argument_of arguments.now)) }
    ensures room { out.old.spare ≤ out.new.spare + length (tags_bytes (map tag_of (map argument_of arguments.now))) }
{
    out.append_within(b",");
    put_each_tag(out, arguments);
    put_nulls(out, 4 - (arguments.len() % 4 + 1) % 4);
}

/// A comma and the tags, as a string.
fn put_tags(out: &mut Text, tags: &[u8])
    requires room { length (tags_bytes tags.now) ≤ out.old.spare }
    ensures bytes { out.new.bytes ≡ out.old.bytes ++ tags_bytes tags.now }
    ensures room { out.old.spare ≤ out.new.spare + length (tags_bytes tags.now) }
{
    out.append_within(b",");
    out.append_within(tags);
    put_nulls(out, 4 - (tags.len() % 4 + 1) % 4);
}

fn put_body(out: &mut Text, body: &Body)
    requires few { length (body_bytes (body_of body.now)) < 2 ^ 31 }
    requires room { length (body_bytes (body_of body.now)) ≤ out.old.spare }
    ensures bytes { out.new.bytes ≡ out.old.bytes ++ body_bytes (body_of body.now) }
    ensures room { out.old.spare ≤ out.new.spare + length (body_bytes (body_of body.now)) }
{
    match body {
        Body::Bare => {}
        Body::Args(arguments) => {
            put_argument_tags(out, arguments.as_slice());
            put_arguments(out, arguments.as_slice());
        }
        Body::Foreign { tags, rest } => {
            put_tags(out, tags.as_slice());
            out.append_within(rest.as_slice());
        }
    }
}

fn put_message(out: &mut Text, message: &Message)
    requires few { length (message_bytes (message_of message.now)) < 2 ^ 31 }
    requires room { length (message_bytes (message_of message.now)) ≤ out.old.spare }
    ensures bytes { out.new.bytes ≡ out.old.bytes ++ message_bytes (message_of message.now) }
    ensures room { out.old.spare ≤ out.new.spare + length (message_bytes (message_of message.now)) }
{
    put_string(out, message.address.as_slice());
    put_body(out, &message.body);
}

/// Appends the frame of a message: its int32 size, and its spelling. Returns the frame's length. An `Err` changes no
/// byte.
pub fn append_frame(out: &mut Text, message: &Message) -> Result<u32, NoMemory>
    requires { length (message_bytes (message_of message.now)) < 2 ^ 31 }
    ensures frame { OnOk result (out.new.bytes ≡ out.old.bytes ++ frame_bytes (message_bytes (message_of message.now))) }
    ensures len { IfOk result (λ n. n ≡ length (frame_bytes (message_bytes (message_of message.now)))) }
    ensures err { OnErr result (out.new.bytes ≡ out.old.bytes) }
{
    let size = message_len(message) as u32;
    out.reserve(4 + size)?;
    out.append_within(&size.to_be_bytes());
    put_message(out, message);
    Ok(4 + size)
}

/// Appends the spelling of a message. Room is taken once.
fn append_message(out: &mut Text, message: &Message) -> Result<(), NoMemory>
    requires { length (message_bytes (message_of message.now)) < 2 ^ 31 }
    ensures { OnOk result (out.new.bytes ≡ out.old.bytes ++ message_bytes (message_of message.now)) }
{
    out.reserve(message_len(message) as u32)?;
    put_message(out, message);
    Ok(())
}

fn put_head(out: &mut Text, tag: u64) -> Result<(), NoMemory>
    ensures { OnOk result (out.new.bytes ≡ out.old.bytes ++ bundle_head ++ to_be_bytes w64 tag) }
{
    out.append(b"#bundle\0")?;
    out.append(&tag.to_be_bytes())
}

/// Each element is a size and a packet of that size.
#[cycle(encoding)]
fn put_bundle(out: &mut Text, item: &Bundle) -> Result<(), NoMemory>
    requires { length (packet_bytes (shape (packets.Bundle item.now))) < 2 ^ 31 }
    ensures { OnOk result (out.new.bytes ≡ out.old.bytes ++ packet_bytes (bundle item.now.tag (shapes item.now.elements.items))) }
{
    put_head(out, item.tag)?;
    for element in &item.elements {
        out.append(&(packet_len(element) as u32).to_be_bytes())?;
        put_packet(out, element)?;
    }
    Ok(())
}

#[cycle(encoding)]
fn put_packet(out: &mut Text, packet: &Packet) -> Result<(), NoMemory>
    requires { length (packet_bytes (shape packet.now)) < 2 ^ 31 }
    ensures { OnOk result (out.new.bytes ≡ out.old.bytes ++ packet_bytes (shape packet.now)) }
{
    match packet {
        Packet::Message(message) => append_message(out, message),
        Packet::Bundle(bundle) => put_bundle(out, bundle),
    }
}

/// The one spelling of the packet.
pub fn encode(alloc: Global, packet: &Packet) -> Result<Text, NoMemory>
    requires { IsSpellable (shape packet.now) }
    ensures bytes { IfOk result (λ t. t.bytes ≡ packet_bytes (shape packet.now)) }
    ensures spelled { IfOk result (λ t. Spells (shape packet.now) t.bytes) }
{
    let mut out = Text::new(alloc);
    out.reserve(packet_len(packet) as u32)?;
    put_packet(&mut out, packet)?;
    Ok(out)
}
