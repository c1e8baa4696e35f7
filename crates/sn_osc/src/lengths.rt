//! How many bytes the spelling of a packet has, up to 2^31 of them.
ghost use Rattle.std.specs.Prelude.{◌≡◌, ◌≤◌, ◌^◌, ◌+◌, ◌-◌, ◌%◌, length, map, min, IsTrue};
ghost use Rattle.sn_osc.specs.Shape.{bundle, argument_of, body_of, message_of, shape, shapes};
ghost use Rattle.sn_osc.specs.Bytes.{are_octets, string_bytes, blob_bytes, argument_bytes, arguments_bytes, tags_bytes, body_bytes, message_bytes, packet_bytes};

use crate::packet::{Arg, Body, Bundle, Message, Packet};

/// One more than the most bytes of a spelling.
pub const TOO_MANY: u64 = 1 << 31;

fn sum(a: u64, b: u64) -> u64
    requires first { a ≤ 2 ^ 31 }
    requires second { b ≤ 2 ^ 31 }
    ensures { result ≡ min (a + b) (2 ^ 31) }
{
    (a + b).min(TOO_MANY)
}

fn slice_len(bytes: &[u8]) -> u64
    ensures len { result ≡ min (length bytes.now) (2 ^ 31) }
    ensures octets { IsTrue (are_octets bytes.now) }
{
    (bytes.len() as u64).min(TOO_MANY)
}

fn string_len(s: &[u8]) -> u64
    ensures len { result ≡ min (length (string_bytes s.now)) (2 ^ 31) }
    ensures octets { IsTrue (are_octets (string_bytes s.now)) }
{
    sum(slice_len(s), 4 - s.len() as u64 % 4)
}

fn blob_len(content: &[u8]) -> u64
    ensures len { result ≡ min (length (blob_bytes content.now)) (2 ^ 31) }
    ensures octets { IsTrue (are_octets (blob_bytes content.now)) }
{
    sum(
        sum(4, slice_len(content)),
        (4 - content.len() as u64 % 4) % 4,
    )
}

fn argument_len(argument: &Arg) -> u64
    ensures len { result ≡ min (length (argument_bytes (argument_of argument.now))) (2 ^ 31) }
    ensures octets { IsTrue (are_octets (argument_bytes (argument_of argument.now))) }
{
    match argument {
        Arg::Int(_) => 4,
        Arg::Text(text) => string_len(text.as_slice()),
        Arg::Blob(content) => blob_len(content.as_slice()),
    }
}

fn arguments_len(arguments: &[Arg]) -> u64
    ensures len { result ≡ min (length (arguments_bytes (map argument_of arguments.now))) (2 ^ 31) }
    ensures octets { IsTrue (are_octets (arguments_bytes (map argument_of arguments.now))) }
{
    let mut len = 0;
    for argument in arguments {
        len = sum(len, argument_len(argument));
    }
    len
}

fn body_len(body: &Body) -> u64
    ensures len { result ≡ min (length (body_bytes (body_of body.now))) (2 ^ 31) }
    ensures octets { IsTrue (are_octets (body_bytes (body_of body.now))) }
{
    match body {
        Body::Bare => 0,
        Body::Args(arguments) => sum(
            tags_len(arguments.as_slice().len()),
            arguments_len(arguments.as_slice()),
        ),
        Body::Foreign { tags, rest } => sum(
            foreign_tags_len(tags.as_slice()),
            slice_len(rest.as_slice()),
        ),
    }
}

/// The length of a comma and `tags` tags, as a string.
fn tags_len(tags: usize) -> u64
    ensures { result ≡ min (1 + tags + (4 - (1 + tags) % 4)) (2 ^ 31) }
{
    let len = sum(1, (tags as u64).min(TOO_MANY));
    sum(len, 4 - len % 4)
}

/// The length of a comma and these tags, as a string.
fn foreign_tags_len(tags: &[u8]) -> u64
    ensures len { result ≡ min (length (tags_bytes tags.now)) (2 ^ 31) }
    ensures octets { IsTrue (are_octets (tags_bytes tags.now)) }
{
    tags_len(tags.len())
}

/// How many bytes the message's spelling has, or 2^31 if there are more. Each of them is below 256.
pub(crate) fn message_len(message: &Message) -> u64
    ensures len { result ≡ min (length (message_bytes (message_of message.now))) (2 ^ 31) }
    ensures octets { IsTrue (are_octets (message_bytes (message_of message.now))) }
{
    sum(
        string_len(message.address.as_slice()),
        body_len(&message.body),
    )
}

#[cycle(lengths)]
fn bundle_len(item: &Bundle) -> u64
    ensures len { result ≡ min (length (packet_bytes (bundle item.now.tag (shapes item.now.elements.items)))) (2 ^ 31) }
    ensures octets { IsTrue (are_octets (packet_bytes (bundle item.now.tag (shapes item.now.elements.items)))) }
{
    let mut len = 16;
    for element in &item.elements {
        len = sum(sum(len, 4), packet_len(element));
    }
    len
}

/// How many bytes the packet's spelling has, or 2^31 if there are more. Each of them is below 256.
#[cycle(lengths)]
pub fn packet_len(packet: &Packet) -> u64
    ensures len { result ≡ min (length (packet_bytes (shape packet.now))) (2 ^ 31) }
    ensures octets { IsTrue (are_octets (packet_bytes (shape packet.now))) }
{
    match packet {
        Packet::Message(message) => message_len(message),
        Packet::Bundle(bundle) => bundle_len(bundle),
    }
}
