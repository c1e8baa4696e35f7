//! Which packets have a spelling.
ghost use Rattle.std.specs.Prelude.{◌≡◌, ◌<◌, ◌↔◌, suc, ◌==◌, map, IsTrue};
ghost use Rattle.std.specs.List.{list_all};
ghost use Rattle.sn_osc.specs.Shape.{bundle, argument_of, body_of, message_of, shape, shapes};
ghost use Rattle.sn_osc.specs.Bytes.{has_no_null, fits_int, is_argument, is_body, is_message, is_packet};
ghost use Rattle.sn_osc.specs.Grammar.{IsSpellable};

use crate::decoding::{AT_ONCE, counts_as, is_early};
use crate::lengths::{TOO_MANY, packet_len};
use crate::packet::{Arg, Body, Bundle, Message, Packet};
use crate::reading::{are_argument_tags, begins_with};
use sn_ports::limits::MOST_BUNDLES;

fn has_no_null(s: &[u8]) -> bool
    ensures { result ≡ has_no_null s.now }
{
    s.iter().all(|byte| *byte != 0)
}

/// Each number of 32 bits has a spelling, so this is true of all. The definition asks it of numbers that may be larger.
fn is_int(n: i32) -> bool
    ensures { result ≡ fits_int n }
{
    let _ = n;
    true
}

fn is_argument(argument: &Arg) -> bool
    ensures { result ≡ is_argument (argument_of argument.now) }
{
    match argument {
        Arg::Int(n) => is_int(*n),
        Arg::Text(text) => has_no_null(text.as_slice()),
        Arg::Blob(_) => true,
    }
}

fn are_arguments(arguments: &[Arg]) -> bool
    ensures { result ≡ list_all is_argument (map argument_of arguments.now) }
{
    for argument in arguments {
        if !is_argument(argument) {
            return false;
        }
    }
    true
}

fn is_body(body: &Body) -> bool
    ensures { result ≡ is_body (body_of body.now) }
{
    match body {
        Body::Bare => true,
        Body::Args(arguments) => are_arguments(arguments.as_slice()),
        Body::Foreign { tags, rest } => {
            has_no_null(tags.as_slice())
                && !are_argument_tags(tags.as_slice())
                && rest.len() % 4 == 0
        }
    }
}

fn is_message(message: &Message) -> bool
    ensures { result ≡ is_message (message_of message.now) }
{
    let address = message.address.as_slice();
    begins_with(address, b'/') && has_no_null(address) && is_body(&message.body)
}

/// A bundle in one that counts as `around`, whose elements may nest `deep` levels.
#[cycle(spellable)]
fn is_bundle(item: &Bundle, deep: u32, around: u64) -> bool
    ensures { result ≡ is_packet (suc deep) around (bundle item.now.tag (shapes item.now.elements.items)) }
{
    if is_early(around, item.tag) {
        return false;
    }
    let around = counts_as(around, item.tag);
    for element in &item.elements {
        if !is_packet(element, deep, around) {
            return false;
        }
    }
    true
}

/// A packet in a bundle that counts as `around`, in which bundles may nest `deep` levels.
#[cycle(spellable)]
fn is_packet(packet: &Packet, deep: u32, around: u64) -> bool
    ensures { result ≡ is_packet deep around (shape packet.now) }
{
    match packet {
        Packet::Message(message) => is_message(message),
        Packet::Bundle(bundle) => deep > 0 && is_bundle(bundle, deep - 1, around),
    }
}

/// Whether the packet has a spelling shorter than 2^31 bytes.
pub fn spellable(packet: &Packet) -> bool
    ensures { IsTrue result ↔ IsSpellable (shape packet.now) }
{
    is_packet(packet, MOST_BUNDLES, AT_ONCE) && packet_len(packet) < TOO_MANY
}
