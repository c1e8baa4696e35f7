//! Packets read from all of their bytes. `end` is the place after the packet's last byte.
ghost use Rattle.std.specs.Prelude.{◌≡◌, ◌≤◌, ◌<◌, ◌+◌, length, map, IfOk, IsTrue, Ok, Err};
ghost use Rattle.sn_ports.specs.Limits.{most_packet};
ghost use Rattle.sn_osc.specs.Shape.{Shape, message, bundle, shape, shapes};
ghost use Rattle.sn_osc.specs.Bytes.{counts_as, is_early};
ghost use Rattle.sn_osc.specs.Grammar.{Spells};
ghost use Rattle.sn_osc.specs.Reading.{Gives, IfBad, tag_in, is_headed, element_at, elements_in, bundle_in, packet_in, read};
ghost use Rattle.sn_osc.specs.Faults.{FirstFault};
ghost use Rattle.sn_osc.specs.declared.fault.PacketFault.{PacketFault};

use crate::fault::{PacketKind, Undecoded};
use crate::packet::{Bundle, Elements, Message, Packet};
use crate::reading::{bad, begins_with, message, place, size};
use sn_ports::limits::{MOST_BUNDLES, MOST_PACKET};
use std::alloc::Global;

/// The tag that means "at once".
pub const AT_ONCE: u64 = 1;

/// The bytes of the first element's packet, and those after it.
#[tactic(auto, unfolding(crate::specs::Reading::element_at))]
fn element(end: u32, bytes: &[u8]) -> Result<(&[u8], &[u8]), Undecoded>
    requires { length bytes.now ≤ end }
    ensures value { Gives (λ x. (x.0.now, x.1.now)) result (element_at end bytes.now) }
    ensures front { IfOk result (λ x. length x.0.now + length x.1.now ≤ length bytes.now) }
    ensures shorter { IfOk result (λ x. length x.1.now < length bytes.now) }
{
    if bytes.len() < 4 {
        return Err(bad(PacketKind::ElementSize, place(end, bytes)));
    }
    let size = size(bytes) as usize;
    let rest = &bytes[4..];
    if size < 4 || size % 4 != 0 || rest.len() < size {
        return Err(bad(PacketKind::ElementSize, place(end, bytes)));
    }
    Ok(rest.split_at(size))
}

/// How many elements the bytes have, up to the first that is at fault.
fn count_elements(end: u32, bytes: &[u8]) -> usize
    requires { length bytes.now ≤ end }
{
    let mut count = 0;
    let mut rest = bytes;
    while let Ok((_, after)) = element(end, rest) {
        count += 1;
        rest = after;
    }
    count
}

fn tag(bytes: &[u8]) -> u64
    requires { 16 ≤ length bytes.now }
    ensures { result ≡ tag_in bytes.now }
{
    u64::from_be_bytes([
        bytes[8], bytes[9], bytes[10], bytes[11], bytes[12], bytes[13], bytes[14], bytes[15],
    ])
}

fn is_headed(bytes: &[u8]) -> bool
    ensures value { result ≡ is_headed bytes.now }
    ensures long { IsTrue result → 16 ≤ length bytes.now }
{
    bytes.len() >= 16 && bytes.starts_with(b"#bundle\0")
}

/// The tag that an enclosed tag counts as, in a bundle that counts as `around`.
pub fn counts_as(around: u64, tag: u64) -> u64
    ensures { result ≡ counts_as around tag }
{
    if tag == AT_ONCE { around } else { tag }
}

/// Whether an enclosed tag is earlier than that of the bundle around it, if neither means "at once".
pub fn is_early(around: u64, tag: u64) -> bool
    ensures { result ≡ is_early around tag }
{
    tag != AT_ONCE && around != AT_ONCE && tag < around
}

fn bundle_packet(tag: u64, elements: Elements) -> Packet
    ensures { shape result ≡ bundle tag (shapes elements.items) }
{
    Packet::Bundle(Bundle { tag, elements })
}

/// The elements of a bundle that counts as `around`.
#[cycle(decoding)]
fn elements(
    alloc: Global,
    deep: u32,
    around: u64,
    end: u32,
    bytes: &[u8],
) -> Result<Elements, Undecoded>
    requires { length bytes.now ≤ end }
    ensures { Gives (λ v. map shape v.items) result (elements_in (packet_in deep around) end (length bytes.now) bytes.now) }
{
    let mut elements = Vec::with_capacity(alloc, count_elements(end, bytes))?;
    let mut rest = bytes;
    while !rest.is_empty() {
        let (front, after) = element(end, rest)?;
        let packet = packet(alloc, deep, around, place(end, after), front)?;
        elements.push(packet)?;
        rest = after;
    }
    Ok(elements)
}

/// A bundle in one that counts as `around`, whose elements may nest `deep` levels.
#[cycle(decoding)]
#[tactic(auto, unfolding(crate::specs::Reading::bundle_in))]
fn bundle(
    alloc: Global,
    deep: u32,
    around: u64,
    end: u32,
    bytes: &[u8],
) -> Result<Packet, Undecoded>
    requires inside { length bytes.now ≤ end }
    requires long { 16 ≤ length bytes.now }
    ensures { Gives shape result (bundle_in (packet_in deep (counts_as around (tag_in bytes.now))) around end bytes.now) }
{
    let tag = tag(bytes);
    if is_early(around, tag) {
        return Err(bad(PacketKind::NestedEarly, place(end, bytes) + 8));
    }
    let elements = elements(alloc, deep, counts_as(around, tag), end, &bytes[16..])?;
    Ok(bundle_packet(tag, elements))
}

/// A packet in a bundle that counts as `around`, in which bundles may nest `deep` levels.
#[cycle(decoding)]
fn packet(
    alloc: Global,
    deep: u32,
    around: u64,
    end: u32,
    bytes: &[u8],
) -> Result<Packet, Undecoded>
    requires { length bytes.now ≤ end }
    ensures { Gives shape result (packet_in deep around end bytes.now) }
{
    if begins_with(bytes, b'/') {
        return Ok(Packet::Message(message(alloc, end, bytes)?));
    }
    if !begins_with(bytes, b'#') {
        return Err(bad(PacketKind::Start, place(end, bytes)));
    }
    if !is_headed(bytes) {
        return Err(bad(PacketKind::Head, place(end, bytes)));
    }
    if deep == 0 {
        return Err(bad(PacketKind::TooDeep, place(end, bytes)));
    }
    bundle(alloc, deep - 1, around, end, bytes)
}

/// What is read from the bytes, from left to right.
#[tactic(auto, unfolding(crate::specs::Reading::read))]
fn read(alloc: Global, bytes: &[u8]) -> Result<Packet, Undecoded>
    ensures { Gives shape result (read bytes.now) }
{
    if bytes.is_empty() || bytes.len() > MOST_PACKET || bytes.len() % 4 != 0 {
        return Err(bad(PacketKind::Size, 0));
    }
    packet(alloc, MOST_BUNDLES, AT_ONCE, bytes.len() as u32, bytes)
}

/// The packet that the bytes spell, as all of Open Sound Control 1.0 that this server takes, or their first fault.
///
/// Bundles nest no deeper than they may, and decoding goes no deeper, whatever the bytes say.
pub fn decode(alloc: Global, bytes: &[u8]) -> Result<Packet, Undecoded>
    // The answer is what reading from left to right gives, or `NoMemory`.
    ensures reads { Gives shape result (read bytes.now) }
    // A packet comes only if the bytes spell it, and a fault only if it is the first.
    ensures found { IfOk result (λ p. (length bytes.now ≤ most_packet) × Spells (shape p) bytes.now) }
    ensures bad { IfBad result (λ f. FirstFault bytes.now f.kind f.place) }
    // What is spelled is found, and what is at fault is refused, unless memory runs out.
    ensures only_found { (x : Shape) → length bytes.now ≤ most_packet → Spells x bytes.now → Gives shape result (Ok x) }
    ensures only_bad { (f : PacketFault) → FirstFault bytes.now f.kind f.place → Gives shape result (Err f) }
{
    read(alloc, bytes)
}
