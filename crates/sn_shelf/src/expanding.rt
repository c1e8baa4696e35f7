//! Packets in which `/b_allocRead` carries the samples of the file that it named.
ghost use Rattle.std.specs.Prelude.{◌≡◌, ◌⊎◌, ◌≤◌, ◌<◌, ◌+◌, ◌-◌, ◌*◌, ◌^◌, pos, List, ℕ, false, Err, IfOk, IfSome, length, map, option_map};
ghost use Rattle.sn_ports.specs.Limits.{most_packet, most_samples};
ghost use Rattle.sn_ports.specs.Causes.{Rose};
ghost use Rattle.sn_osc.specs.Grammar.{Spells};
ghost use Rattle.sn_osc.specs.Shape.{int, argument_of, message_of, shape, shapes, bundle};
ghost use Rattle.sn_shelf.specs.Asking.{asks, AllKeepUnasked};
ghost use Rattle.sn_shelf.specs.Expanded.{with_samples, expanded_message, expanded, expanded_elements, expanded_packets};
ghost use Rattle.sn_shelf.specs.ExpandedViews.{asked};
ghost use Rattle.sn_shelf.specs.Growth.{MessageGrows, Grows, AllGrow, IsSpelledWithin, AllSpelledWithin};
ghost use Rattle.sn_shelf.specs.Remembering.{Knows};
ghost use Rattle.sn_shelf.specs.WaveViews.{heard, IsWhole};

use crate::asking::asks;
use crate::fault::Unexpanded;
use crate::parts::{blob_of, is_possible, part_in};
use crate::reader::Reader;
use crate::requests::{Request, request_of};
use crate::traits::Shelf;
use crate::waves::Recording;
use sn_osc::{Arg, Args, Body, Bundle, Elements, Message, Packet};
use sn_ports::limits::MOST_SAMPLES;
use sn_ports::{NoMemory, Text};
use std::alloc::Global;

/// A number as an argument.
#[tactic(auto, using(crate::proofs::PartLemmas::number_again))]
fn number_argument(number: &i32) -> Arg
    ensures { argument_of result ≡ int number.now }
{
    Arg::Int(*number)
}

/// A count as an argument.
#[tactic(auto, using(crate::proofs::PartLemmas::count_pos))]
fn count_argument(count: u32) -> Arg
    requires { count < 2 ^ 31 }
    ensures { argument_of result ≡ int (pos count) }
{
    Arg::Int(count as i32)
}

/// The arguments that carry a part.
#[tactic(auto, using(crate::proofs::PartLemmas::heard_frames, crate::proofs::PartLemmas::frames_short))]
fn with_samples(
    alloc: Global,
    request: &Request<'_>,
    part: &Recording<'_>,
) -> Result<Args, NoMemory>
    requires whole { IsWhole part.now }
    requires room { part.now.frames * part.now.channels ≤ most_samples }
    ensures { IfOk result (λ xs. map argument_of xs ≡ with_samples (asked request.now) (heard part.now)) }
{
    let mut args = Vec::new(alloc);
    args.push(number_argument(&request.number))?;
    args.push(count_argument(part.frames))?;
    args.push(count_argument(part.channels))?;
    args.push(Arg::Blob(blob_of(alloc, part)?))?;
    if let Some(completion) = request.completion {
        args.push(Arg::Blob(Text::from_slice(alloc, completion.as_slice())?))?;
    }
    Ok(Args::from_vec(args))
}

/// A message, with the samples in place of the name of their file, if it asks for them and there is room.
#[tactic(auto, using(crate::proofs::ExpandedLemmas::told_unasked, crate::proofs::ExpandedLemmas::told_unfit, crate::proofs::GrowthLemmas::stays))]
fn fill_message<H: Shelf>(
    reader: &mut Reader,
    shelf: &mut H,
    message: Message,
    room: &mut u32,
) -> Result<Message, Unexpanded>
    requires room { room.old ≤ most_samples }
    requires knows { Knows (H.files shelf.old) reader.old.last }
    ensures told { IfSome (H.files shelf.old) (λ fs. IfOk result (λ m. (message_of m, room.new) ≡ expanded_message fs room.old (message_of message))) }
    ensures grows { IfOk result (λ m. MessageGrows (message_of message) (message_of m) room.old room.new) }
    ensures room { room.new ≤ room.old }
    ensures knows { Knows (H.files shelf.new) reader.new.last }
    ensures kept { H.files shelf.new ≡ H.files shelf.old }
    ensures later { H.faults shelf.old ≤ H.faults shelf.new }
    ensures failed { result ≡ Err Unexpanded.Failed → Rose (H.faults shelf.old) (H.faults shelf.new) }
    ensures unfailed { (result ≡ Err Unexpanded.Failed) ⊎ (H.faults shelf.new ≡ H.faults shelf.old) }
{
    let Some(request) = request_of(&message) else {
        return Ok(message);
    };
    if !is_possible(*room, &request) {
        return Ok(message);
    }
    reader.load(shelf, request.path)?;
    let Some(bytes) = reader.found() else {
        return Ok(message);
    };
    let Some(part) = part_in(*room, bytes, &request) else {
        return Ok(message);
    };
    let args = with_samples(reader.alloc, &request, &part)?;
    *room -= part.frames * part.channels;
    Ok(Message {
        address: message.address,
        body: Body::Args(args),
    })
}

fn bundle_packet(tag: u64, elements: Elements) -> Packet
    ensures { shape result ≡ bundle tag (shapes elements.items) }
{
    Packet::Bundle(Bundle { tag, elements })
}

/// The elements of a bundle, in order.
#[cycle(filling)]
#[tactic(auto, using(crate::proofs::ExpandedLemmas::none_yet, crate::proofs::GrowthLemmas::none_grow))]
fn fill_elements<H: Shelf>(
    reader: &mut Reader,
    shelf: &mut H,
    elements: Elements,
    room: &mut u32,
) -> Result<Elements, Unexpanded>
    requires room { room.old ≤ most_samples }
    requires knows { Knows (H.files shelf.old) reader.old.last }
    ensures told { IfSome (H.files shelf.old) (λ fs. IfOk result (λ xs. (shapes xs.items, room.new) ≡ expanded_elements fs room.old (shapes elements.items))) }
    ensures grows { IfOk result (λ xs. AllGrow (shapes elements.items) (shapes xs.items) room.old room.new) }
    ensures room { room.new ≤ room.old }
    ensures knows { Knows (H.files shelf.new) reader.new.last }
    ensures kept { H.files shelf.new ≡ H.files shelf.old }
    ensures later { H.faults shelf.old ≤ H.faults shelf.new }
    ensures failed { result ≡ Err Unexpanded.Failed → Rose (H.faults shelf.old) (H.faults shelf.new) }
    ensures unfailed { (result ≡ Err Unexpanded.Failed) ⊎ (H.faults shelf.new ≡ H.faults shelf.old) }
{
    let mut done = Vec::new(reader.alloc);
    for packet in elements {
        done.push(fill(reader, shelf, packet, room)?)?;
    }
    Ok(done)
}

/// A packet, with the samples in place of the names of their files.
#[cycle(filling)]
#[tactic(auto, using(crate::proofs::GrowthLemmas::message_grows))]
fn fill<H: Shelf>(
    reader: &mut Reader,
    shelf: &mut H,
    packet: Packet,
    room: &mut u32,
) -> Result<Packet, Unexpanded>
    requires room { room.old ≤ most_samples }
    requires knows { Knows (H.files shelf.old) reader.old.last }
    ensures told { IfSome (H.files shelf.old) (λ fs. IfOk result (λ p. (shape p, room.new) ≡ expanded fs room.old (shape packet))) }
    ensures grows { IfOk result (λ p. Grows (shape packet) (shape p) room.old room.new) }
    ensures room { room.new ≤ room.old }
    ensures knows { Knows (H.files shelf.new) reader.new.last }
    ensures kept { H.files shelf.new ≡ H.files shelf.old }
    ensures later { H.faults shelf.old ≤ H.faults shelf.new }
    ensures failed { result ≡ Err Unexpanded.Failed → Rose (H.faults shelf.old) (H.faults shelf.new) }
    ensures unfailed { (result ≡ Err Unexpanded.Failed) ⊎ (H.faults shelf.new ≡ H.faults shelf.old) }
{
    match packet {
        Packet::Message(message) => Ok(Packet::Message(fill_message(
            reader, shelf, message, room,
        )?)),
        Packet::Bundle(bundle) => {
            let tag = bundle.tag;
            let elements = fill_elements(reader, shelf, bundle.elements, room)?;
            Ok(bundle_packet(tag, elements))
        }
    }
}

/// A packet with the samples in place of the names of their files.
fn expand_by<H: Shelf>(
    reader: &mut Reader,
    shelf: &mut H,
    packet: Packet,
    room: &mut u32,
) -> Result<Packet, Unexpanded>
    requires room { room.old ≤ most_samples }
    requires knows { Knows (H.files shelf.old) reader.old.last }
    ensures told { IfSome (H.files shelf.old) (λ fs. IfOk result (λ p. (shape p, room.new) ≡ expanded fs room.old (shape packet))) }
    ensures unasked { IfOk result (λ p. asks (shape packet) ≡ false → (p ≡ packet) × (room.new ≡ room.old)) }
    ensures spelled { (bytes : List ℕ) → Spells (shape packet) bytes → length bytes ≤ most_packet
        → IfOk result (λ p. IsSpelledWithin (shape p) (2 * length bytes + 4 * (room.old - room.new))) }
    ensures room { room.new ≤ room.old }
    ensures knows { Knows (H.files shelf.new) reader.new.last }
    ensures kept { H.files shelf.new ≡ H.files shelf.old }
    ensures later { H.faults shelf.old ≤ H.faults shelf.new }
    ensures failed { result ≡ Err Unexpanded.Failed → Rose (H.faults shelf.old) (H.faults shelf.new) }
    ensures unfailed { (result ≡ Err Unexpanded.Failed) ⊎ (H.faults shelf.new ≡ H.faults shelf.old) }
{
    // Most packets ask for nothing, and needn't be taken apart.
    if !asks(&packet) {
        return Ok(packet);
    }
    fill(reader, shelf, packet, room)
}

/// A packet in which each `/b_allocRead` with the path of a file carries the file's samples, if the file has some that
/// this server plays and there is room for them. The room then grows less by as many. A message that is in a blob stays
/// as it is.
///
/// # Errors
///
/// `Failed` comes only if the shelf's count of faults rose. The room is then at most what it was.
pub fn expand<H: Shelf>(
    alloc: Global,
    shelf: &mut H,
    packet: Packet,
    room: &mut u32,
) -> Result<Packet, Unexpanded>
    requires { room.old ≤ most_samples }
    // What comes of the packet, if the shelf's files are known.
    ensures told { IfSome (H.files shelf.old) (λ fs. IfOk result (λ p. (shape p, room.new) ≡ expanded fs room.old (shape packet))) }
    // Known or not, a packet that asks for no file stays as it is, and so does the room.
    ensures unasked { IfOk result (λ p. asks (shape packet) ≡ false → (p ≡ packet) × (room.new ≡ room.old)) }
    // A packet that came in a stream has a spelling again, longer by no more than the samples that came in and its own
    // length.
    ensures spelled { (bytes : List ℕ) → Spells (shape packet) bytes → length bytes ≤ most_packet
        → IfOk result (λ p. IsSpelledWithin (shape p) (2 * length bytes + 4 * (room.old - room.new))) }
    ensures room { room.new ≤ room.old }
    ensures kept { H.files shelf.new ≡ H.files shelf.old }
    ensures later { H.faults shelf.old ≤ H.faults shelf.new }
    ensures failed { result ≡ Err Unexpanded.Failed → Rose (H.faults shelf.old) (H.faults shelf.new) }
    ensures unfailed { (result ≡ Err Unexpanded.Failed) ⊎ (H.faults shelf.new ≡ H.faults shelf.old) }
{
    expand_by(&mut Reader::new(alloc), shelf, packet, room)
}

/// The packets of a stream, each with the samples in place of the names of their files. At most 16,777,216 samples come
/// in.
#[tactic(auto, using(crate::proofs::StreamLemmas::none_told))]
pub fn expand_all<H: Shelf>(
    alloc: Global,
    shelf: &mut H,
    packets: Elements,
) -> Result<Elements, Unexpanded>
    requires { AllSpelledWithin most_packet (map shape packets.items) }
    // What comes of the packets, if the shelf's files are known.
    ensures told { IfSome (H.files shelf.old) (λ fs. IfOk result (λ v. map shape v.items ≡ expanded_packets fs (map shape packets.items))) }
    // Known or not, they are as many. Each that asks for no file stays as it is, and each has a spelling of at most
    // 2^27 bytes.
    ensures unasked { IfOk result (λ v. AllKeepUnasked (map shape packets.items) (map shape v.items)) }
    ensures spelled { IfOk result (λ v. AllSpelledWithin (2 ^ 27) (map shape v.items)) }
    ensures count { IfOk result (λ v. length v.items ≡ length packets.items) }
    ensures kept { H.files shelf.new ≡ H.files shelf.old }
    ensures later { H.faults shelf.old ≤ H.faults shelf.new }
    ensures failed { result ≡ Err Unexpanded.Failed → Rose (H.faults shelf.old) (H.faults shelf.new) }
    ensures unfailed { (result ≡ Err Unexpanded.Failed) ⊎ (H.faults shelf.new ≡ H.faults shelf.old) }
{
    let mut room = MOST_SAMPLES;
    let mut reader = Reader::new(alloc);
    let mut done = Vec::new(alloc);
    for packet in packets {
        done.push(expand_by(&mut reader, shelf, packet, &mut room)?)?;
    }
    Ok(done)
}
