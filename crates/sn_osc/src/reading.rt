//! The data of a message, read from the bytes that are left of it. `end` is the place after the message's last byte.
ghost use Rattle.std.specs.Prelude.{◌≡◌, ◌≤◌, ◌<◌, ◌-◌, ◌==◌, not, length, map, drop, position, IfOk, FitsSigned};
ghost use Rattle.std.specs.Int.{w32};
ghost use Rattle.std.specs.List.{list_all};
ghost use Rattle.sn_osc.specs.declared.fault.Undecoded.TheVariants as undecoded;
ghost use Rattle.sn_osc.specs.Shape.{argument_of, body_of, message_of};
ghost use Rattle.sn_osc.specs.Bytes.{is_argument_tag, begins_with};
ghost use Rattle.sn_osc.specs.Reading.{Gives, int_in, size_in, text_len, null_len, is_ended, padded_at, string_at, blob_at, argument_at, arguments_at, tags_at, arguments_in, body_in, message_in};

use crate::fault::{PacketFault, PacketKind, Undecoded};
use crate::packet::{Address, Arg, Args, Body, Message};
use sn_ports::Text;
use std::alloc::Global;

/// A fault at a place.
pub fn bad(kind: PacketKind, place: u32) -> Undecoded
    ensures { result ≡ undecoded.Bad (record { kind = kind; place = place }) }
{
    Undecoded::Bad(PacketFault { kind, place })
}

/// The place of the first byte that is left.
pub fn place(end: u32, bytes: &[u8]) -> u32
    requires { length bytes.now ≤ end }
    ensures { result ≡ end - length bytes.now }
{
    end - bytes.len() as u32
}

fn first_null(bytes: &[u8]) -> Option<usize>
    ensures { result ≡ position (λ b. b == 0) bytes.now }
{
    bytes.iter().position(|b| *b == 0)
}

fn first_other(bytes: &[u8]) -> Option<usize>
    ensures { result ≡ position (λ b. not (b == 0)) bytes.now }
{
    bytes.iter().position(|b| *b != 0)
}

/// How many bytes stand before the first null byte.
fn text_len(bytes: &[u8]) -> usize
    ensures value { result ≡ text_len bytes.now }
    ensures bound { result ≤ length bytes.now }
{
    first_null(bytes).unwrap_or(bytes.len())
}

/// How many null bytes stand at the start.
fn null_len(bytes: &[u8]) -> usize
    ensures value { result ≡ null_len bytes.now }
    ensures bound { result ≤ length bytes.now }
{
    first_other(bytes).unwrap_or(bytes.len())
}

/// The first `len` bytes, and what follows the first `whole`. What lies between is padding.
fn padded(end: u32, len: usize, whole: usize, bytes: &[u8]) -> Result<(&[u8], &[u8]), Undecoded>
    requires inside { length bytes.now ≤ end }
    requires order { len ≤ whole }
    requires there { whole ≤ length bytes.now }
    ensures value { Gives (λ x. (x.0.now, x.1.now)) result (padded_at end len whole bytes.now) }
    ensures shorter { IfOk result (λ x. length x.1.now ≤ length bytes.now) }
{
    let (front, rest) = bytes.split_at(whole);
    let (text, padding) = front.split_at(len);
    let nulls = null_len(padding);
    if nulls < padding.len() {
        return Err(bad(
            PacketKind::Padding,
            place(end, bytes) + (len + nulls) as u32,
        ));
    }
    Ok((text, rest))
}

fn is_ended(bytes: &[u8]) -> bool
    ensures { result ≡ is_ended bytes.now }
{
    let len = text_len(bytes);
    is_ended_at(len, bytes)
}

/// Whether the null bytes after a string of `len` bytes are there.
fn is_ended_at(len: usize, bytes: &[u8]) -> bool
    requires value { len ≡ text_len bytes.now }
    requires bound { len ≤ length bytes.now }
    ensures { result ≡ is_ended bytes.now }
{
    len + (4 - len % 4) <= bytes.len()
}

#[tactic(auto, unfolding(crate::specs::Reading::string_at))]
fn string(end: u32, bytes: &[u8]) -> Result<(&[u8], &[u8]), Undecoded>
    requires { length bytes.now ≤ end }
    ensures value { Gives (λ x. (x.0.now, x.1.now)) result (string_at end bytes.now) }
    ensures shorter { IfOk result (λ x. length x.1.now ≤ length bytes.now) }
{
    let len = text_len(bytes);
    if !is_ended_at(len, bytes) {
        return Err(bad(PacketKind::Unended, place(end, bytes)));
    }
    padded(end, len, len + (4 - len % 4), bytes)
}

/// The size in the first 4 bytes.
pub fn size(bytes: &[u8]) -> u32
    requires { 4 ≤ length bytes.now }
    ensures { result ≡ size_in bytes.now }
{
    u32::from_be_bytes([bytes[0], bytes[1], bytes[2], bytes[3]])
}

#[tactic(auto, unfolding(crate::specs::Reading::blob_at))]
fn blob(end: u32, bytes: &[u8]) -> Result<(&[u8], &[u8]), Undecoded>
    requires inside { length bytes.now ≤ end }
    requires long { 4 ≤ length bytes.now }
    ensures value { Gives (λ x. (x.0.now, x.1.now)) result (blob_at end bytes.now) }
    ensures shorter { IfOk result (λ x. length x.1.now ≤ length bytes.now) }
{
    let len = size(bytes) as usize;
    let whole = len + (4 - len % 4) % 4;
    let rest = &bytes[4..];
    if whole > rest.len() {
        return Err(bad(PacketKind::BlobSize, place(end, bytes)));
    }
    padded(end, len, whole, rest)
}

/// The number in the first 4 bytes.
pub fn int(bytes: &[u8]) -> i32
    requires { 4 ≤ length bytes.now }
    ensures value { result ≡ int_in bytes.now }
    ensures fits { FitsSigned w32 result }
{
    i32::from_be_bytes([bytes[0], bytes[1], bytes[2], bytes[3]])
}

/// The argument of a tag, and the bytes after it.
#[tactic(auto, unfolding(crate::specs::Reading::argument_at))]
fn argument(alloc: Global, end: u32, tag: u8, bytes: &[u8]) -> Result<(Arg, &[u8]), Undecoded>
    requires { length bytes.now ≤ end }
    ensures value { Gives (λ x. (argument_of x.0, x.1.now)) result (argument_at end tag bytes.now) }
    ensures shorter { IfOk result (λ x. length x.1.now ≤ length bytes.now) }
{
    if bytes.len() < 4 {
        return Err(bad(PacketKind::ShortArgs, end));
    }
    if tag == b'i' {
        return Ok((Arg::Int(int(bytes)), &bytes[4..]));
    }
    if tag == b's' {
        let (text, rest) = string(end, bytes)?;
        return Ok((Arg::Text(Text::from_slice(alloc, text)?), rest));
    }
    let (content, rest) = blob(end, bytes)?;
    Ok((Arg::Blob(Text::from_slice(alloc, content)?), rest))
}

/// One argument for each tag, and the bytes after them.
fn arguments<'a>(
    alloc: Global,
    end: u32,
    tags: &[u8],
    bytes: &'a [u8],
) -> Result<(Args, &'a [u8]), Undecoded>
    requires { length bytes.now ≤ end }
    ensures value { Gives (λ x. (map argument_of x.0, x.1.now)) result (arguments_at end tags.now bytes.now) }
    ensures shorter { IfOk result (λ x. length x.1.now ≤ length bytes.now) }
{
    let mut items = Vec::with_capacity(alloc, tags.len())?;
    let mut rest = bytes;
    for tag in tags {
        let (argument, after) = argument(alloc, end, *tag, rest)?;
        items.push(argument)?;
        rest = after;
    }
    Ok((Args::from_vec(items), rest))
}

/// One argument for each tag, up to the end of the bytes.
#[tactic(auto, unfolding(crate::specs::Reading::arguments_in))]
fn all_arguments(alloc: Global, end: u32, tags: &[u8], bytes: &[u8]) -> Result<Args, Undecoded>
    requires { length bytes.now ≤ end }
    ensures { Gives (map argument_of) result (arguments_in end tags.now bytes.now) }
{
    let (args, rest) = arguments(alloc, end, tags, bytes)?;
    if !rest.is_empty() {
        return Err(bad(PacketKind::LongArgs, place(end, rest)));
    }
    Ok(args)
}

/// The tags after the comma, and the bytes after them.
#[tactic(auto, unfolding(crate::specs::Reading::tags_at))]
fn tags(end: u32, bytes: &[u8]) -> Result<(&[u8], &[u8]), Undecoded>
    requires { length bytes.now ≤ end }
    ensures value { Gives (λ x. (x.0.now, x.1.now)) result (tags_at end bytes.now) }
    ensures shorter { IfOk result (λ x. length x.1.now ≤ length bytes.now) }
{
    if is_ended(bytes) && !begins_with(bytes, b',') {
        return Err(bad(PacketKind::NoTags, place(end, bytes)));
    }
    let (tagged, rest) = string(end, bytes)?;
    Ok((after_comma(tagged), rest))
}

fn after_comma(tagged: &[u8]) -> &[u8]
    ensures { result.now ≡ drop 1 tagged.now }
{
    match tagged {
        [_, tags @ ..] => tags,
        [] => tagged,
    }
}

/// Whether the first byte is this one.
pub fn begins_with(bytes: &[u8], first: u8) -> bool
    ensures { result ≡ begins_with first bytes.now }
{
    match bytes {
        [byte, ..] => *byte == first,
        [] => false,
    }
}

/// Whether each tag is `i`, `s` or `b`.
pub fn are_argument_tags(tags: &[u8]) -> bool
    ensures { result ≡ list_all is_argument_tag tags.now }
{
    tags.iter()
        .all(|tag| *tag == b'i' || *tag == b's' || *tag == b'b')
}

#[tactic(auto, unfolding(crate::specs::Reading::body_in))]
fn body(alloc: Global, end: u32, bytes: &[u8]) -> Result<Body, Undecoded>
    requires { length bytes.now ≤ end }
    ensures { Gives body_of result (body_in end bytes.now) }
{
    if bytes.is_empty() {
        return Ok(Body::Bare);
    }
    let (tags, rest) = tags(end, bytes)?;
    if are_argument_tags(tags) {
        return Ok(Body::Args(all_arguments(alloc, end, tags, rest)?));
    }
    Ok(Body::Foreign {
        tags: Text::from_slice(alloc, tags)?,
        rest: Text::from_slice(alloc, rest)?,
    })
}

/// The message of all of the bytes.
#[tactic(auto, unfolding(crate::specs::Reading::message_in))]
pub fn message(alloc: Global, end: u32, bytes: &[u8]) -> Result<Message, Undecoded>
    requires { length bytes.now ≤ end }
    ensures { Gives message_of result (message_in end bytes.now) }
{
    let (address, rest) = string(end, bytes)?;
    Ok(Message {
        address: Address::from_slice(alloc, address)?,
        body: body(alloc, end, rest)?,
    })
}
