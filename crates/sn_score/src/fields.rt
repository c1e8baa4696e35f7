//! Fields of a score, read. If something isn't written as it should be, they may give anything. The reader of a line
//! therefore compares it with the line that is written for what was read.
ghost use Rattle.std.specs.Prelude.{◌≡◌, ◌≤◌, ◌<◌, ◌+◌, ◌*◌, ◌%◌, min, length, take, drop, map, slice_index, position, ◌==◌, IfOk, FitsSigned};
ghost use Rattle.std.specs.Int.{w32};
ghost use Rattle.sn_osc.specs.Shape.{argument_of, body_of, message_of};
ghost use Rattle.sn_osc.specs.Bytes.{begins_with};
ghost use Rattle.sn_score.specs.Fields.{nibble, hex_value, unhex, natural_after, natural, signed, word_len, is_closed, byte_at, unquoted, word_at, argument_at, arguments_at, foreign_at, body_at, address_at, message_at, tag_at};

use sn_osc::{Address, Arg, Args, Body, Message};
use sn_ports::{NoMemory, Text};
use std::alloc::Global;

/// The number of a hexadecimal digit.
fn nibble(digit: u8) -> u8
    ensures value { result ≡ nibble digit }
    ensures few { result < 16 }
{
    if digit < 58 {
        return digit % 16;
    }
    (digit % 16 + 9) % 16
}

/// The byte of two digits.
fn hex_value(high: u8, low: u8) -> u8
    ensures { result ≡ hex_value high low }
{
    nibble(high) * 16 + nibble(low)
}

/// The byte at a place, or 0 if there is none.
fn byte(bytes: &[u8], place: usize) -> u8
    ensures { result ≡ slice_index bytes.now place }
{
    match bytes.get(place) {
        Some(byte) => *byte,
        None => 0,
    }
}

/// What follows the first bytes.
fn skip(bytes: &[u8], count: usize) -> &[u8]
    ensures { result.now ≡ drop count bytes.now }
{
    &bytes[count.min(bytes.len())..]
}

/// Whether the first byte is this one.
pub(crate) fn begins_with(bytes: &[u8], first: u8) -> bool
    ensures { result ≡ begins_with first bytes.now }
{
    match bytes {
        [byte, ..] => *byte == first,
        [] => false,
    }
}

/// The byte of the first two digits, and what follows them.
fn hex_byte(digits: &[u8]) -> (u8, &[u8])
    requires { 2 ≤ length digits.now }
    ensures byte { result.0 ≡ hex_value (slice_index digits.now 0) (slice_index digits.now 1) }
    ensures rest { result.1.now ≡ drop 2 digits.now }
    ensures shorter { length result.1.now < length digits.now }
{
    (hex_value(byte(digits, 0), byte(digits, 1)), skip(digits, 2))
}

/// A byte of each two digits.
fn unhex(alloc: Global, digits: &[u8]) -> Result<Text, NoMemory>
    ensures { IfOk result (λ t. t.bytes ≡ unhex digits.now) }
{
    let mut bytes = Text::new(alloc);
    let mut rest = digits;
    while rest.len() >= 2 {
        let (byte, after) = hex_byte(rest);
        bytes.append(&[byte])?;
        rest = after;
    }
    Ok(bytes)
}

/// One more digit of a number of 32 bits.
fn with_digit(number: u32, digit: u8) -> u32
    ensures { result ≡ min (number * 10 + digit % 16) 4294967295 }
{
    (u64::from(number) * 10 + u64::from(digit % 16)).min(4294967295) as u32
}

/// The number of decimal digits.
fn natural(digits: &[u8]) -> u32
    ensures { result ≡ natural digits.now }
{
    let mut number = 0;
    for digit in digits {
        number = with_digit(number, *digit);
    }
    number
}

/// The number of decimal digits, of which `-` may stand first.
#[tactic(auto, unfolding(crate::specs::Fields::signed))]
fn signed(word: &[u8]) -> i32
    ensures value { result ≡ signed word.now }
    ensures fits { FitsSigned w32 result }
{
    if begins_with(word, b'-') {
        return natural(skip(word, 1)).wrapping_neg().cast_signed();
    }
    natural(word).cast_signed()
}

fn first_space(bytes: &[u8]) -> Option<usize>
    ensures { result ≡ position (λ b. b == 32) bytes.now }
{
    bytes.iter().position(|b| *b == b' ')
}

/// How many bytes stand before the first space.
fn word_len(bytes: &[u8]) -> usize
    ensures value { result ≡ word_len bytes.now }
    ensures bound { result ≤ length bytes.now }
{
    first_space(bytes).unwrap_or(bytes.len())
}

/// Whether a quoted text ends here.
fn is_closed(bytes: &[u8]) -> bool
    ensures { result ≡ is_closed bytes.now }
{
    bytes.is_empty() || begins_with(bytes, b'"')
}

/// A byte of a quoted text, and what follows it.
fn quoted_byte(bytes: &[u8]) -> (u8, &[u8])
    requires { 0 < length bytes.now }
    ensures byte { result.0 ≡ (byte_at bytes.now).0 }
    ensures rest { result.1.now ≡ (byte_at bytes.now).1 }
    ensures shorter { length result.1.now < length bytes.now }
{
    if byte(bytes, 0) != b'\\' {
        return (byte(bytes, 0), skip(bytes, 1));
    }
    if byte(bytes, 1) != b'x' {
        return (byte(bytes, 1), skip(bytes, 2));
    }
    (hex_value(byte(bytes, 2), byte(bytes, 3)), skip(bytes, 4))
}

/// A quoted text after its first `"`, and what follows its end.
fn unquoted(alloc: Global, bytes: &[u8]) -> Result<(Text, &[u8]), NoMemory>
    ensures text { IfOk result (λ x. x.0.bytes ≡ (unquoted bytes.now).0) }
    ensures rest { IfOk result (λ x. x.1.now ≡ (unquoted bytes.now).1) }
    ensures shorter { IfOk result (λ x. length x.1.now ≤ length bytes.now) }
{
    let mut text = Text::new(alloc);
    let mut rest = bytes;
    while !is_closed(rest) {
        let (byte, after) = quoted_byte(rest);
        text.append(&[byte])?;
        rest = after;
    }
    Ok((text, skip(rest, 1)))
}

/// A blob or a number.
fn word(alloc: Global, word: &[u8]) -> Result<Arg, NoMemory>
    ensures { IfOk result (λ a. argument_of a ≡ word_at word.now) }
{
    if begins_with(word, b'#') {
        return Ok(Arg::Blob(unhex(alloc, skip(word, 1))?));
    }
    Ok(Arg::Int(signed(word)))
}

/// The first argument, and what follows it.
#[tactic(auto, unfolding(crate::specs::Fields::argument_at))]
fn argument(alloc: Global, bytes: &[u8]) -> Result<(Arg, &[u8]), NoMemory>
    ensures argument { IfOk result (λ x. argument_of x.0 ≡ (argument_at bytes.now).0) }
    ensures rest { IfOk result (λ x. x.1.now ≡ (argument_at bytes.now).1) }
    ensures shorter { IfOk result (λ x. length x.1.now ≤ length bytes.now) }
{
    if begins_with(bytes, b'"') {
        let (text, rest) = unquoted(alloc, skip(bytes, 1))?;
        return Ok((Arg::Text(text), rest));
    }
    let (front, rest) = bytes.split_at(word_len(bytes));
    Ok((word(alloc, front)?, rest))
}

/// The arguments, each after a space.
fn arguments(alloc: Global, bytes: &[u8]) -> Result<Args, NoMemory>
    ensures { IfOk result (λ a. map argument_of a ≡ arguments_at (length bytes.now) bytes.now) }
{
    let mut items = Vec::new(alloc);
    let mut rest = bytes;
    while !rest.is_empty() {
        let (argument, after) = argument(alloc, skip(rest, 1))?;
        items.push(argument)?;
        rest = after;
    }
    Ok(Args::from_vec(items))
}

/// Quoted tags after their first `"`, and a blob.
fn foreign(alloc: Global, bytes: &[u8]) -> Result<Body, NoMemory>
    ensures { IfOk result (λ b. body_of b ≡ foreign_at bytes.now) }
{
    let (tags, rest) = unquoted(alloc, bytes)?;
    Ok(Body::Foreign {
        tags,
        rest: unhex(alloc, skip(rest, 2))?,
    })
}

/// What follows an address.
#[tactic(auto, unfolding(crate::specs::Fields::body_at))]
fn body(alloc: Global, bytes: &[u8]) -> Result<Body, NoMemory>
    ensures { IfOk result (λ b. body_of b ≡ body_at bytes.now) }
{
    if bytes.is_empty() {
        return Ok(Body::Bare);
    }
    if bytes == b" ()".as_slice() {
        return Ok(Body::Args(Args::from_vec(Vec::new(alloc))));
    }
    if byte(bytes, 1) == b'?' {
        return foreign(alloc, skip(bytes, 3));
    }
    Ok(Body::Args(arguments(alloc, bytes)?))
}

/// The address, and what follows it.
#[tactic(auto, unfolding(crate::specs::Fields::address_at))]
fn address(alloc: Global, line: &[u8]) -> Result<(Address, &[u8]), NoMemory>
    ensures address { IfOk result (λ x. x.0.bytes ≡ (address_at line.now).0) }
    ensures rest { IfOk result (λ x. x.1.now ≡ (address_at line.now).1) }
{
    if begins_with(line, b'"') {
        let (bytes, rest) = unquoted(alloc, skip(line, 1))?;
        return Ok((Address::from_slice(alloc, bytes.as_slice())?, rest));
    }
    let (front, rest) = line.split_at(word_len(line));
    Ok((Address::from_slice(alloc, front)?, rest))
}

/// The message of a line.
#[tactic(auto, unfolding(crate::specs::Fields::message_at))]
pub(crate) fn message(alloc: Global, line: &[u8]) -> Result<Message, NoMemory>
    ensures { IfOk result (λ m. message_of m ≡ message_at line.now) }
{
    let (address, rest) = address(alloc, line)?;
    Ok(Message {
        address,
        body: body(alloc, rest)?,
    })
}

/// The tag of a bundle's first line.
#[tactic(auto, unfolding(crate::specs::Fields::tag_at))]
pub(crate) fn tag(line: &[u8]) -> u64
    ensures { result ≡ tag_at line.now }
{
    let halves = skip(line, 2);
    let len = word_len(halves);
    let seconds = natural(&halves[..len]);
    let fraction = natural(skip(halves, len + 1));
    u64::from(seconds) * (1 << 32) + u64::from(fraction)
}
