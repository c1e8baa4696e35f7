//! Parts of a recording, and their samples as the bytes of a blob.
ghost use Rattle.std.specs.Prelude.{◌≡◌, ◌≤◌, ◌⊎◌, ◌+◌, ◌*◌, ◌++◌, drop, length, IfSome, IfOk, OnOk};
ghost use Rattle.std.specs.List.{flat_map};
ghost use Rattle.sn_ports.specs.Limits.{most_samples};
ghost use Rattle.sn_osc.specs.Bytes.{int_bytes};
ghost use Rattle.sn_shelf.specs.Waves.{sample_of, sample_16, sample_24, samples_of};
ghost use Rattle.sn_shelf.specs.WaveViews.{heard, IsWhole, Finds};
ghost use Rattle.sn_shelf.specs.Expanded.{natural, is_possible, frames_taken, part_of, part_within, part_in};

use crate::requests::Request;
use crate::waves::{Recording, recording_in};
use sn_ports::{NoMemory, Text};
use std::alloc::Global;

/// A number that is at least 0.
#[tactic(auto, using(crate::proofs::PartLemmas::natural_some, crate::proofs::PartLemmas::natural_none))]
fn natural(n: &i32) -> Option<u32>
    ensures { result ≡ natural n.now }
{
    if *n < 0 {
        return None;
    }
    Some(n.unsigned_abs())
}

/// How many of the frames that are left: as many as wanted, or all if 0 is wanted or there are fewer.
fn frames_taken(left: u32, wanted: u32) -> u32
    ensures value { result ≡ frames_taken left wanted }
    ensures few { result ≤ left }
{
    if wanted == 0 || left < wanted {
        return left;
    }
    wanted
}

/// How many bytes `frames` frames of a recording have.
#[tactic(auto, using(crate::proofs::PartLemmas::frame_bytes_few, crate::proofs::PartLemmas::bytes_few, crate::proofs::PartLemmas::bytes_there))]
fn bytes_of(recording: &Recording<'_>, frames: u32) -> usize
    requires whole { IsWhole recording.now }
    requires frames { frames ≤ recording.now.frames }
    ensures value { result ≡ frames * recording.now.channels * recording.now.width }
    ensures there { result ≤ length recording.now.sounding.now }
{
    frames as usize * recording.channels as usize * recording.width as usize
}

/// The bytes from a place on.
fn from_byte(bytes: &[u8], at: usize) -> &[u8]
    ensures { result.now ≡ drop at bytes.now }
{
    bytes.get(at..).unwrap_or(&[])
}

/// `frames` frames of a recording, from frame `start` on.
#[tactic(auto, using(crate::proofs::PartLemmas::cut_heard, crate::proofs::PartLemmas::cut_whole))]
fn cut<'a>(whole: &Recording<'a>, start: u32, frames: u32) -> Recording<'a>
    requires whole { IsWhole whole.now }
    requires some { 1 ≤ frames }
    requires there { start + frames ≤ whole.now.frames }
    ensures value { heard result ≡ part_of (heard whole.now) start frames }
    ensures whole { IsWhole result }
    ensures frames { result.frames ≡ frames }
    ensures channels { result.channels ≡ whole.now.channels }
{
    Recording {
        channels: whole.channels,
        width: whole.width,
        frames,
        sounding: from_byte(whole.sounding, bytes_of(whole, start)),
    }
}

/// The wanted frames from `start` on, if the recording has that one and there is room for their samples.
#[tactic(auto, using(crate::proofs::PartLemmas::starts_late, crate::proofs::PartLemmas::no_space, crate::proofs::PartLemmas::has_space, crate::proofs::PartLemmas::some_taken))]
fn part_within<'a>(
    room: u32,
    whole: &Recording<'a>,
    start: u32,
    wanted: u32,
) -> Option<Recording<'a>>
    requires { IsWhole whole.now }
    ensures value { Finds heard result (part_within room (heard whole.now) start wanted) }
    ensures whole { IfSome result IsWhole }
    ensures room { IfSome result (λ p. p.frames * p.channels ≤ room) }
{
    if start >= whole.frames {
        return None;
    }
    let frames = frames_taken(whole.frames - start, wanted);
    if u64::from(frames) * u64::from(whole.channels) > u64::from(room) {
        return None;
    }
    Some(cut(whole, start, frames))
}

/// Whether some file can meet a request: its numbers are at least 0, and there is room.
pub(crate) fn is_possible(room: u32, request: &Request<'_>) -> bool
    ensures { result ≡ is_possible room request.now.start request.now.frames }
{
    natural(&request.start).is_some() && natural(&request.frames).is_some() && room > 0
}

/// The part of a file that a request names by its first frame and the number of its frames, if there is room for it.
#[tactic(auto, unfolding(crate::specs::Expanded::part_in))]
pub fn part_in<'a>(room: u32, bytes: &'a [u8], request: &Request<'_>) -> Option<Recording<'a>>
    ensures value { Finds heard result (part_in room bytes.now request.now.start request.now.frames) }
    ensures whole { IfSome result IsWhole }
    ensures room { IfSome result (λ p. p.frames * p.channels ≤ room) }
{
    let start = natural(&request.start)?;
    let wanted = natural(&request.frames)?;
    let whole = recording_in(bytes)?;
    part_within(room, &whole, start, wanted)
}

fn sample_16(bytes: &[u8]) -> i32
    requires { 2 ≤ length bytes.now }
    ensures { result ≡ sample_16 bytes.now }
{
    i32::from(i16::from_le_bytes([bytes[0], bytes[1]])) * 512
}

/// Two's complement of 24 bits, times 2.
fn sample_24(bytes: &[u8]) -> i32
    requires { length bytes.now ≡ 3 }
    ensures { result ≡ sample_24 bytes.now }
{
    let value = u32::from_le_bytes([bytes[0], bytes[1], bytes[2], 0]) as i32;
    if value < 8388608 {
        return value * 2;
    }
    (value - 16777216) * 2
}

/// The first sample, of 2 bytes or of 3.
fn sample_of(width: usize, bytes: &[u8]) -> i32
    requires width { (width ≡ 2) ⊎ (width ≡ 3) }
    requires there { width ≤ length bytes.now }
    ensures { result ≡ sample_of width bytes.now }
{
    if width == 2 {
        return sample_16(&bytes[..2]);
    }
    sample_24(&bytes[..3])
}

/// Appends `count` samples, each as a big-endian integer.
fn put_samples(out: &mut Text, count: u32, width: usize, bytes: &[u8]) -> Result<(), NoMemory>
    requires width { (width ≡ 2) ⊎ (width ≡ 3) }
    requires there { count * width ≤ length bytes.now }
    ensures { OnOk result (out.new.bytes ≡ out.old.bytes ++ flat_map int_bytes (samples_of count width bytes.now)) }
{
    let mut left = count;
    let mut rest = bytes;
    while left > 0 {
        out.append(&sample_of(width, rest).to_be_bytes())?;
        rest = from_byte(rest, width);
        left -= 1;
    }
    Ok(())
}

/// The samples of a part, each as a big-endian integer.
pub fn blob_of(alloc: Global, part: &Recording<'_>) -> Result<Text, NoMemory>
    requires whole { IsWhole part.now }
    requires room { part.now.frames * part.now.channels ≤ most_samples }
    ensures { IfOk result (λ t. t.bytes ≡ flat_map int_bytes (heard part.now).samples) }
{
    let count = part.frames * part.channels;
    let mut out = Text::new(alloc);
    out.reserve(4 * count)?;
    put_samples(&mut out, count, part.width as usize, part.sounding)?;
    Ok(out)
}
