//! The samples of a buffer: gathered into blocks, and set to those of blocks.
ghost use Rattle.std.specs.Prelude.{◌≡◌, ◌<◌, ◌≤◌, ◌+◌, ◌*◌, Some, None, IfSome, length, pos, replicate, slice_index_or};
ghost use Rattle.std.specs.Option.{option_map};
ghost use Rattle.sn_ports.specs.Limits.{block_frames};
ghost use Rattle.sn_mem.specs.Words.{MayRead, MayWrite, SameButWords};
ghost use Rattle.sn_mem.specs.Blocks.{table};
ghost use Rattle.sn_mem.specs.Buffers.{buffer_of};
ghost use Rattle.sn_io.specs.BufferUnits.{sample_at, sample_between, set_frame, set_at, scattered};
ghost use Rattle.sn_io.specs.BuffersOverWords.{set_word, onto_buffer, gathered_from, between_from, place_frames};
ghost use Rattle.sn_io.specs.Conditions.{IsWhole, IsWholeIfSome, MayReadBuffer, MayWriteBuffer, AreWithin, LiesWithin, AreBetween};

use crate::between::{Point, Points, between};
use crate::positions::Frames;
use sn_mem::{Block, Blocks, BufferPlace, Port, sample_of, word_of};
use sn_ports::limits::BLOCK_FRAMES;

/// The word of a sample.
#[tactic(auto, using(crate::proofs::Words::within, crate::proofs::Words::frames_below))]
fn word_at(place: BufferPlace, frame: u32, channel: u32) -> u32
    requires frame { frame < place.frames }
    requires channel { channel < place.channels }
    requires size { place.extent.len ≡ place.frames * place.channels }
    requires below { place.extent.at + place.extent.len < 4294967296 }
    ensures value { result ≡ place.extent.at + (frame * place.channels + channel) }
    ensures inside { frame * place.channels + channel < place.extent.len }
{
    place.extent.at + (frame * place.channels + channel)
}

/// The sample of a channel at a frame, or 0 if there is none.
fn sample_at<P: Port>(port: &mut P, place: BufferPlace, frame: Option<u32>, channel: u32) -> i32
    requires whole { IsWhole place }
    requires reads { MayRead (P.foot port.old) place.extent.at place.extent.len }
    requires channel { channel < place.channels }
    requires frame { IfSome frame (λ i. i < place.frames) }
    ensures value { result ≡ sample_at (Some (buffer_of (P.words port.old) place)) frame channel }
    ensures words { P.words port.new ≡ P.words port.old }
    ensures port { SameButWords P.foot P.rest port.old port.new }
{
    match frame {
        Some(frame) => {
            let word = port.load(word_at(place, frame, channel));
            sample_of(word)
        }
        None => 0,
    }
}

/// A channel of a buffer at a block of its frames.
fn gather_channel<P: Port>(port: &mut P, place: BufferPlace, frames: &Frames, channel: u32) -> Block
    requires whole { IsWhole place }
    requires reads { MayRead (P.foot port.old) place.extent.at place.extent.len }
    requires channel { channel < place.channels }
    requires frames { AreWithin (Some place.frames) frames.now }
    ensures value { result ≡ table (λ k. sample_at (Some (buffer_of (P.words port.old) place)) (slice_index_or frames.now k None) channel) block_frames }
    ensures words { P.words port.new ≡ P.words port.old }
    ensures port { SameButWords P.foot P.rest port.old port.new }
{
    let mut samples = [0i32; BLOCK_FRAMES];
    for frame in 0..BLOCK_FRAMES {
        samples[frame] = sample_at(port, place, frames[frame], channel);
    }
    samples
}

/// A block of silence.
fn silence() -> Block
    ensures { result ≡ replicate block_frames (pos 0) }
{
    [0; BLOCK_FRAMES]
}

fn channel_at<P: Port>(
    port: &mut P,
    place: Option<BufferPlace>,
    frames: &Frames,
    channel: u32,
) -> Block
    requires whole { IsWholeIfSome place }
    requires reads { MayReadBuffer (P.foot port.old) place }
    requires channel { IfSome place (λ p. channel < p.channels) }
    requires frames { AreWithin (place_frames place) frames.now }
    ensures value { result ≡ table (λ k. sample_at (option_map (buffer_of (P.words port.old)) place) (slice_index_or frames.now k None) channel) block_frames }
    ensures words { P.words port.new ≡ P.words port.old }
    ensures port { SameButWords P.foot P.rest port.old port.new }
{
    match place {
        Some(place) => gather_channel(port, place, frames, channel),
        None => silence(),
    }
}

/// The channels of a buffer at a block of its frames, as many as `outputs` has blocks, and 0 if there is no buffer.
pub(crate) fn gather<P: Port>(
    port: &mut P,
    place: Option<BufferPlace>,
    frames: &Frames,
    outputs: &mut Blocks,
)
    requires whole { IsWholeIfSome place }
    requires reads { MayReadBuffer (P.foot port.old) place }
    requires channels { IfSome place (λ p. p.channels ≡ length outputs.old) }
    requires frames { AreWithin (place_frames place) frames.now }
    ensures outputs { outputs.new ≡ gathered_from (P.words port.old) place frames.now (length outputs.old) }
    ensures words { P.words port.new ≡ P.words port.old }
    ensures port { SameButWords P.foot P.rest port.old port.new }
{
    let count = outputs.len();
    outputs.clear();
    for channel in 0..count {
        let samples = channel_at(port, place, frames, channel as u32);
        outputs.push(&samples);
    }
}

/// The sample of a channel at a point between two frames, or 0 if there is none.
fn sample_between<P: Port>(
    port: &mut P,
    place: BufferPlace,
    point: Option<Point>,
    channel: u32,
) -> i32
    requires whole { IsWhole place }
    requires reads { MayRead (P.foot port.old) place.extent.at place.extent.len }
    requires channel { channel < place.channels }
    requires point { IfSome point (LiesWithin place.frames) }
    ensures value { result ≡ sample_between (Some (buffer_of (P.words port.old) place)) point channel }
    ensures words { P.words port.new ≡ P.words port.old }
    ensures port { SameButWords P.foot P.rest port.old port.new }
{
    match point {
        Some(point) => {
            let before = sample_at(port, place, Some(point.frame), channel);
            let after = sample_at(port, place, Some(point.next), channel);
            between(before, after, point.part)
        }
        None => 0,
    }
}

/// A channel of a buffer at a block of points.
fn gather_channel_between<P: Port>(
    port: &mut P,
    place: BufferPlace,
    points: &Points,
    channel: u32,
) -> Block
    requires whole { IsWhole place }
    requires reads { MayRead (P.foot port.old) place.extent.at place.extent.len }
    requires channel { channel < place.channels }
    requires points { AreBetween (Some place.frames) points.now }
    ensures value { result ≡ table (λ k. sample_between (Some (buffer_of (P.words port.old) place)) (slice_index_or points.now k None) channel) block_frames }
    ensures words { P.words port.new ≡ P.words port.old }
    ensures port { SameButWords P.foot P.rest port.old port.new }
{
    let mut samples = [0i32; BLOCK_FRAMES];
    for frame in 0..BLOCK_FRAMES {
        samples[frame] = sample_between(port, place, points[frame], channel);
    }
    samples
}

fn channel_between<P: Port>(
    port: &mut P,
    place: Option<BufferPlace>,
    points: &Points,
    channel: u32,
) -> Block
    requires whole { IsWholeIfSome place }
    requires reads { MayReadBuffer (P.foot port.old) place }
    requires channel { IfSome place (λ p. channel < p.channels) }
    requires points { AreBetween (place_frames place) points.now }
    ensures value { result ≡ table (λ k. sample_between (option_map (buffer_of (P.words port.old)) place) (slice_index_or points.now k None) channel) block_frames }
    ensures words { P.words port.new ≡ P.words port.old }
    ensures port { SameButWords P.foot P.rest port.old port.new }
{
    match place {
        Some(place) => gather_channel_between(port, place, points, channel),
        None => silence(),
    }
}

/// The channels of a buffer at a block of points, as many as `outputs` has blocks, and 0 if there is no buffer.
pub(crate) fn gather_between<P: Port>(
    port: &mut P,
    place: Option<BufferPlace>,
    points: &Points,
    outputs: &mut Blocks,
)
    requires whole { IsWholeIfSome place }
    requires reads { MayReadBuffer (P.foot port.old) place }
    requires channels { IfSome place (λ p. p.channels ≡ length outputs.old) }
    requires points { AreBetween (place_frames place) points.now }
    ensures outputs { outputs.new ≡ between_from (P.words port.old) place points.now (length outputs.old) }
    ensures words { P.words port.new ≡ P.words port.old }
    ensures port { SameButWords P.foot P.rest port.old port.new }
{
    let count = outputs.len();
    outputs.clear();
    for channel in 0..count {
        let samples = channel_between(port, place, points, channel as u32);
        outputs.push(&samples);
    }
}

/// Sets a frame of a buffer to the samples of the inputs from `first` on at frame `at` of a block.
fn set_frame<P: Port>(
    port: &mut P,
    place: BufferPlace,
    inputs: &Blocks,
    first: usize,
    at: usize,
    frame: u32,
)
    requires whole { IsWhole place }
    requires writes { MayWrite (P.foot port.old) place.extent.at place.extent.len }
    requires first { first ≤ 4 }
    requires inputs { first + place.channels ≤ length inputs.now }
    requires at { at < block_frames }
    requires frame { frame < place.frames }
    ensures words { P.words port.new ≡ set_frame (set_word place.extent.at) inputs.now first at (frame * place.channels) place.channels (P.words port.old) }
    ensures port { SameButWords P.foot P.rest port.old port.new }
{
    for channel in 0..place.channels {
        let x = inputs.at(first + channel as usize, at);
        port.store(word_at(place, frame, channel), word_of(x));
    }
}

fn set_at<P: Port>(
    port: &mut P,
    place: BufferPlace,
    inputs: &Blocks,
    first: usize,
    at: usize,
    frame: Option<u32>,
)
    requires whole { IsWhole place }
    requires writes { MayWrite (P.foot port.old) place.extent.at place.extent.len }
    requires first { first ≤ 4 }
    requires inputs { first + place.channels ≤ length inputs.now }
    requires at { at < block_frames }
    requires frame { IfSome frame (λ i. i < place.frames) }
    ensures words { P.words port.new ≡ set_at (set_word place.extent.at) inputs.now first place.channels at frame (P.words port.old) }
    ensures port { SameButWords P.foot P.rest port.old port.new }
{
    match frame {
        Some(frame) => set_frame(port, place, inputs, first, at, frame),
        None => {}
    }
}

fn scatter_frames<P: Port>(
    port: &mut P,
    place: BufferPlace,
    inputs: &Blocks,
    first: usize,
    frames: &Frames,
)
    requires whole { IsWhole place }
    requires writes { MayWrite (P.foot port.old) place.extent.at place.extent.len }
    requires first { first ≤ 4 }
    requires inputs { first + place.channels ≤ length inputs.now }
    requires frames { AreWithin (Some place.frames) frames.now }
    ensures words { P.words port.new ≡ scattered (set_word place.extent.at) inputs.now first place.channels frames.now block_frames (P.words port.old) }
    ensures port { SameButWords P.foot P.rest port.old port.new }
{
    for at in 0..BLOCK_FRAMES {
        set_at(port, place, inputs, first, at, frames[at]);
    }
}

/// Sets a block of frames of a buffer, one after the other, to the samples of the inputs from `first` on, if there is a
/// buffer.
pub(crate) fn scatter<P: Port>(
    port: &mut P,
    place: Option<BufferPlace>,
    inputs: &Blocks,
    first: usize,
    frames: &Frames,
)
    requires whole { IsWholeIfSome place }
    requires writes { MayWriteBuffer (P.foot port.old) place }
    requires first { first ≤ 4 }
    requires inputs { IfSome place (λ p. first + p.channels ≤ length inputs.now) }
    requires frames { AreWithin (place_frames place) frames.now }
    ensures words { P.words port.new ≡ onto_buffer inputs.now first frames.now place (P.words port.old) }
    ensures port { SameButWords P.foot P.rest port.old port.new }
{
    match place {
        Some(place) => scatter_frames(port, place, inputs, first, frames),
        None => {}
    }
}
