//! Delay lines that are heard between two frames.
ghost use Rattle.std.specs.Prelude.{◌≡◌, ◌<◌, ◌≤◌, ◌+◌, ◌-◌, ◌*◌, ◌%◌, ◌^◌, ◌∷◌, [], max, min, pos, ◌-ℤ◌, ◌*ℤ◌, unsigned_abs, length, slice_index, slice_set};
ghost use Rattle.sn_ports.specs.Limits.{block_frames};
ghost use Rattle.sn_fixed.specs.Fixed.{floor, sat};
ghost use Rattle.sn_fixed.specs.Lines.{IsBetween};
ghost use Rattle.sn_mem.specs.Words.{MayWrite, SameButWords};
ghost use Rattle.sn_mem.specs.Blocks.{window, put, sample, word_for};
ghost use Rattle.sn_filt.specs.Rings.{most_frames};
ghost use Rattle.sn_filt.specs.Seconds.{span, whole_frames};
ghost use Rattle.sn_filt.specs.Lines.{past, between, echo, delay_ring, delay_l, combed, line_reach, comb_l_frame, comb_after, comb_in, comb_rings, comb_l};

use crate::poles::{clipped, pole};
use crate::rings::{after, before};
use crate::seconds::{frame_part, span, whole_frames};
use sn_fixed::{distance, frames_of, moved, mul_add, sat, scaled, times};
use sn_mem::{Blocks, Extent, Port, sample_of, word_of};
use sn_ports::limits::BLOCK_FRAMES;

/// The rate and the longest delay of a delay line.
#[derive(Clone, Copy)]
struct Line {
    /// Frames a second.
    rate: u32,
    /// The frames of the longest delay.
    most: u32,
}

impl Line {
    /// How far back a time is, in parts of a frame: at most the longest delay.
    fn reach(self, time: i32) -> u64
        ensures value { result ≡ min (span time self.rate) (self.most * 16777216) }
        ensures bound { result ≤ self.most * 16777216 }
    {
        span(time, self.rate).min(u64::from(self.most) * 16_777_216)
    }
}

/// The whole frames of a reach, which is at most `most` frames.
fn frames_ago(reach: u64, most: u32) -> u32
    requires { reach ≤ most * 16777216 }
    ensures value { result ≡ whole_frames reach }
    ensures bound { result ≤ most }
{
    whole_frames(reach) as u32
}

/// The exact product of a way between two samples and a part of a frame.
fn product(way: i64, part: u32) -> i64
    requires way { unsigned_abs way ≤ 2 ^ 33 }
    requires part { part < 16777216 }
    ensures { result ≡ way *ℤ pos part }
{
    way * i64::from(part)
}

/// A part of the way between two samples, rounded down.
fn part_of(way: i64, part: u32) -> i64
    requires way { unsigned_abs way ≤ 2 ^ 33 }
    requires part { part < 16777216 }
    ensures value { result ≡ floor (way *ℤ pos part) 16777216 }
    ensures between { IsBetween result way }
{
    scaled(product(way, part))
}

/// The sample between two others, by the part of a frame after the first.
#[tactic(auto, unfolding(sn_fixed::specs::Lines::line_at))]
fn between(a: i32, b: i32, part: u32) -> i32
    requires { part < 16777216 }
    ensures { result ≡ between a b part }
{
    moved(a, part_of(distance(a, b), part))
}

/// What a ring holds some places before its next one. It is in the words of `state` after the first `head`.
fn past<P: Port>(port: &mut P, state: Extent, head: u32, place: u32, frames: u32) -> i32
    requires place { place < state.len - head }
    requires frames { frames ≤ state.len - head }
    requires state { MayWrite (P.foot port.old) state.at state.len }
    ensures value { result ≡ past head (state.len - head) place (window (P.words port.old) state.at state.len) frames }
    ensures words { P.words port.new ≡ P.words port.old }
    ensures port { SameButWords P.foot P.rest port.old port.new }
{
    let before = before(state.len - head, place, frames);
    sample_of(port.load(state.at + head + before))
}

/// Puts a sample at the next place of a ring.
fn keep<P: Port>(port: &mut P, state: Extent, head: u32, place: u32, sample: i32)
    requires place { place < state.len - head }
    requires state { MayWrite (P.foot port.old) state.at state.len }
    ensures words { P.words port.new ≡ slice_set (P.words port.old) (state.at + head + place) (word_for sample) }
    ensures port { SameButWords P.foot P.rest port.old port.new }
{
    port.store(state.at + head + place, word_of(sample));
}

/// What is heard of a ring, by a reach of fewer frames than the ring has places.
#[tactic(auto, unfolding(crate::specs::Lines::echo))]
fn echo<P: Port>(port: &mut P, state: Extent, head: u32, place: u32, reach: u64) -> i32
    requires place { place < state.len - head }
    requires reach { reach ≤ (state.len - head - 1) * 16777216 }
    requires state { MayWrite (P.foot port.old) state.at state.len }
    ensures value { result ≡ echo head (state.len - head) place (window (P.words port.old) state.at state.len) reach }
    ensures words { P.words port.new ≡ P.words port.old }
    ensures port { SameButWords P.foot P.rest port.old port.new }
{
    let frames = frames_ago(reach, state.len - head - 1);
    let later = past(port, state, head, place, frames);
    let earlier = past(port, state, head, place, frames + 1);
    between(later, earlier, frame_part(reach))
}

/// The product of two samples in the scale of samples, rounded down.
#[tactic(auto, using(sn_fixed::proofs::Scales::scaled_small))]
fn scaled_product(a: i32, b: i32) -> i64
    ensures value { result ≡ floor (a *ℤ b) 16777216 }
    ensures bound { unsigned_abs result ≤ 2 ^ 38 }
{
    scaled(times(a, b))
}

/// The sample nearest to what a product leaves of `x`. The product is brought to the scale of samples and rounded down
/// first.
fn mul_sub(a: i32, b: i32, x: i32) -> i32
    ensures { result ≡ sat (x -ℤ floor (a *ℤ b) 16777216) }
{
    sat(i64::from(x) - scaled_product(a, b))
}

/// A comb before a frame.
#[derive(Clone, Copy)]
pub(crate) struct Comb {
    /// The next place of its ring.
    pub place: u32,
    /// The last damped sample.
    pub last: i32,
}

/// What a comb makes of a frame.
#[derive(Clone, Copy)]
pub(crate) struct CombFrame {
    /// The damped sample.
    pub last: i32,
    /// The sample that the ring keeps.
    pub kept: i32,
    /// The comb.
    pub comb: i32,
    /// The allpass. It is one if nothing is damped.
    pub allpass: i32,
}

/// One frame of a comb, from its last damped sample, from `y`, which is heard of its ring, and from its inputs.
#[tactic(auto, unfolding(crate::specs::Lines::combed))]
fn combed(last: i32, y: i32, x: i32, c: i32, damp: i32) -> CombFrame
    ensures { result ≡ combed last y x c damp }
{
    let last = pole(last, y, clipped(damp));
    let kept = mul_add(c, last, x);
    CombFrame {
        last,
        kept,
        comb: y,
        allpass: mul_sub(c, kept, y),
    }
}

/// The next place of a ring, from the first word of its state.
fn first_place<P: Port>(port: &mut P, state: Extent, places: u32) -> u32
    requires places { 0 < places }
    requires state { places < state.len }
    requires may { MayWrite (P.foot port.old) state.at state.len }
    ensures value { result ≡ slice_index (window (P.words port.old) state.at state.len) 0 % places }
    ensures bound { result < places }
    ensures words { P.words port.new ≡ P.words port.old }
    ensures port { SameButWords P.foot P.rest port.old port.new }
{
    (port.load(state.at) % u64::from(places)) as u32
}

/// The comb before the first frame of a block.
fn first_comb<P: Port>(port: &mut P, state: Extent) -> Comb
    requires some { 2 < state.len }
    requires state { MayWrite (P.foot port.old) state.at state.len }
    ensures value { result ≡ comb_in (state.len - 2) (window (P.words port.old) state.at state.len) }
    ensures bound { result.place < state.len - 2 }
    ensures words { P.words port.new ≡ P.words port.old }
    ensures port { SameButWords P.foot P.rest port.old port.new }
{
    let place = first_place(port, state, state.len - 2);
    let last = sample_of(port.load(state.at + 1));
    Comb { place, last }
}

/// One frame of DelayL. The input is kept first, so that it is what is heard by no time at all.
fn delay_frame<P: Port>(
    line: Line,
    port: &mut P,
    state: Extent,
    place: u32,
    inputs: &Blocks,
    frame: usize,
) -> i32
    requires inputs { 3 ≤ length inputs.now }
    requires frame { frame < block_frames }
    requires size { line.most + 2 ≡ state.len }
    requires place { place < state.len - 1 }
    requires state { MayWrite (P.foot port.old) state.at state.len }
    ensures words { P.words port.new ≡ slice_set (P.words port.old) (state.at + 1 + place) (word_for (sample inputs.now 0 frame)) }
    ensures value { result ≡ echo 1 (state.len - 1) place (window (P.words port.new) state.at state.len) (line_reach line.rate line.most inputs.now frame) }
    ensures port { SameButWords P.foot P.rest port.old port.new }
{
    keep(port, state, 1, place, inputs.at(0, frame));
    echo(port, state, 1, place, line.reach(inputs.at(2, frame)))
}

/// One frame of CombL.
fn comb_frame<P: Port>(
    line: Line,
    port: &mut P,
    state: Extent,
    comb: Comb,
    inputs: &Blocks,
    frame: usize,
) -> CombFrame
    requires inputs { 5 ≤ length inputs.now }
    requires frame { frame < block_frames }
    requires some { 1 ≤ line.most }
    requires size { line.most + 3 ≡ state.len }
    requires place { comb.place < state.len - 2 }
    requires state { MayWrite (P.foot port.old) state.at state.len }
    ensures value { result ≡ comb_l_frame line.rate line.most (state.len - 2) (comb, window (P.words port.old) state.at state.len) inputs.now frame }
    ensures words { P.words port.new ≡ slice_set (P.words port.old) (state.at + 2 + comb.place) (word_for result.kept) }
    ensures port { SameButWords P.foot P.rest port.old port.new }
{
    let reach = line.reach(inputs.at(2, frame)).max(16_777_216);
    let heard = echo(port, state, 2, comb.place, reach);
    let made = combed(
        comb.last,
        heard,
        inputs.at(0, frame),
        inputs.at(3, frame),
        inputs.at(4, frame),
    );
    keep(port, state, 2, comb.place, made.kept);
    made
}

/// Runs DelayL for a block. The first word of `state` is the place of the next sample in the ring of the words after
/// it.
fn run_delay<P: Port>(
    line: Line,
    port: &mut P,
    state: Extent,
    inputs: &Blocks,
    outputs: &mut Blocks,
)
    requires inputs { 3 ≤ length inputs.now }
    requires size { line.most + 2 ≡ state.len }
    requires state { MayWrite (P.foot port.old) state.at state.len }
    ensures words { P.words port.new ≡ put (P.words port.old) state.at (delay_ring line.rate line.most (window (P.words port.old) state.at state.len) inputs.now).0 }
    ensures outputs { outputs.new ≡ (delay_ring line.rate line.most (window (P.words port.old) state.at state.len) inputs.now).1 ∷ [] }
    ensures port { SameButWords P.foot P.rest port.old port.new }
{
    let places = state.len - 1;
    let mut place = first_place(port, state, places);
    let mut samples = [0i32; BLOCK_FRAMES];
    for frame in 0..BLOCK_FRAMES {
        samples[frame] = delay_frame(line, port, state, place, inputs, frame);
        place = after(places, place);
    }
    outputs.clear();
    outputs.push(&samples);
    port.store(state.at, u64::from(place));
}

/// A block of DelayL, with a ring for one sample more than its longest delay has frames.
pub(crate) fn run_delay_l<P: Port>(
    rate: u32,
    port: &mut P,
    state: Extent,
    inputs: &Blocks,
    outputs: &mut Blocks,
)
    requires inputs { 3 ≤ length inputs.now }
    requires size { most_frames rate inputs.now + 2 ≡ state.len }
    requires state { MayWrite (P.foot port.old) state.at state.len }
    ensures words { P.words port.new ≡ put (P.words port.old) state.at (delay_l rate (window (P.words port.old) state.at state.len) inputs.now).0 }
    ensures outputs { outputs.new ≡ (delay_l rate (window (P.words port.old) state.at state.len) inputs.now).1 ∷ [] }
    ensures port { SameButWords P.foot P.rest port.old port.new }
{
    let most = frames_of(inputs.at(1, 0), rate);
    run_delay(Line { rate, most }, port, state, inputs, outputs);
}

/// The comb of the next frame.
fn comb_after(places: u32, comb: Comb, made: CombFrame) -> Comb
    requires { comb.place < places }
    ensures value { result ≡ comb_after places comb made }
    ensures bound { result.place < places }
{
    Comb {
        place: after(places, comb.place),
        last: made.last,
    }
}

/// Stores a comb after the last frame of a block.
fn store_comb<P: Port>(port: &mut P, state: Extent, comb: Comb)
    requires some { 1 < state.len }
    requires state { MayWrite (P.foot port.old) state.at state.len }
    ensures words { P.words port.new ≡ slice_set (slice_set (P.words port.old) state.at comb.place) (state.at + 1) (word_for comb.last) }
    ensures port { SameButWords P.foot P.rest port.old port.new }
{
    port.store(state.at, u64::from(comb.place));
    port.store(state.at + 1, word_of(comb.last));
}

/// Runs CombL for a block. The first two words of `state` are the place of the next sample in the ring of the words
/// after them, and the last damped sample.
fn run_comb<P: Port>(line: Line, port: &mut P, state: Extent, inputs: &Blocks, outputs: &mut Blocks)
    requires inputs { 5 ≤ length inputs.now }
    requires some { 1 ≤ line.most }
    requires size { line.most + 3 ≡ state.len }
    requires state { MayWrite (P.foot port.old) state.at state.len }
    ensures words { P.words port.new ≡ put (P.words port.old) state.at (comb_rings line.rate line.most (window (P.words port.old) state.at state.len) inputs.now).0 }
    ensures outputs { outputs.new ≡ (comb_rings line.rate line.most (window (P.words port.old) state.at state.len) inputs.now).1 }
    ensures port { SameButWords P.foot P.rest port.old port.new }
{
    let places = state.len - 2;
    let mut comb = first_comb(port, state);
    let mut echoes = [0i32; BLOCK_FRAMES];
    let mut allpass = [0i32; BLOCK_FRAMES];
    for frame in 0..BLOCK_FRAMES {
        let made = comb_frame(line, port, state, comb, inputs, frame);
        comb = comb_after(places, comb, made);
        echoes[frame] = made.comb;
        allpass[frame] = made.allpass;
    }
    outputs.clear();
    outputs.push(&echoes);
    outputs.push(&allpass);
    store_comb(port, state, comb);
}

/// A block of CombL, in the same way. Its longest delay has at least one frame.
pub(crate) fn run_comb_l<P: Port>(
    rate: u32,
    port: &mut P,
    state: Extent,
    inputs: &Blocks,
    outputs: &mut Blocks,
)
    requires inputs { 5 ≤ length inputs.now }
    requires size { max 1 (most_frames rate inputs.now) + 3 ≡ state.len }
    requires state { MayWrite (P.foot port.old) state.at state.len }
    ensures words { P.words port.new ≡ put (P.words port.old) state.at (comb_l rate (window (P.words port.old) state.at state.len) inputs.now).0 }
    ensures outputs { outputs.new ≡ (comb_l rate (window (P.words port.old) state.at state.len) inputs.now).1 }
    ensures port { SameButWords P.foot P.rest port.old port.new }
{
    let most = frames_of(inputs.at(1, 0), rate).max(1);
    run_comb(Line { rate, most }, port, state, inputs, outputs);
}
