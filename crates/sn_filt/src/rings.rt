//! Delay lines: rings of samples in words.
ghost use Rattle.std.specs.Prelude.{◌≡◌, ◌<◌, ◌≤◌, ◌+◌, ◌-◌, ◌∷◌, [], ℕ, ℤ, List, max, length, slice_index, slice_set};
ghost use Rattle.sn_ports.specs.Limits.{block_frames};
ghost use Rattle.sn_mem.specs.Words.{MayWrite, SameButWords};
ghost use Rattle.sn_fixed.specs.Fixed.{frames_of};
ghost use Rattle.sn_mem.specs.Blocks.{window, put, sample, sample_in, word_for};
ghost use Rattle.sn_filt.specs.Rings.{before, after, ringed, most_frames, delay_n, comb_n};

use sn_fixed::{TimeFrames, frames_of, mul_add};
use sn_mem::{Blocks, Extent, Port, sample_of, word_of};
use sn_ports::limits::BLOCK_FRAMES;

/// A unit that hears what it kept some frames ago.
trait Echo {
    /// The number of its inputs.
    ghost arity: { Self → ℕ };

    /// Frames a second.
    ghost rate: { Self → ℕ };

    /// The most frames.
    ghost most: { Self → ℕ };

    /// How many frames ago, at a frame.
    ghost reach: { Self → List (List ℤ) → ℕ → ℕ };

    /// From what was kept then: what is kept now, and the output.
    ghost step: { Self → ℤ → List (List ℤ) → ℕ → ℤ × ℤ };

    fn rate(&self) -> u32
        ensures { result ≡ rate self.now };

    /// By the frames of its time, which is its third input.
    fn reach(&self, time: u32, inputs: &Blocks, frame: usize) -> u32
        requires { time ≡ frames_of (sample inputs.now 2 frame) (rate self.now) }
        ensures value { result ≡ reach self.now inputs.now frame }
        ensures bound { result ≤ most self.now };

    fn next(&self, old: i32, reached: u32, inputs: &Blocks, frame: usize) -> (i32, i32)
        requires inputs { arity self.now ≤ length inputs.now }
        requires frame { frame < block_frames }
        requires reached { reached ≡ reach self.now inputs.now frame }
        ensures { result ≡ step self.now old inputs.now frame };
}

/// The place some frames before `place`, of `places` in a ring.
pub(crate) fn before(places: u32, place: u32, frames: u32) -> u32
    requires place { place < places }
    requires frames { frames ≤ places }
    ensures value { result ≡ before places place frames }
    ensures bound { result < places }
{
    if place < frames {
        places - (frames - place)
    } else {
        place - frames
    }
}

/// The place after `place`, of `places` in a ring.
pub(crate) fn after(places: u32, place: u32) -> u32
    requires { place < places }
    ensures value { result ≡ after places place }
    ensures bound { result < places }
{
    if place + 1 < places { place + 1 } else { 0 }
}

/// One frame of a unit whose ring has its next sample in the word `at + 1 + place`.
fn hear<U: Echo, P: Port>(
    unit: &U,
    port: &mut P,
    state: Extent,
    place: u32,
    time: u32,
    inputs: &Blocks,
    frame: usize,
) -> i32
    requires inputs { U.arity unit.now ≤ length inputs.now }
    requires frame { frame < block_frames }
    requires time { time ≡ frames_of (sample inputs.now 2 frame) (U.rate unit.now) }
    requires size { U.most unit.now + 2 ≡ state.len }
    requires place { place < state.len - 1 }
    requires state { MayWrite (P.foot port.old) state.at state.len }
    ensures words { P.words port.new ≡ slice_set (P.words port.old) (state.at + 1 + place) (word_for (U.step unit.now (sample_in (slice_index (P.words port.old) (state.at + 1 + before (state.len - 1) place (U.reach unit.now inputs.now frame)))) inputs.now frame).0) }
    ensures sample { result ≡ (U.step unit.now (sample_in (slice_index (P.words port.old) (state.at + 1 + before (state.len - 1) place (U.reach unit.now inputs.now frame)))) inputs.now frame).1 }
    ensures reach { U.reach unit.now inputs.now frame ≤ U.most unit.now }
    ensures port { SameButWords P.foot P.rest port.old port.new }
{
    let frames = unit.reach(time, inputs, frame);
    let past = before(state.len - 1, place, frames);
    let old = port.load(state.at + 1 + past);
    let (kept, sample) = unit.next(sample_of(old), frames, inputs, frame);
    port.store(state.at + 1 + place, word_of(kept));
    sample
}

/// Runs a unit for a block. The first word of `state` is the place of the next sample in the ring
/// of the words after it.
fn run_echo<U: Echo, P: Port>(
    unit: &U,
    port: &mut P,
    state: Extent,
    inputs: &Blocks,
    outputs: &mut Blocks,
)
    requires inputs { U.arity unit.now ≤ length inputs.now }
    requires time { 3 ≤ length inputs.now }
    requires size { U.most unit.now + 2 ≡ state.len }
    requires state { MayWrite (P.foot port.old) state.at state.len }
    ensures words { P.words port.new ≡ put (P.words port.old) state.at (ringed (U.reach unit.now) (U.step unit.now) (window (P.words port.old) state.at state.len) inputs.now).0 }
    ensures outputs { outputs.new ≡ (ringed (U.reach unit.now) (U.step unit.now) (window (P.words port.old) state.at state.len) inputs.now).1 ∷ [] }
    ensures port { SameButWords P.foot P.rest port.old port.new }
{
    let places = state.len - 1;
    let mut place = (port.load(state.at) % u64::from(places)) as u32;
    let mut times = TimeFrames::new(unit.rate());
    let mut samples = [0i32; BLOCK_FRAMES];
    for frame in 0..BLOCK_FRAMES {
        let time = times.at(inputs.at(2, frame));
        samples[frame] = hear(unit, port, state, place, time, inputs, frame);
        place = after(places, place);
    }
    outputs.clear();
    outputs.push(&samples);
    port.store(state.at, u64::from(place));
}

/// DelayN x max! time
#[derive(Clone, Copy)]
struct DelayN {
    rate: u32,
    most: u32,
}

impl Echo for DelayN {
    ghost use Rattle.sn_filt.specs.Rings.{delay_reach, delay_step};

    ghost arity = { λ _. 3 };

    ghost rate = { λ u. u.rate };

    ghost most = { λ u. u.most };

    ghost reach = { λ u. delay_reach u.rate u.most };

    ghost step = { λ u. delay_step u.rate u.most };

    fn rate(&self) -> u32 {
        self.rate
    }

    fn reach(&self, time: u32, _inputs: &Blocks, _frame: usize) -> u32 {
        time.min(self.most)
    }

    fn next(&self, old: i32, reached: u32, inputs: &Blocks, frame: usize) -> (i32, i32) {
        let x = inputs.at(0, frame);
        (x, if reached == 0 { x } else { old })
    }
}

/// CombN x max! time c
#[derive(Clone, Copy)]
struct CombN {
    rate: u32,
    most: u32,
    ghost some: { 1 ≤ most },
}

impl Echo for CombN {
    ghost use Rattle.sn_filt.specs.Rings.{comb_reach, comb_step};

    ghost arity = { λ _. 4 };

    ghost rate = { λ u. u.rate };

    ghost most = { λ u. u.most };

    ghost reach = { λ u. comb_reach u.rate u.most };

    ghost step = { λ _. comb_step };

    fn rate(&self) -> u32 {
        self.rate
    }

    fn reach(&self, time: u32, _inputs: &Blocks, _frame: usize) -> u32 {
        time.max(1).min(self.most)
    }

    fn next(&self, old: i32, _reached: u32, inputs: &Blocks, frame: usize) -> (i32, i32) {
        (mul_add(inputs.at(3, frame), old, inputs.at(0, frame)), old)
    }
}

/// A block of DelayN, with a ring for one sample more than its longest delay has frames.
pub(crate) fn run_delay_n<P: Port>(
    rate: u32,
    port: &mut P,
    state: Extent,
    inputs: &Blocks,
    outputs: &mut Blocks,
)
    requires inputs { 3 ≤ length inputs.now }
    requires size { most_frames rate inputs.now + 2 ≡ state.len }
    requires state { MayWrite (P.foot port.old) state.at state.len }
    ensures words { P.words port.new ≡ put (P.words port.old) state.at (delay_n rate (window (P.words port.old) state.at state.len) inputs.now).0 }
    ensures outputs { outputs.new ≡ (delay_n rate (window (P.words port.old) state.at state.len) inputs.now).1 ∷ [] }
    ensures port { SameButWords P.foot P.rest port.old port.new }
{
    let most = frames_of(inputs.at(1, 0), rate);
    run_echo(&DelayN { rate, most }, port, state, inputs, outputs);
}

/// A block of CombN, in the same way. Its longest delay has at least one frame.
pub(crate) fn run_comb_n<P: Port>(
    rate: u32,
    port: &mut P,
    state: Extent,
    inputs: &Blocks,
    outputs: &mut Blocks,
)
    requires inputs { 4 ≤ length inputs.now }
    requires size { max 1 (most_frames rate inputs.now) + 2 ≡ state.len }
    requires state { MayWrite (P.foot port.old) state.at state.len }
    ensures words { P.words port.new ≡ put (P.words port.old) state.at (comb_n rate (window (P.words port.old) state.at state.len) inputs.now).0 }
    ensures outputs { outputs.new ≡ (comb_n rate (window (P.words port.old) state.at state.len) inputs.now).1 ∷ [] }
    ensures port { SameButWords P.foot P.rest port.old port.new }
{
    let most = frames_of(inputs.at(1, 0), rate).max(1);
    run_echo(&CombN { rate, most }, port, state, inputs, outputs);
}
