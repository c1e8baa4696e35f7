//! Units that go from frame to frame with a small state.
ghost use Rattle.std.specs.Prelude.{◌≡◌, ◌<◌, ◌≤◌, ◌∷◌, [], ℕ, ℤ, List, length};
ghost use Rattle.sn_ports.specs.Limits.{block_frames};
ghost use Rattle.sn_mem.specs.Words.{MayWrite, SameButWords};
ghost use Rattle.sn_mem.specs.Blocks.{recurred, scan};

use crate::blocks::{Block, Blocks};
use crate::port::Port;
use crate::runs::{load_words, store_words};
use crate::stored::Stored;
use sn_ports::limits::BLOCK_FRAMES;

/// A unit with one output, by its recurrence.
///
/// A unit may remember what it has computed, and needn't compute it again at the next frame. What it remembers ends
/// with the block, and its step doesn't depend on it.
pub trait Recurrence: Copy {
    type State: Stored;

    /// The number of its inputs.
    ghost arity: { Self → ℕ };

    /// From the state before a frame: the state after it, and the frame's sample.
    ghost step: { Self → Self.State → List (List ℤ) → ℕ → Self.State × ℤ };

    /// One frame. The unit stays the same except for what it remembers.
    fn next(&mut self, state: Self::State, inputs: &Blocks, frame: usize) -> (Self::State, i32)
        requires inputs { arity self.old ≤ length inputs.now }
        requires frame { frame < block_frames }
        ensures value { result ≡ step self.old state inputs.now frame }
        ensures step { step self.new ≡ step self.old }
        ensures arity { arity self.new ≡ arity self.old };
}

/// Runs a unit from a state for the frames of a block. Returns the state after them.
#[inline(always)]
fn run_frames<U: Recurrence>(
    unit: &U,
    begin: U::State,
    inputs: &Blocks,
    samples: &mut Block,
) -> U::State
    requires { U.arity unit.now ≤ length inputs.now }
    ensures state { result ≡ (scan (U.step unit.now) begin inputs.now block_frames).0 }
    ensures samples { samples.new ≡ (scan (U.step unit.now) begin inputs.now block_frames).1 }
{
    let mut running = *unit;
    let mut state = begin;
    for frame in 0..BLOCK_FRAMES {
        let (after, sample) = running.next(state, inputs, frame);
        state = after;
        samples[frame] = sample;
    }
    state
}

/// The same if the inputs are steady. It is a function of its own, so that a compiler doesn't merge the two, and its
/// loop reads the inputs once and not at each frame.
#[inline(always)]
fn run_steady_frames<U: Recurrence>(
    unit: &U,
    begin: U::State,
    inputs: &Blocks,
    samples: &mut Block,
) -> U::State
    requires { U.arity unit.now ≤ length inputs.now }
    ensures state { result ≡ (scan (U.step unit.now) begin inputs.now block_frames).0 }
    ensures samples { samples.new ≡ (scan (U.step unit.now) begin inputs.now block_frames).1 }
{
    run_frames(unit, begin, inputs, samples)
}

/// Runs a unit for a block, with its state in the words from `at` on.
pub fn run_recurrence<U: Recurrence, P: Port>(
    unit: &U,
    port: &mut P,
    at: u32,
    inputs: &Blocks,
    outputs: &mut Blocks,
)
    requires inputs { U.arity unit.now ≤ length inputs.now }
    requires state { MayWrite (P.foot port.old) at U.State.size }
    ensures words { P.words port.new ≡ (recurred U.State.size U.State.loaded U.State.stored (U.step unit.now) (P.words port.old) at inputs.now).0 }
    ensures outputs { outputs.new ≡ (recurred U.State.size U.State.loaded U.State.stored (U.step unit.now) (P.words port.old) at inputs.now).1 ∷ [] }
    ensures port { SameButWords P.foot P.rest port.old port.new }
{
    let mut words = [0u64; 8];
    let words = &mut words[..U::State::size()];
    load_words(port, at, words);
    let begin = U::State::load(words);
    let mut samples = [0i32; BLOCK_FRAMES];
    let state = if inputs.is_steady() {
        run_steady_frames(unit, begin, inputs, &mut samples)
    } else {
        run_frames(unit, begin, inputs, &mut samples)
    };
    outputs.clear();
    outputs.push(&samples);
    state.store(words);
    store_words(port, at, words);
}
