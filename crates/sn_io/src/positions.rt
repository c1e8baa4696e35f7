//! The frames of a buffer that units read and write, one or none at each frame of a block.
ghost use Rattle.std.specs.Prelude.{◌≡◌, ◌<◌, ◌≤◌, ℕ, ℤ, List, Option, length};
ghost use Rattle.sn_ports.specs.Limits.{block_frames};
ghost use Rattle.sn_mem.specs.Words.{MayWrite, SameButWords};
ghost use Rattle.sn_mem.specs.Blocks.{put, window};
ghost use Rattle.sn_io.specs.Positions.{frame_at, frame_in, indexed, walked};

use sn_mem::{Blocks, Port, Stored, load_words, store_words};
use sn_ports::limits::BLOCK_FRAMES;

/// One frame of a buffer or none, for each frame of a block.
pub(crate) type Frames = [Option<u32>; BLOCK_FRAMES];

/// The frame `number`, if it is one of `frames`.
pub(crate) fn frame_at(frames: u32, number: i32) -> Option<u32>
    ensures { result ≡ frame_at frames number }
{
    if number >= 0 && i64::from(number) < i64::from(frames) {
        Some(number as u32)
    } else {
        None
    }
}

/// The same of a buffer with `frames` frames, if there is one.
fn frame_in(frames: Option<u32>, number: i32) -> Option<u32>
    ensures { result ≡ frame_in frames number }
{
    match frames {
        Some(frames) => frame_at(frames, number),
        None => None,
    }
}

/// BufRd and BufWr: the frames that the second input names.
pub(crate) fn indexed(frames: Option<u32>, inputs: &Blocks) -> Frames
    requires { 2 ≤ length inputs.now }
    ensures { result ≡ indexed frames inputs.now }
{
    let mut found = [None; BLOCK_FRAMES];
    for frame in 0..BLOCK_FRAMES {
        found[frame] = frame_in(frames, inputs.at(1, frame));
    }
    found
}

/// A unit that goes from frame to frame of a buffer, by its recurrence.
pub(crate) trait FrameStep {
    ghost use Rattle.std.specs.Prelude.{ℕ, ℤ, List, Option};

    type State: Stored;

    /// The number of its inputs.
    ghost arity: { Self → ℕ };

    /// From the state before a frame: the state after it, and a frame of the buffer or none.
    ghost step: { Self → Self.State → List (List ℤ) → ℕ → Self.State × Option ℕ };

    /// One frame.
    fn next(&self, state: Self::State, inputs: &Blocks, frame: usize) -> (Self::State, Option<u32>)
        requires inputs { arity self.now ≤ length inputs.now }
        requires frame { frame < block_frames }
        ensures { result ≡ step self.now state inputs.now frame };
}

/// Runs a unit for a block, with its state in the words from `at` on.
pub(crate) fn walk_frames<U: FrameStep, P: Port>(
    unit: &U,
    port: &mut P,
    at: u32,
    inputs: &Blocks,
) -> Frames
    requires inputs { U.arity unit.now ≤ length inputs.now }
    requires state { MayWrite (P.foot port.old) at U.State.size }
    ensures words { P.words port.new ≡ put (P.words port.old) at (walked U.State.loaded U.State.stored (U.step unit.now) (window (P.words port.old) at U.State.size) inputs.now).0 }
    ensures frames { result ≡ (walked U.State.loaded U.State.stored (U.step unit.now) (window (P.words port.old) at U.State.size) inputs.now).1 }
    ensures port { SameButWords P.foot P.rest port.old port.new }
{
    let mut words = [0u64; 8];
    let words = &mut words[..U::State::size()];
    load_words(port, at, words);
    let mut state = U::State::load(words);
    let mut frames = [None; BLOCK_FRAMES];
    for frame in 0..BLOCK_FRAMES {
        let (after, found) = unit.next(state, inputs, frame);
        state = after;
        frames[frame] = found;
    }
    state.store(words);
    store_words(port, at, words);
    frames
}
