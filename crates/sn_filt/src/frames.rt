//! One frame at a time, or one for a block whose inputs stay the same.
ghost use Rattle.std.specs.Prelude.{◌≡◌, ◌<◌, ◌≤◌, ◌++◌, ℕ, ℤ, List, ◌∷◌, [], length};
ghost use Rattle.sn_ports.specs.Limits.{block_frames, most_wires};
ghost use Rattle.sn_mem.specs.Blocks.{sample, table, AreSteady};
ghost use Rattle.sn_filt.specs.Frames.{AreAsFirst};

use sn_mem::{Block, Blocks};
use sn_ports::limits::BLOCK_FRAMES;

/// The sample of an input at a frame. A loop over frames reads it with nothing else asked, so that a compiler makes
/// vectors of the loop.
pub(crate) fn sample_at(inputs: &Blocks, number: usize, frame: usize) -> i32
    requires number { number < length inputs.now }
    requires frame { frame < block_frames }
    ensures { result ≡ sample inputs.now number frame }
{
    inputs.block(number)[frame]
}

/// A unit's output, of which the sample of a frame is a function of the inputs' samples there.
pub(crate) trait Framewise {
    /// The number of its inputs.
    ghost arity: { Self → ℕ };

    /// The sample of a frame.
    ghost value: { Self → List (List ℤ) → ℕ → ℤ };

    /// The sample of a frame.
    fn sample(&self, inputs: &Blocks, frame: usize) -> i32
        requires inputs { arity self.now ≤ length inputs.now }
        requires frame { frame < block_frames }
        ensures { result ≡ value self.now inputs.now frame };

    /// At a frame where the inputs are as at the first one, the sample is as there.
    ghost steady: { (u : Self) (inputs : List (List ℤ)) (k : ℕ) → AreAsFirst inputs k → value u inputs k ≡ value u inputs 0 };
}

/// The samples of a block.
#[inline(always)]
fn write_frames<U: Framewise>(unit: &U, inputs: &Blocks, samples: &mut Block)
    requires { U.arity unit.now ≤ length inputs.now }
    ensures { samples.new ≡ table (U.value unit.now inputs.now) block_frames }
{
    for frame in 0..BLOCK_FRAMES {
        samples[frame] = unit.sample(inputs, frame);
    }
}

/// Appends the output of a block whose inputs stay the same, of which one frame tells all.
fn push_steady_frame<U: Framewise>(unit: &U, inputs: &Blocks, outputs: &mut Blocks)
    requires steady { AreSteady inputs.now }
    requires inputs { U.arity unit.now ≤ length inputs.now }
    requires outputs { length outputs.old < most_wires }
    ensures { outputs.new ≡ outputs.old ++ table (U.value unit.now inputs.now) block_frames ∷ [] }
{
    outputs.push_equal(unit.sample(inputs, 0));
}

/// Appends the output of a block whose inputs may move.
pub(crate) fn push_moving_frames<U: Framewise>(unit: &U, inputs: &Blocks, outputs: &mut Blocks)
    requires inputs { U.arity unit.now ≤ length inputs.now }
    requires outputs { length outputs.old < most_wires }
    ensures { outputs.new ≡ outputs.old ++ table (U.value unit.now inputs.now) block_frames ∷ [] }
{
    let mut samples = [0i32; BLOCK_FRAMES];
    write_frames(unit, inputs, &mut samples);
    outputs.push(&samples);
}

/// Appends the output of a block to `outputs`.
pub(crate) fn push_frames<U: Framewise>(unit: &U, inputs: &Blocks, outputs: &mut Blocks)
    requires inputs { U.arity unit.now ≤ length inputs.now }
    requires outputs { length outputs.old < most_wires }
    ensures { outputs.new ≡ outputs.old ++ table (U.value unit.now inputs.now) block_frames ∷ [] }
{
    if inputs.is_steady() {
        push_steady_frame(unit, inputs, outputs);
    } else {
        push_moving_frames(unit, inputs, outputs);
    }
}
