//! Products of the samples of blocks that need no limit, in plain loops that a compiler makes vectors of.
ghost use Rattle.std.specs.Prelude.{◌≡◌, ◌<◌, ◌≤◌, ◌*◌, ◌++◌, ◌∷◌, [], ◌*ℤ◌, pos, true, nat_lt, ℕ, length, slice_index_or, unsigned_abs};
ghost use Rattle.sn_ports.specs.Limits.{block_frames, most_wires};
ghost use Rattle.sn_fixed.specs.Fixed.{floor, mul};
ghost use Rattle.sn_mem.specs.Blocks.{sample, table};
ghost use Rattle.sn_filt.specs.Arithmetic.{mul as product, mul_add as product_sum};
ghost use Rattle.sn_filt.specs.Products.{IsSmall, AreSmall};

use crate::arithmetic::{Mul, MulAdd};
use crate::frames::push_frames;
use crate::steady::scaled_down;
use sn_fixed::{add, times};
use sn_mem::{Block, Blocks};
use sn_ports::limits::BLOCK_FRAMES;

/// A bound of the sizes of a block's samples.
fn block_size(samples: &Block) -> u32
    ensures { (k : ℕ) → k < block_frames → unsigned_abs (slice_index_or samples.now k (pos 0)) ≤ result }
{
    let mut size = 0u32;
    for frame in 0..BLOCK_FRAMES {
        size = size.max(samples[frame].unsigned_abs());
    }
    size
}

/// A bound of the sizes of an input's samples.
fn size(inputs: &Blocks, number: usize) -> u32
    requires { number < length inputs.now }
    ensures { (k : ℕ) → k < block_frames → unsigned_abs (sample inputs.now number k) ≤ result }
{
    match inputs.same(number) {
        Some(value) => value.unsigned_abs(),
        None => block_size(inputs.block(number)),
    }
}

/// Whether a product of numbers of these sizes is less than 128.0 in the scale of samples.
fn is_small(a: u32, b: u32) -> bool
    ensures { result ≡ nat_lt (a * b) 36028797018963968 }
{
    u64::from(a) * u64::from(b) < 36_028_797_018_963_968
}

/// Whether the sizes of the first two inputs' samples tell that no product of them needs a limit. The sizes of the
/// first input's aren't asked for if the second input's are less than 1.0.
fn are_small(inputs: &Blocks) -> bool
    requires { 2 ≤ length inputs.now }
    ensures { result ≡ true → AreSmall inputs.now }
{
    let b = size(inputs, 1);
    if b < 16_777_216 {
        true
    } else {
        let a = size(inputs, 0);
        is_small(a, b)
    }
}

/// The product of two samples, which needs no limit.
fn small_product(a: i32, b: i32) -> i32
    requires { IsSmall a b }
    ensures scaled { result ≡ floor (a *ℤ b) 16777216 }
    ensures product { result ≡ mul a b }
{
    scaled_down(times(a, b))
}

/// Appends the products of the first two inputs, none of which needs a limit.
fn push_small_products(inputs: &Blocks, outputs: &mut Blocks)
    requires inputs { 2 ≤ length inputs.now }
    requires small { AreSmall inputs.now }
    requires outputs { length outputs.old < most_wires }
    ensures { outputs.new ≡ outputs.old ++ table (product inputs.now) block_frames ∷ [] }
{
    let a = inputs.block(0);
    let b = inputs.block(1);
    let mut samples = [0i32; BLOCK_FRAMES];
    for frame in 0..BLOCK_FRAMES {
        samples[frame] = small_product(a[frame], b[frame]);
    }
    outputs.push(&samples);
}

/// Appends the products of the first two inputs.
pub(crate) fn push_products(inputs: &Blocks, outputs: &mut Blocks)
    requires inputs { 2 ≤ length inputs.now }
    requires outputs { length outputs.old < most_wires }
    ensures { outputs.new ≡ outputs.old ++ table (product inputs.now) block_frames ∷ [] }
{
    if !inputs.is_steady() && are_small(inputs) {
        push_small_products(inputs, outputs);
    } else {
        push_frames(&Mul, inputs, outputs);
    }
}

/// Appends the sums of the third input and the products of the first two, none of which needs a limit.
fn push_small_product_sums(inputs: &Blocks, outputs: &mut Blocks)
    requires inputs { 3 ≤ length inputs.now }
    requires small { AreSmall inputs.now }
    requires outputs { length outputs.old < most_wires }
    ensures { outputs.new ≡ outputs.old ++ table (product_sum inputs.now) block_frames ∷ [] }
{
    let x = inputs.block(0);
    let m = inputs.block(1);
    let a = inputs.block(2);
    let mut samples = [0i32; BLOCK_FRAMES];
    for frame in 0..BLOCK_FRAMES {
        let product = small_product(x[frame], m[frame]);
        samples[frame] = add(product, a[frame]);
    }
    outputs.push(&samples);
}

/// Appends the sums of the third input and the products of the first two.
pub(crate) fn push_product_sums(inputs: &Blocks, outputs: &mut Blocks)
    requires inputs { 3 ≤ length inputs.now }
    requires outputs { length outputs.old < most_wires }
    ensures { outputs.new ≡ outputs.old ++ table (product_sum inputs.now) block_frames ∷ [] }
{
    if !inputs.is_steady() && are_small(inputs) {
        push_small_product_sums(inputs, outputs);
    } else {
        push_frames(&MulAdd, inputs, outputs);
    }
}
