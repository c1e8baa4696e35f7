//! Filters whose weights are known to be the same at each frame of a block.
ghost use Rattle.std.specs.Prelude.{◌≡◌, ◌<◌, ◌≤◌, ◌≤ℤ◌, ◌+ℤ◌, ◌*ℤ◌, ◌-ℤ◌, ◌∷◌, [], pos, negsuc, ℕ, ℤ, List, IfSome, replicate, length, unsigned_abs, FitsSigned};
ghost use Rattle.std.specs.Int.{w32};
ghost use Rattle.sn_ports.specs.Limits.{block_frames};
ghost use Rattle.sn_fixed.specs.Fixed.{floor};
ghost use Rattle.sn_mem.specs.Words.{MayWrite, SameButWords};
ghost use Rattle.sn_mem.specs.Blocks.{block, recurred, scan};
ghost use Rattle.sn_filt.specs.Arithmetic.{clipped};
ghost use Rattle.sn_filt.specs.Poles.{pole, one_pole, sample_of_words, sample_words};

use crate::poles::{OnePole, clipped, rest, share};
use sn_fixed::ONE;
use sn_mem::{Block, Blocks, Port, Stored, load_words, run_recurrence, store_words};
use sn_ports::limits::BLOCK_FRAMES;

/// A product in the scale of samples, rounded down, where that is a sample.
pub(crate) fn scaled_down(product: i64) -> i32
    requires { FitsSigned w32 (floor product 16777216) }
    ensures { result ≡ floor product 16777216 }
{
    (product >> 24) as i32
}

/// The next output of a pole. It lies between the input and the last output, or the negative of that if `c` is less
/// than 0, so it needs no limit. With a `c` of -1.0 it would need one: the negative of -128.0 isn't a sample.
fn unlimited_pole(last: i32, x: i32, rest: i32, c: i32) -> i32
    requires low { negsuc 16777214 ≤ℤ c }
    requires high { c ≤ℤ pos 16777216 }
    requires rest { rest ≡ pos 16777216 -ℤ pos (unsigned_abs c) }
    ensures { result ≡ pole last x c }
{
    scaled_down(share(rest, x) + share(c, last))
}

/// A block of OnePole from its last output on. Returns its last output then.
fn run_poles(begin: i32, x: &Block, c: i32, samples: &mut Block) -> i32
    requires low { negsuc 16777214 ≤ℤ c }
    requires high { c ≤ℤ pos 16777216 }
    ensures last { (weight : ℤ) (inputs : List (List ℤ)) → c ≡ clipped weight → block inputs 0 ≡ x.now → block inputs 1 ≡ replicate block_frames weight → result ≡ (scan one_pole begin inputs block_frames).0 }
    ensures samples { (weight : ℤ) (inputs : List (List ℤ)) → c ≡ clipped weight → block inputs 0 ≡ x.now → block inputs 1 ≡ replicate block_frames weight → samples.new ≡ (scan one_pole begin inputs block_frames).1 }
{
    let rest = rest(c);
    let mut last = begin;
    for frame in 0..BLOCK_FRAMES {
        last = unlimited_pole(last, x[frame], rest, c);
        samples[frame] = last;
    }
    last
}

/// The block of OnePole whose weight is known to be the same at each frame, and not to be -1.0. Returns its last
/// output then. Returns `None` for any other block, and then puts nothing out.
fn with_weight(begin: i32, inputs: &Blocks, outputs: &mut Blocks) -> Option<i32>
    requires { 2 ≤ length inputs.now }
    ensures last { IfSome result (λ last. last ≡ (scan one_pole begin inputs.now block_frames).0) }
    ensures outputs { IfSome result (λ _. outputs.new ≡ (scan one_pole begin inputs.now block_frames).1 ∷ []) }
{
    match inputs.same(1) {
        Some(weight) => {
            let c = clipped(weight);
            if c == -ONE {
                return None;
            }
            let mut samples = [0i32; BLOCK_FRAMES];
            let last = run_poles(begin, inputs.block(0), c, &mut samples);
            outputs.clear();
            outputs.push(&samples);
            Some(last)
        }
        None => None,
    }
}

/// Runs OnePole for a block, as `run_recurrence` does, which runs the blocks whose weight isn't steady.
pub(crate) fn run_one_pole<P: Port>(port: &mut P, at: u32, inputs: &Blocks, outputs: &mut Blocks)
    requires inputs { 2 ≤ length inputs.now }
    requires state { MayWrite (P.foot port.old) at 1 }
    ensures words { P.words port.new ≡ (recurred 1 sample_of_words sample_words one_pole (P.words port.old) at inputs.now).0 }
    ensures outputs { outputs.new ≡ (recurred 1 sample_of_words sample_words one_pole (P.words port.old) at inputs.now).1 ∷ [] }
    ensures port { SameButWords P.foot P.rest port.old port.new }
{
    let mut words = [0u64; 1];
    load_words(port, at, &mut words);
    match with_weight(i32::load(&words), inputs, outputs) {
        Some(last) => {
            last.store(&mut words);
            store_words(port, at, &words);
        }
        None => run_recurrence(&OnePole, port, at, inputs, outputs),
    }
}
