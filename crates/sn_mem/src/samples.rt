//! Samples in words.
ghost use Rattle.std.specs.Prelude.{◌≡◌, ◌<◌, ◌≤◌, ◌+◌, ◌^◌, length};
ghost use Rattle.sn_ports.specs.Limits.{block_frames};
ghost use Rattle.sn_mem.specs.Blocks.{put, word_for, sample_in, samples_at, sample_words};

use crate::blocks::Block;
use sn_ports::limits::BLOCK_FRAMES;

/// The word that holds a sample, in its low 32 bits.
pub fn word_of(x: i32) -> u64
    ensures value { result ≡ word_for x }
    ensures bound { result < 2 ^ 32 }
{
    x.cast_unsigned() as u64
}

/// The sample in the low 32 bits of a word.
pub fn sample_of(word: u64) -> i32
    ensures { result ≡ sample_in word }
{
    ((word % 4_294_967_296) as u32).cast_signed()
}

/// The samples in a block's words from `at` on. It is inlined, as `put_samples` is, so that a compiler can keep samples
/// in registers and change four of them at a time.
#[inline(always)]
pub(crate) fn samples_in(words: &[u64], at: usize) -> Block
    requires { at + block_frames ≤ length words.now }
    ensures { result ≡ samples_at words.now at }
{
    let mut samples = [0i32; BLOCK_FRAMES];
    for frame in 0..BLOCK_FRAMES {
        samples[frame] = sample_of(words[at + frame]);
    }
    samples
}

/// Puts samples into a block's words from `at` on.
#[inline(always)]
pub(crate) fn put_samples(samples: &Block, words: &mut [u64], at: usize)
    requires { at + block_frames ≤ length words.old }
    ensures { words.new ≡ put words.old at (sample_words samples.now) }
{
    for frame in 0..BLOCK_FRAMES {
        words[at + frame] = word_of(samples[frame]);
    }
}
