//! Samples of a buffer in the words that hold them.
ghost use Rattle.std.specs.Prelude.{◌≡◌, ◌≤◌, ◌<◌, ◌+◌, pos, length, slice_index_or, slice_set, replicate};
ghost use Rattle.sn_mem.specs.Words.{MayWrite, SameButWords};
ghost use Rattle.sn_mem.specs.Buffers.{samples_of};
ghost use Rattle.sn_world.specs.BufferNumbers.{set_from};
ghost use Rattle.sn_buscmd.specs.Samples.{KeepsAround};

use sn_mem::{Extent, Port, sample_of, word_of};

/// A sample.
pub fn sample_at<P: Port>(port: &mut P, words: Extent, index: u32) -> i32
    requires foot { MayWrite (P.foot port.old) words.at words.len }
    requires index { index < words.len }
    ensures value { result ≡ slice_index_or (samples_of (P.words port.old) words) index (pos 0) }
    ensures words { P.words port.new ≡ P.words port.old }
    ensures port { SameButWords P.foot P.rest port.old port.new }
{
    sample_of(port.load(words.at + index))
}

/// Sets a sample.
pub fn set_sample<P: Port>(port: &mut P, words: Extent, index: u32, value: i32)
    requires foot { MayWrite (P.foot port.old) words.at words.len }
    requires index { index < words.len }
    ensures samples { samples_of (P.words port.new) words ≡ slice_set (samples_of (P.words port.old) words) index value }
    ensures others { KeepsAround words (P.words port.old) (P.words port.new) }
    ensures port { SameButWords P.foot P.rest port.old port.new }
{
    port.store(words.at + index, word_of(value));
}

/// Sets samples in a row to one value.
pub fn fill_samples<P: Port>(port: &mut P, words: Extent, first: u32, count: u32, value: i32)
    requires foot { MayWrite (P.foot port.old) words.at words.len }
    requires run { first + count ≤ words.len }
    ensures samples { samples_of (P.words port.new) words ≡ set_from first (replicate count value) (samples_of (P.words port.old) words) }
    ensures others { KeepsAround words (P.words port.old) (P.words port.new) }
    ensures port { SameButWords P.foot P.rest port.old port.new }
{
    let end = first + count;
    for index in first..end {
        set_sample(port, words, index, value);
    }
}

/// Sets samples in a row, each to its value.
pub fn set_samples<P: Port>(port: &mut P, words: Extent, first: u32, values: &[i32])
    requires foot { MayWrite (P.foot port.old) words.at words.len }
    requires run { first + length values.now ≤ words.len }
    ensures samples { samples_of (P.words port.new) words ≡ set_from first values.now (samples_of (P.words port.old) words) }
    ensures others { KeepsAround words (P.words port.old) (P.words port.new) }
    ensures port { SameButWords P.foot P.rest port.old port.new }
{
    let mut index = first;
    for value in values {
        set_sample(port, words, index, *value);
        index += 1;
    }
}
