//! A port with a plain copy of its first words.
ghost use Rattle.std.specs.Prelude.{◌≡◌, ◌≤◌, ◌<◌, ◌+◌, ◌^◌, ℕ, true, min, length};
ghost use Rattle.sn_ports.specs.Limits.{block_frames};
ghost use Rattle.sn_mem.specs.Words.{has, covers, touches, writes, SameButWords};
ghost use Rattle.sn_mem.specs.Blocks.{samples_at, window};
ghost use Rattle.sn_mem.specs.ThroughFoot.{outside};
ghost use Rattle.sn_mem.specs.Copies.{IsCopied, covered_below, had_below, localized};

use crate::blocks::Block;
use crate::extents::{Extent, Foot};
use crate::port::Port;
use crate::runs::{copy_in, put_word};
use crate::samples::{put_samples, samples_in};
use sn_ports::limits::BLOCK_FRAMES;
use std::collections::LinkedList;

/// What a port with a copy keeps. No value of it is made.
pub struct LocalRest<R> {
    /// The name of the reference to the port.
    pub port: u64,
    /// The name of the reference to the copy.
    pub copy: u64,
    /// What the port itself keeps.
    pub rest: R,
    /// How many words the copy has.
    pub size: u64,
    /// The words of the port that its foot may not write, with 0 in place of the others.
    pub outside: LinkedList<u64>,
}

/// A port with a plain copy of those of its first words that its foot may touch. Loads and stores of
/// these words go to the copy, and reach the port by `flush`.
pub struct LocalPort<'a, P> {
    /// The port.
    pub port: &'a mut P,
    /// The copy of a word stands at the word's own number. What stands at others means nothing.
    pub copy: &'a mut [u64],
}

/// The number of the first word past an extent, or the number of words if that is less.
fn end_within(extent: Extent, words: u32) -> u32
    ensures { result ≡ min (extent.at + extent.len) words }
{
    (extent.at as u64 + extent.len as u64).min(words as u64) as u32
}

/// Copies the words of an extent out of a port, as far as there is room for them.
#[tactic(auto, using(crate::proofs::Locals::copied_begin, crate::proofs::Locals::copied_next, crate::proofs::Locals::copied_end))]
fn take_extent<P: Port>(port: &mut P, extent: Extent, copy: &mut [u64])
    requires size { length copy.old < 2 ^ 32 }
    requires foot { (x : ℕ) → covers extent x ≡ true → touches (P.foot port.old) x ≡ true }
    ensures copied { IsCopied (covered_below (length copy.old) extent) (P.words port.old) copy.old copy.new }
    ensures words { P.words port.new ≡ P.words port.old }
    ensures port { SameButWords P.foot P.rest port.old port.new }
{
    let end = end_within(extent, copy.len() as u32);
    for at in extent.at..end {
        copy[at as usize] = port.load(at);
    }
}

/// Copies the words of an extent into a port, as far as they are there.
#[tactic(auto, using(crate::proofs::Locals::copied_begin, crate::proofs::Locals::copied_next, crate::proofs::Locals::copied_end))]
fn put_extent<P: Port>(port: &mut P, extent: Extent, copy: &[u64])
    requires size { length copy.now < 2 ^ 32 }
    requires foot { (x : ℕ) → covers extent x ≡ true → writes (P.foot port.old) x ≡ true }
    ensures copied { IsCopied (covered_below (length copy.now) extent) copy.now (P.words port.old) (P.words port.new) }
    ensures port { SameButWords P.foot P.rest port.old port.new }
{
    let end = end_within(extent, copy.len() as u32);
    for at in extent.at..end {
        put_word(port, at, copy[at as usize]);
    }
}

/// Copies the words of extents out of a port.
fn take_extents<P: Port>(port: &mut P, extents: &[Extent], copy: &mut [u64])
    requires size { length copy.old < 2 ^ 32 }
    requires foot { (x : ℕ) → has extents.now x ≡ true → touches (P.foot port.old) x ≡ true }
    ensures copied { IsCopied (had_below (length copy.old) extents.now) (P.words port.old) copy.old copy.new }
    ensures words { P.words port.new ≡ P.words port.old }
    ensures port { SameButWords P.foot P.rest port.old port.new }
{
    for extent in extents {
        take_extent(port, *extent, copy);
    }
}

/// Copies the words of extents into a port.
fn put_extents<P: Port>(port: &mut P, extents: &[Extent], copy: &[u64])
    requires size { length copy.now < 2 ^ 32 }
    requires foot { (x : ℕ) → has extents.now x ≡ true → writes (P.foot port.old) x ≡ true }
    ensures copied { IsCopied (had_below (length copy.now) extents.now) copy.now (P.words port.old) (P.words port.new) }
    ensures port { SameButWords P.foot P.rest port.old port.new }
{
    for extent in extents {
        put_extent(port, *extent, copy);
    }
}

impl<'a, P> LocalPort<'a, P> {
    /// Reads as many words of the copy as there is room for, from `at` on.
    #[tactic(auto, using(crate::proofs::Puts::window_is))]
    fn copy_out(&self, at: usize, into: &mut [u64])
        requires { at + length into.old ≤ length self.now.copy.now }
        ensures { into.new ≡ window self.now.copy.now at (length into.old) }
    {
        into.copy_from_slice(&self.copy[at..at + into.len()]);
    }

    /// The samples in a block's words of the copy from `at` on.
    #[inline(always)]
    fn copied_samples(&self, at: usize) -> Block
        requires { at + block_frames ≤ length self.now.copy.now }
        ensures { result ≡ samples_at self.now.copy.now at }
    {
        samples_in(self.copy, at)
    }
}

impl<'a, P: Port> LocalPort<'a, P> {
    /// The port, with its first words in a copy, as many as there is room for. The foot is the port's.
    pub fn new(port: &'a mut P, foot: &Foot, copy: &'a mut [u64]) -> LocalPort<'a, P>
        requires size { length copy.old < 2 ^ 32 }
        requires foot { foot.now ≡ P.foot port.old }
        ensures same_port { result.port.ghost_name ≡ port.entry.ghost_name }
        ensures same_copy { result.copy.ghost_name ≡ copy.entry.ghost_name }
        ensures size { length result.copy.now ≡ length copy.old }
        ensures words { localized (P.foot port.old) (P.words port.old) result.copy.now ≡ P.words port.old }
        ensures port { P.words result.port.now ≡ P.words port.old }
        ensures foot { P.foot result.port.now ≡ P.foot port.old }
        ensures rest { P.rest result.port.now ≡ P.rest port.old }
    {
        take_extents(port, foot.reads.as_slice(), copy);
        take_extents(port, foot.writes.as_slice(), copy);
        LocalPort { port, copy }
    }

    /// Stores those words of the copy in the port that it may write. The words of the port are then those that were
    /// seen.
    pub fn flush(self, foot: &Foot)
        requires size { length self.copy.now < 2 ^ 32 }
        requires foot { foot.now ≡ P.foot self.port.now }
        requires outside { outside (P.foot self.port.now) (localized (P.foot self.port.now) (P.words self.port.now) self.copy.now) ≡ outside (P.foot self.port.now) (P.words self.port.now) }
        ensures words { P.words self.exit.0.now ≡ localized (P.foot self.entry.port.now) (P.words self.entry.port.now) self.entry.copy.now }
        ensures foot { P.foot self.exit.0.now ≡ P.foot self.entry.port.now }
        ensures rest { P.rest self.exit.0.now ≡ P.rest self.entry.port.now }
    {
        let LocalPort { port, copy } = self;
        put_extents(port, foot.writes.as_slice(), copy);
    }
}

impl<P> Drop for LocalPort<'_, P> {
    fn drop(self)
        ensures port { self.exit.0.now ≡ self.entry.port.now }
        ensures copy { self.exit.1.0.now ≡ self.entry.copy.now }
    {
        let LocalPort { port: _, copy: _ } = self;
    }
}

impl<P: Port> Port for LocalPort<'_, P> {
    type Rest = LocalRest<P::Rest>;

    ghost words = { λ p. localized (P.foot p.port.now) (P.words p.port.now) p.copy.now };

    ghost foot = { λ p. P.foot p.port.now };

    ghost rest = { λ p. record { port = p.port.ghost_name; copy = p.copy.ghost_name; rest = P.rest p.port.now; size = length p.copy.now; outside = outside (P.foot p.port.now) (P.words p.port.now) } };

    fn load(&mut self, at: u32) -> u64 {
        let place = at as usize;
        if place < self.copy.len() {
            self.copy[place]
        } else {
            self.port.load(at)
        }
    }

    fn store(&mut self, at: u32, value: u64) {
        let place = at as usize;
        if place < self.copy.len() {
            self.copy[place] = value;
        } else {
            self.port.store(at, value);
        }
    }

    /// In one piece, if the copy has all of them.
    fn load_run(&mut self, at: u32, into: &mut [u64]) {
        let begin = at as usize;
        let end = begin + into.len();
        if end <= self.copy.len() {
            self.copy_out(begin, into);
        } else {
            for i in 0..into.len() {
                into[i] = self.load(at + i as u32);
            }
        }
    }

    /// In one piece, if the copy has all of them.
    fn store_run(&mut self, at: u32, run: &[u64]) {
        let begin = at as usize;
        let end = begin + run.len();
        if end <= self.copy.len() {
            copy_in(self.copy, begin, run);
        } else {
            for i in 0..run.len() {
                self.store(at + i as u32, run[i]);
            }
        }
    }

    /// Out of the copy, if it has all of the words.
    #[inline(always)]
    fn load_samples(&mut self, at: u32) -> Block {
        let begin = at as usize;
        let end = begin + BLOCK_FRAMES;
        if end <= self.copy.len() {
            self.copied_samples(begin)
        } else {
            let mut words = [0u64; BLOCK_FRAMES];
            self.load_run(at, &mut words);
            samples_in(&words, 0)
        }
    }

    /// Into the copy, if it has all of the words.
    #[inline(always)]
    fn store_samples(&mut self, at: u32, samples: &Block) {
        let begin = at as usize;
        let end = begin + BLOCK_FRAMES;
        if end <= self.copy.len() {
            put_samples(samples, self.copy, begin);
        } else {
            let mut words = [0u64; BLOCK_FRAMES];
            put_samples(samples, &mut words, 0);
            self.store_run(at, &words);
        }
    }

    ghost use Rattle.sn_mem.specs.Copies.{localized_inside};

    ghost inside = { λ p x t. localized_inside (P.foot p.port.now) (P.words p.port.now) p.copy.now x (P.inside p.port.now x t) };
}
