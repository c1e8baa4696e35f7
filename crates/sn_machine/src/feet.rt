//! Which words a job may touch, and whether lists of words agree on them.
ghost use Rattle.std.specs.Prelude.{◌≡◌, ◌≤◌, ◌<◌, ℕ, IsTrue, true, false, length, slice_index};
ghost use Rattle.sn_mem.specs.Words.{touches, writes};

use sn_mem::Foot;

/// Whether a job of this foot may write the word.
pub fn may_write(foot: &Foot, word: u64) -> bool
    ensures { result ≡ writes foot.now word }
{
    foot.writes.has(word)
}

/// Whether a job of this foot may read or write the word.
pub fn may_touch(foot: &Foot, word: u64) -> bool
    ensures { result ≡ touches foot.now word }
{
    may_write(foot, word) || foot.reads.has(word)
}

fn word(words: &[u64], number: usize) -> u64
    ensures { result ≡ slice_index words.now number }
{
    if number < words.len() {
        words[number]
    } else {
        0
    }
}

/// Whether two lists of words agree on what a job of this foot may write.
pub fn agree(foot: &Foot, some: &[u64], others: &[u64]) -> bool
    ensures { IsTrue result → (x : ℕ) → writes foot.now x ≡ true → slice_index some.now x ≡ slice_index others.now x }
{
    for number in 0..some.len().max(others.len()) {
        if may_write(foot, number as u64) && word(some, number) != word(others, number) {
            return false;
        }
    }
    true
}

/// Whether two lists of words have one length, and agree outside what a job of this foot may write.
pub fn agree_outside(foot: &Foot, some: &[u64], others: &[u64]) -> bool
    ensures same { IsTrue result → (x : ℕ) → writes foot.now x ≡ false → slice_index some.now x ≡ slice_index others.now x }
    ensures long { IsTrue result → length some.now ≡ length others.now }
{
    if some.len() != others.len() {
        return false;
    }
    for number in 0..some.len() {
        if !may_write(foot, number as u64) && word(some, number) != word(others, number) {
            return false;
        }
    }
    true
}
