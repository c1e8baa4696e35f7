//! States of units in words.
ghost use Rattle.std.specs.Prelude.{◌≡◌, ◌≤◌, ℕ, List, length};

use crate::samples::{sample_of, word_of};

/// A state that some words hold.
pub trait Stored {
    /// The number of words.
    ghost size: { ℕ };

    /// The state that words hold.
    ghost loaded: { List ℕ → Self };

    /// The words that hold a state.
    ghost stored: { Self → List ℕ };

    /// The number of words: at most 8.
    fn size() -> usize
        ensures value { result ≡ size }
        ensures bound { result ≤ 8 };

    /// The value that these words hold.
    fn load(words: &[u64]) -> Self
        requires { length words.now ≡ size }
        ensures { result ≡ loaded words.now };

    /// Writes the value into these words.
    fn store(self, words: &mut [u64])
        requires { length words.old ≡ size }
        ensures { words.new ≡ stored self };
}

/// A number in the low 32 bits of one word.
impl Stored for u32 {
    ghost use Rattle.std.specs.Prelude.{◌∷◌, [], ◌%◌, slice_index};

    ghost size = { 1 };

    ghost loaded = { λ ws. slice_index ws 0 % 4294967296 };

    ghost stored = { λ n. n ∷ [] };

    fn size() -> usize {
        1
    }

    fn load(words: &[u64]) -> u32 {
        (words[0] % 4_294_967_296) as u32
    }

    fn store(self, words: &mut [u64]) {
        words[0] = u64::from(self);
    }
}

/// A sample in one word.
impl Stored for i32 {
    ghost use Rattle.std.specs.Prelude.{◌∷◌, [], slice_index};
    ghost use Rattle.sn_mem.specs.Blocks.{word_for, sample_in};

    ghost size = { 1 };

    ghost loaded = { λ ws. sample_in (slice_index ws 0) };

    ghost stored = { λ x. word_for x ∷ [] };

    fn size() -> usize {
        1
    }

    fn load(words: &[u64]) -> i32 {
        sample_of(words[0])
    }

    fn store(self, words: &mut [u64]) {
        words[0] = word_of(self);
    }
}
