//! Pink noise.
ghost use Rattle.std.specs.Prelude.{ℕ, ℤ, List, ◌≡◌, ◌<◌, ◌≤◌, ◌∷◌, [], ◌+ℤ◌, ◌-ℤ◌, ◌^◌, unsigned_abs, length};
ghost use Rattle.sn_ports.specs.Limits.{block_frames};
ghost use Rattle.sn_mem.specs.Words.{MayWrite, SameButWords};
ghost use Rattle.sn_mem.specs.Blocks.{recurred, scan};
ghost use Rattle.sn_gen.specs.Pink.{faces_in, dice_in, face_words, dice_words, face, die_at, total_with, with_throw, rolled, pink_noise};

use crate::noise::{Draws, drawn, last_or, word_after};
use sn_fixed::{add, sat};
use sn_mem::{Block, Blocks, Port, Stored, load_words, sample_of, store_words, word_of};
use sn_ports::limits::BLOCK_FRAMES;

/// The number of dice.
const DICE: usize = 16;

/// The number of words of the state.
const WORDS: usize = 19;

/// Sixteen dice, of which each is thrown half as often as the one before it.
#[derive(Clone, Copy)]
pub(crate) struct Dice {
    /// The numbers that the throws are made of.
    pub draws: Draws,
    /// The count of the frames, modulo 65536.
    pub count: u16,
    /// The sum of the dice.
    pub total: i32,
    /// What each of them shows.
    pub faces: [i32; DICE],
}

/// What the dice show, from the words of the state.
fn faces_in(words: &[u64]) -> [i32; DICE]
    requires { length words.now ≡ 19 }
    ensures { result ≡ faces_in words.now }
{
    let mut faces = [0i32; DICE];
    for die in 0..DICE {
        faces[die] = sample_of(words[3 + die]);
    }
    faces
}

/// The words that hold what the dice show.
fn face_words(faces: [i32; DICE]) -> [u64; DICE]
    ensures { result ≡ face_words faces }
{
    let mut words = [0u64; DICE];
    for die in 0..DICE {
        words[die] = word_of(faces[die]);
    }
    words
}

impl Dice {
    /// The state that these words hold.
    fn load(words: &[u64]) -> Dice
        requires { length words.now ≡ 19 }
        ensures { result ≡ dice_in words.now }
    {
        Dice {
            draws: Draws::load(&words[..1]),
            count: (words[1] % 65_536) as u16,
            total: sample_of(words[2]),
            faces: faces_in(words),
        }
    }

    /// Writes the state into these words.
    fn store(self, words: &mut [u64])
        requires { length words.old ≡ 19 }
        ensures { words.new ≡ dice_words self }
    {
        words[..3].copy_from_slice(&[
            word_after(self.draws.last),
            u64::from(self.count),
            word_of(self.total),
        ]);
        words[3..].copy_from_slice(&face_words(self.faces));
    }
}

/// What a die shows for a number that was drawn.
fn face(number: u32) -> i32
    ensures { result ≡ face number }
{
    number.cast_signed().div_euclid(2048)
}

/// The die that is thrown at a count.
fn die_at(count: u16) -> usize
    ensures value { result ≡ die_at count }
    ensures bound { result < 16 }
{
    count.trailing_zeros().min(15) as usize
}

/// The exact sum of two samples.
fn both(a: i32, b: i32) -> i64
    ensures value { result ≡ a +ℤ b }
    ensures bound { unsigned_abs result ≤ 2 ^ 32 }
{
    i64::from(a) + i64::from(b)
}

/// A sum without one of its parts.
fn without(sum: i64, part: i32) -> i64
    requires { unsigned_abs sum ≤ 2 ^ 32 }
    ensures { result ≡ sum -ℤ part }
{
    sum - i64::from(part)
}

/// The sum of the dice after a throw of one of them.
fn total_with(state: Dice, die: usize, sample: i32) -> i32
    requires { die < 16 }
    ensures { result ≡ total_with state die sample }
{
    sat(without(both(state.total, sample), state.faces[die]))
}

/// The dice after a throw of one of them.
fn with_throw(state: Dice, die: usize, sample: i32) -> Dice
    requires { die < 16 }
    ensures { result ≡ with_throw state die sample }
{
    let total = total_with(state, die, sample);
    let mut faces = state.faces;
    faces[die] = sample;
    Dice {
        total,
        faces,
        ..state
    }
}

/// One frame. Returns the dice after it, and its sample.
fn rolled(first: u32, state: Dice) -> (Dice, i32)
    ensures { result ≡ rolled first state }
{
    let count = state.count.wrapping_add(1);
    let number = drawn(last_or(first, state.draws.last));
    let last = drawn(number);
    let after = with_throw(state, die_at(count), face(number));
    let draws = Draws { last: Some(last) };
    (
        Dice {
            draws,
            count,
            ..after
        },
        add(after.total, face(last)),
    )
}

/// Rolls the dice from a state for the frames of a block. Returns the state after them.
fn run_frames(first: u32, begin: Dice, samples: &mut Block) -> Dice
    ensures state { (inputs : List (List ℤ)) → result ≡ (scan (pink_noise first) begin inputs block_frames).0 }
    ensures samples { (inputs : List (List ℤ)) → samples.new ≡ (scan (pink_noise first) begin inputs block_frames).1 }
{
    let mut state = begin;
    for frame in 0..BLOCK_FRAMES {
        let (after, sample) = rolled(first, state);
        state = after;
        samples[frame] = sample;
    }
    state
}

/// Runs PinkNoise for a block, as `run_recurrence` does a unit of at most 8 words. `first` is the seed: the number
/// after it is drawn first.
pub(crate) fn run_pink_noise<P: Port>(first: u32, port: &mut P, at: u32, outputs: &mut Blocks)
    requires state { MayWrite (P.foot port.old) at 19 }
    ensures words { (inputs : List (List ℤ)) → P.words port.new ≡ (recurred 19 dice_in dice_words (pink_noise first) (P.words port.old) at inputs).0 }
    ensures outputs { (inputs : List (List ℤ)) → outputs.new ≡ (recurred 19 dice_in dice_words (pink_noise first) (P.words port.old) at inputs).1 ∷ [] }
    ensures port { SameButWords P.foot P.rest port.old port.new }
{
    let mut words = [0u64; WORDS];
    load_words(port, at, &mut words);
    let mut samples = [0i32; BLOCK_FRAMES];
    let state = run_frames(first, Dice::load(&words), &mut samples);
    outputs.clear();
    outputs.push(&samples);
    state.store(&mut words);
    store_words(port, at, &words);
}
