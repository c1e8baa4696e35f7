//! Filters with one sample or two of memory.
ghost use Rattle.std.specs.Prelude.{◌≡◌, ◌≤◌, ◌^◌, ◌≤ℤ◌, ◌+ℤ◌, ◌-ℤ◌, ◌*ℤ◌, pos, negsuc, unsigned_abs};
ghost use Rattle.sn_fixed.specs.Fixed.{floor, sat};
ghost use Rattle.sn_filt.specs.Arithmetic.{clipped};
ghost use Rattle.sn_filt.specs.Poles.{pole, lag_sample};

use sn_fixed::{ONE, TimeFrames, mul_add, nearer, sat, scaled, times};
use sn_mem::{Blocks, Recurrence, Stored, sample_of, word_of};

/// The sample nearest to `x` from -1.0 to 1.0.
pub(crate) fn clipped(x: i32) -> i32
    ensures { result ≡ clipped x }
{
    x.min(ONE).max(-ONE)
}

/// What `c` leaves of 1.0.
pub(crate) fn rest(c: i32) -> i32
    requires low { negsuc 16777215 ≤ℤ c }
    requires high { c ≤ℤ pos 16777216 }
    ensures value { result ≡ pos 16777216 -ℤ pos (unsigned_abs c) }
    ensures bound { unsigned_abs result ≤ 2 ^ 24 }
{
    ONE - c.unsigned_abs() as i32
}

/// The exact product of a weight of at most 1.0 and a sample.
#[tactic(auto, using(crate::proofs::Shares::share_small))]
pub(crate) fn share(weight: i32, x: i32) -> i64
    requires { unsigned_abs weight ≤ 2 ^ 24 }
    ensures value { result ≡ weight *ℤ x }
    ensures bound { unsigned_abs result ≤ 2 ^ 55 }
{
    times(weight, x)
}

/// The sample nearest to a sum of shares in the scale of samples, rounded down.
fn mean(a: i64, b: i64) -> i32
    requires a { unsigned_abs a ≤ 2 ^ 55 }
    requires b { unsigned_abs b ≤ 2 ^ 55 }
    ensures { result ≡ sat (floor (a +ℤ b) 16777216) }
{
    sat(scaled(a + b))
}

/// The next output of a pole.
pub(crate) fn pole(last: i32, x: i32, c: i32) -> i32
    requires low { negsuc 16777215 ≤ℤ c }
    requires high { c ≤ℤ pos 16777216 }
    ensures { result ≡ pole last x c }
{
    mean(share(rest(c), x), share(c, last))
}

/// OnePole x c
#[derive(Clone, Copy)]
pub(crate) struct OnePole;

impl Recurrence for OnePole {
    ghost use Rattle.sn_filt.specs.Poles.{one_pole};

    type State = i32;

    ghost arity = { λ _. 2 };

    ghost step = { λ _. one_pole };

    fn next(&mut self, last: i32, inputs: &Blocks, frame: usize) -> (i32, i32) {
        let y = pole(last, inputs.at(0, frame), clipped(inputs.at(1, frame)));
        (y, y)
    }
}

/// Integrator x c
#[derive(Clone, Copy)]
pub(crate) struct Integrator;

impl Recurrence for Integrator {
    ghost use Rattle.sn_filt.specs.Poles.{integrator};

    type State = i32;

    ghost arity = { λ _. 2 };

    ghost step = { λ _. integrator };

    fn next(&mut self, last: i32, inputs: &Blocks, frame: usize) -> (i32, i32) {
        let y = mul_add(inputs.at(1, frame), last, inputs.at(0, frame));
        (y, y)
    }
}

/// Delay1 x
#[derive(Clone, Copy)]
pub(crate) struct Delay1;

impl Recurrence for Delay1 {
    ghost use Rattle.sn_filt.specs.Poles.{delay1};

    type State = i32;

    ghost arity = { λ _. 1 };

    ghost step = { λ _. delay1 };

    fn next(&mut self, last: i32, inputs: &Blocks, frame: usize) -> (i32, i32) {
        (inputs.at(0, frame), last)
    }
}

/// The state of a lag: whether it has begun, and the last output.
#[derive(Clone, Copy)]
pub(crate) struct Lagged {
    /// Whether the first frame has passed.
    pub begun: bool,
    /// The last output.
    pub last: i32,
}

impl Stored for Lagged {
    ghost use Rattle.sn_filt.specs.Poles.{lagged_in, lagged_words};

    ghost size = { 2 };

    ghost loaded = { lagged_in };

    ghost stored = { lagged_words };

    fn size() -> usize {
        2
    }

    fn load(words: &[u64]) -> Lagged {
        Lagged {
            begun: words[0] != 0,
            last: sample_of(words[1]),
        }
    }

    fn store(self, words: &mut [u64]) {
        words.copy_from_slice(&[if self.begun { 1 } else { 0 }, word_of(self.last)]);
    }
}

/// Lag x time
#[derive(Clone, Copy)]
pub(crate) struct Lag {
    /// The frames of the last time.
    pub frames: TimeFrames,
}

impl Lag {
    fn sample(&mut self, state: Lagged, x: i32, time: i32) -> i32
        ensures value { result ≡ lag_sample self.old.frames.rate state x time }
        ensures rate { self.new.frames.rate ≡ self.old.frames.rate }
    {
        if state.begun {
            nearer(state.last, x, self.frames.at(time).max(1))
        } else {
            x
        }
    }
}

impl Recurrence for Lag {
    ghost use Rattle.sn_filt.specs.Poles.{lag};

    type State = Lagged;

    ghost arity = { λ _. 2 };

    ghost step = { λ u. lag u.frames.rate };

    fn next(&mut self, state: Lagged, inputs: &Blocks, frame: usize) -> (Lagged, i32) {
        let last = self.sample(state, inputs.at(0, frame), inputs.at(1, frame));
        (Lagged { begun: true, last }, last)
    }
}
