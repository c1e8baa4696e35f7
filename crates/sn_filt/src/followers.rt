//! Units that follow an input, up and down by factors of their own.
ghost use Rattle.std.specs.Prelude.{◌≡◌, ◌≤◌, ◌^◌, ◌+ℤ◌, ◌-ℤ◌, ◌*ℤ◌, pos, unsigned_abs, cond, FitsSigned};
ghost use Rattle.std.specs.Int.{w64};
ghost use Rattle.sn_fixed.specs.Fixed.{floor, sat};
ghost use Rattle.sn_fixed.specs.Lines.{IsBetween};
ghost use Rattle.sn_filt.specs.Followers.{factor, place_after};

use sn_fixed::{ONE, sat};
use sn_mem::{Blocks, Recurrence, Stored};

/// The state of a follower: whether it has begun, and its place.
#[derive(Clone, Copy)]
pub(crate) struct Followed {
    /// Whether the first frame has passed.
    pub begun: bool,
    /// The place, of which 2^40 is 1.0.
    pub place: i64,
}

impl Stored for Followed {
    ghost use Rattle.sn_filt.specs.Followers.{followed_in, followed_words};

    ghost size = { 2 };

    ghost loaded = { followed_in };

    ghost stored = { followed_words };

    fn size() -> usize {
        2
    }

    fn load(words: &[u64]) -> Followed {
        Followed {
            begun: words[0] != 0,
            place: words[1].cast_signed(),
        }
    }

    fn store(self, words: &mut [u64]) {
        words.copy_from_slice(&[if self.begun { 1 } else { 0 }, self.place.cast_unsigned()]);
    }
}

/// A sample as a place.
fn place_of(x: i32) -> i64
    ensures value { result ≡ x *ℤ pos 65536 }
    ensures bound { unsigned_abs result ≤ 2 ^ 47 }
{
    i64::from(x) * 65_536
}

/// The exact way from `goal` to `place`.
fn way(place: i64, goal: i64) -> i128
    ensures value { result ≡ place -ℤ goal }
    ensures bound { unsigned_abs result ≤ 2 ^ 64 }
{
    i128::from(place) - i128::from(goal)
}

/// The factor for a way: `up` below 0, else `down`, at least 0 and at most 1.0.
fn factor(way: i128, up: i32, down: i32) -> u32
    ensures value { pos result ≡ factor way up down }
    ensures bound { result ≤ 16777216 }
{
    let factor = if way < 0 { up } else { down };
    factor.min(ONE).max(0) as u32
}

fn product(way: i128, factor: u32) -> i128
    requires { unsigned_abs way ≤ 2 ^ 64 }
    ensures { result ≡ way *ℤ pos factor }
{
    way * i128::from(factor)
}

fn scaled(product: i128) -> i128
    ensures { result ≡ floor product 16777216 }
{
    product.div_euclid(16_777_216)
}

/// The factor's part of a way, rounded down.
fn part(way: i128, factor: u32) -> i128
    requires way { unsigned_abs way ≤ 2 ^ 64 }
    requires factor { factor ≤ 16777216 }
    ensures value { result ≡ floor (way *ℤ pos factor) 16777216 }
    ensures between { IsBetween result way }
{
    scaled(product(way, factor))
}

/// The goal, moved by `by`.
fn moved(goal: i64, by: i128) -> i64
    requires way { unsigned_abs by ≤ 2 ^ 64 }
    requires fits { FitsSigned w64 (goal +ℤ by) }
    ensures { result ≡ goal +ℤ by }
{
    (i128::from(goal) + by) as i64
}

/// The place after a frame.
fn place_after(goal: i64, place: i64, up: i32, down: i32) -> i64
    ensures { result ≡ place_after goal (place -ℤ goal) up down }
{
    let way = way(place, goal);
    moved(goal, part(way, factor(way, up, down)))
}

fn begun(state: Followed, goal: i64) -> i64
    ensures { result ≡ cond state.begun state.place goal }
{
    if state.begun { state.place } else { goal }
}

/// The sample nearest to a place, rounded down.
fn sample_at(place: i64) -> i32
    ensures { result ≡ sat (floor place 65536) }
{
    sat(place.div_euclid(65_536))
}

/// LagUD x up down
#[derive(Clone, Copy)]
pub(crate) struct LagUD;

impl Recurrence for LagUD {
    ghost use Rattle.sn_filt.specs.Followers.{lag_ud};

    type State = Followed;

    ghost arity = { λ _. 3 };

    ghost step = { λ _. lag_ud };

    fn next(&mut self, state: Followed, inputs: &Blocks, frame: usize) -> (Followed, i32) {
        let goal = place_of(inputs.at(0, frame));
        let last = begun(state, goal);
        let place = place_after(goal, last, inputs.at(1, frame), inputs.at(2, frame));
        (Followed { begun: true, place }, sample_at(place))
    }
}
