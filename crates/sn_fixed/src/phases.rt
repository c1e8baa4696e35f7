//! Phases and times.
ghost use Rattle.std.specs.Prelude.{◌≡◌, ◌<◌, ◌≤◌, ◌-◌, ◌*◌, ◌/◌, ◌^◌};
ghost use Rattle.sn_fixed.specs.Fixed.{floor, step_of, frames_of};
ghost use Rattle.sn_fixed.specs.Sine.{sine, height};

use std::num::saturating_f64_to_u64;

const TURN: i64 = 4_294_967_296;

pub(crate) const HALF_TURN: u32 = 2_147_483_648;

/// A quotient by 1000 times the rate, rounded down. The three rates are constants here, since a
/// division by a constant is a product.
fn thousandth(whole: i64, rate: u32) -> i64
    requires { 0 < rate }
    ensures { result ≡ floor whole (1000 * rate) }
{
    match rate {
        44_100 => whole.div_euclid(44_100_000),
        48_000 => whole.div_euclid(48_000_000),
        96_000 => whole.div_euclid(96_000_000),
        _ => whole.div_euclid(1000 * i64::from(rate)),
    }
}

/// By how much a phase grows at each frame. `freq` is in millihertz and `rate` in frames a second; a phase turns at
/// 2^32, so a negative frequency wraps.
#[tactic(auto, unfolding(crate::specs::Fixed::step_of))]
pub fn step_of(freq: i32, rate: u32) -> u32
    requires { 0 < rate }
    ensures { result ≡ step_of freq rate }
{
    thousandth(i64::from(freq) * TURN, rate).rem_euclid(TURN) as u32
}

/// The frames of `ms` milliseconds, rounded down: 0 if `ms` is negative, and at most 2^31 - 1.
#[tactic(auto, unfolding(crate::specs::Fixed::frames_of))]
pub fn frames_of(ms: i32, rate: u32) -> u32
    ensures { result ≡ frames_of ms rate }
{
    if ms < 0 {
        return 0;
    }
    (ms as u64 * u64::from(rate) / 1000).min(i32::MAX as u64) as u32
}

/// A product of two parts of the half turn.
#[tactic(auto, using(crate::proofs::HalfWave::product_small))]
fn product(h: u32) -> u32
    requires { h ≤ 65536 }
    ensures value { result ≡ h * (65536 - h) }
    ensures bound { result ≤ 1073741824 }
{
    (u64::from(h) * (65_536 - u64::from(h))) as u32
}

/// A guess at the height for this product. The contract promises its bound alone.
fn guess(q: u32) -> u64
    ensures { result ≤ 16777216 }
{
    let q = f64::from(q);
    saturating_f64_to_u64(q * 67_108_864.0 / (5_368_709_120.0 - q)).min(16_777_216)
}

/// The quotient, rounded down. If the guess is right, it takes no division.
#[tactic(auto, using(crate::proofs::HalfWave::guessed))]
fn quotient(dividend: u64, divisor: u64, guess: u64) -> u64
    requires some { 0 < divisor }
    requires divisor { divisor < 2 ^ 35 }
    requires guess { guess ≤ 16777216 }
    ensures { result ≡ dividend / divisor }
{
    let below = guess * divisor;
    if below <= dividend && dividend - below < divisor {
        guess
    } else {
        dividend / divisor
    }
}

/// The height of the half wave at place `h` of 65,536.
#[tactic(auto, using(crate::proofs::HalfWave::height_small))]
pub(crate) fn height(h: u32) -> u32
    requires { h ≤ 65536 }
    ensures value { result ≡ height h }
    ensures bound { result ≤ 16777216 }
{
    let q = product(h);
    let wide = u64::from(q);
    quotient(16 * wide * 16_777_216, 21_474_836_480 - 4 * wide, guess(q)) as u32
}

/// The sine of a phase as a sample, by Bhaskara's approximation. 2^32 is a turn.
#[tactic(auto, unfolding(crate::specs::Sine::sine))]
pub fn sine(p: u32) -> i32
    ensures { result ≡ sine p }
{
    let height = height(p % HALF_TURN / 32_768) as i32;
    if p < HALF_TURN { height } else { -height }
}
