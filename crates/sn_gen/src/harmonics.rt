//! Harmonics in equal parts.
ghost use Rattle.std.specs.Prelude.{◌≡◌, ◌<◌, ◌≤◌, ◌+◌, ◌*◌, ◌^◌, pos, ◌-ℤ◌, ◌*ℤ◌, unsigned_abs};
ghost use Rattle.sn_fixed.specs.Fixed.{floor, sat};
ghost use Rattle.sn_gen.specs.Harmonics.{harmonics_at, from_turn, kernel, harmonic_mean};

use crate::phases::{PhaseStep, moved};
use crate::rounded::pace;
use sn_fixed::{ONE, arc, sat_wide, wave};
use sn_mem::{Blocks, Recurrence};

const TURN: u64 = 4_294_967_296;

/// How many harmonics a wave that goes `m` in a frame has.
fn harmonics_at(m: u64, asked: i32) -> u64
    ensures value { result ≡ harmonics_at m asked }
    ensures some { 0 < result }
    ensures bound { result ≤ 2147483647 }
{
    let most = (TURN / 2 / m.max(1)) as i64;
    i64::from(asked).min(most).max(1).unsigned_abs()
}

/// How far a phase is from a whole number of turns, whichever way.
fn from_turn(phase: u32) -> u64
    ensures value { result ≡ from_turn phase }
    ensures bound { result ≤ 2147483648 }
{
    u64::from(phase).min(TURN - u64::from(phase))
}

/// A phase, taken an odd number of times.
#[tactic(auto, using(crate::proofs::Products::angle_small))]
fn odd_times(n: u64, phase: u32) -> u64
    requires { n ≤ 2147483647 }
    ensures { result ≡ (2 * n + 1) * phase }
{
    (2 * n + 1) * u64::from(phase)
}

/// A wave in 2^24 times its scale.
fn enlarged(w: i64) -> i128
    requires { unsigned_abs w ≤ 2 ^ 62 }
    ensures value { result ≡ w *ℤ pos 16777216 }
    ensures bound { unsigned_abs result ≤ 2 ^ 86 }
{
    i128::from(w) * i128::from(ONE)
}

/// The quotient, rounded down.
#[tactic(auto, using(crate::proofs::Products::floor_small))]
fn quotient(z: i128, d: u64) -> i128
    requires z { unsigned_abs z ≤ 2 ^ 86 }
    requires some { 0 < d }
    ensures value { result ≡ floor z d }
    ensures bound { unsigned_abs result ≤ 2 ^ 86 }
{
    z.div_euclid(i128::from(d))
}

/// What each of `n` harmonics has of twice their sum and 1.
fn share(sum: i128, n: u64) -> i32
    requires sum { unsigned_abs sum ≤ 2 ^ 86 }
    requires some { 0 < n }
    requires n { n ≤ 2147483647 }
    ensures { result ≡ sat (floor (sum -ℤ pos 16777216) (2 * n)) }
{
    sat_wide((sum - i128::from(ONE)).div_euclid(i128::from(2 * n)))
}

/// The mean of the cosines of `n` harmonics.
#[tactic(auto, unfolding(crate::specs::Harmonics::harmonic_mean))]
fn harmonic_mean(n: u64, phase: u32) -> i32
    requires some { 0 < n }
    requires n { n ≤ 2147483647 }
    ensures { result ≡ harmonic_mean n phase }
{
    let d = arc(from_turn(phase));
    if d == 0 {
        ONE
    } else {
        share(quotient(enlarged(wave(odd_times(n, phase))), d), n)
    }
}

/// Blip freq harmonics phase
#[derive(Clone, Copy)]
pub(crate) struct Blip {
    /// The step at the last frequency.
    pub phase_step: PhaseStep,
}

impl Recurrence for Blip {
    ghost use Rattle.sn_gen.specs.Harmonics.{blip};

    type State = u32;

    ghost arity = { λ _. 3 };

    ghost step = { λ u. blip u.phase_step.rate };

    fn next(&mut self, phase: u32, inputs: &Blocks, frame: usize) -> (u32, i32) {
        let growth = self.phase_step.at(inputs.at(0, frame));
        let n = harmonics_at(pace(growth), inputs.at(1, frame));
        let sample = harmonic_mean(n, moved(phase, inputs.at(2, frame)));
        (phase.wrapping_add(growth), sample)
    }
}
