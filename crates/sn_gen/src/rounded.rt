//! A saw whose step is rounded.
ghost use Rattle.std.specs.Prelude.{◌≡◌, ◌<◌, ◌≤◌, ◌+◌, ◌-◌, ◌*◌, ◌/◌, ◌^◌, ◌+ℤ◌, ◌-ℤ◌, ◌*ℤ◌, pos, unsigned_abs};
ghost use Rattle.sn_fixed.specs.Fixed.{step_of};
ghost use Rattle.sn_gen.specs.Rounded.{scaled, near_step, far_step, rounded, pace, after_half, rounded_saw};

use crate::oscillators::saw;
use crate::phases::{PhaseStep, moved};
use sn_fixed::sat;
use sn_mem::{Blocks, Recurrence};

const ONE: u64 = 16_777_216;

const TURN: u64 = 4_294_967_296;

/// The product of two numbers of at most 1.0, rounded down.
#[tactic(auto, using(crate::proofs::Products::product_small))]
fn scaled(a: u64, b: u64) -> u64
    requires a { a ≤ 16777216 }
    requires b { b ≤ 16777216 }
    ensures value { result ≡ scaled a b }
    ensures bound { result ≤ 16777216 }
{
    a * b / ONE
}

/// How far a rounded step is from its end, `t` of a frame after its middle.
fn near_step(t: u64) -> i64
    requires { t < 16777216 }
    ensures value { result ≡ near_step t }
    ensures bound { unsigned_abs result ≤ 2 ^ 30 }
{
    let a = scaled(t, t);
    let up = 12 * ONE + 8 * scaled(t, a);
    let down = 16 * t + 3 * scaled(a, a);
    (up as i64 - down as i64).div_euclid(24)
}

/// The fourth power of a number of at most 1.0, by 24.
#[tactic(auto, using(crate::proofs::Products::product_small))]
fn fourth(a: u64) -> u64
    requires { a ≤ 16777216 }
    ensures value { result ≡ a * a / 402653184 }
    ensures bound { result ≤ 16777216 }
{
    a * a / (24 * ONE)
}

/// The same from one frame to two after its middle.
fn far_step(t: u64) -> i64
    requires low { 16777216 ≤ t }
    requires high { t < 33554432 }
    ensures value { result ≡ far_step t }
    ensures bound { unsigned_abs result ≤ 2 ^ 30 }
{
    let left = 2 * ONE - t;
    fourth(scaled(left, left)) as i64
}

/// The frames from the middle of a step, of which 2^24 are one.
#[tactic(auto, using(crate::proofs::Products::frames_small))]
fn frames_after(z: u64, m: u64) -> u64
    requires pace { m ≤ 2147483648 }
    requires near { z < 2 * m }
    ensures value { result ≡ z * 16777216 / m }
    ensures bound { result < 33554432 }
{
    z * ONE / m
}

/// How far a rounded step is from its end, `z` after its middle at a pace of `m`.
#[tactic(auto, unfolding(crate::specs::Rounded::rounded))]
fn rounded(z: u64, m: u64) -> i64
    requires pace { m ≤ 2147483648 }
    ensures value { result ≡ rounded z m }
    ensures bound { unsigned_abs result ≤ 2 ^ 30 }
{
    if z >= 2 * m {
        return 0;
    }
    let t = frames_after(z, m);
    if t < ONE { near_step(t) } else { far_step(t) }
}

/// How far a phase goes in a frame, whichever way.
pub(crate) fn pace(growth: u32) -> u64
    ensures value { result ≡ pace growth }
    ensures bound { result ≤ 2147483648 }
{
    u64::from(growth).min(TURN - u64::from(growth))
}

/// How far a phase is after half a turn.
fn after_half(phase: u32) -> u64
    ensures value { result ≡ after_half phase }
    ensures bound { result < 4294967296 }
{
    (u64::from(phase) + TURN / 2) % TURN
}

/// How far a rounded step is from a sharp one, `after` its middle.
fn off(after: u64, m: u64) -> i64
    requires after { after ≤ 4294967296 }
    requires pace { m ≤ 2147483648 }
    ensures value { result ≡ rounded after m -ℤ rounded (4294967296 - after) m }
    ensures bound { unsigned_abs result ≤ 2 ^ 31 }
{
    rounded(after, m) - rounded(TURN - after, m)
}

/// A sample, moved by twice as much.
fn moved_twice(sample: i32, by: i64) -> i64
    requires { unsigned_abs by ≤ 2 ^ 31 }
    ensures { result ≡ sample +ℤ pos 2 *ℤ by }
{
    i64::from(sample) + 2 * by
}

/// The saw at a phase that goes `m` in a frame.
fn rounded_saw(m: u64, phase: u32) -> i32
    requires { m ≤ 2147483648 }
    ensures { result ≡ rounded_saw m phase }
{
    sat(moved_twice(saw(phase), off(after_half(phase), m)))
}

/// Saw freq phase
#[derive(Clone, Copy)]
pub(crate) struct Saw {
    /// The step at the last frequency.
    pub phase_step: PhaseStep,
}

impl Recurrence for Saw {
    ghost use Rattle.sn_gen.specs.Rounded.{saw_unit};

    type State = u32;

    ghost arity = { λ _. 2 };

    ghost step = { λ u. saw_unit u.phase_step.rate };

    fn next(&mut self, phase: u32, inputs: &Blocks, frame: usize) -> (u32, i32) {
        let growth = self.phase_step.at(inputs.at(0, frame));
        let sample = rounded_saw(pace(growth), moved(phase, inputs.at(1, frame)));
        (phase.wrapping_add(growth), sample)
    }
}
