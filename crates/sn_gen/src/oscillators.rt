//! Oscillators.
ghost use Rattle.std.specs.Prelude.{◌≡◌, ◌<◌, ◌≤ℤ◌, pos, negsuc};
ghost use Rattle.sn_fixed.specs.Fixed.{floor};
ghost use Rattle.sn_gen.specs.Oscillators.{saw, pulse, triangle};

use crate::phases::{PhaseStep, moved};
use crate::waves::Wave;
use sn_fixed::{Heights, ONE};
use sn_mem::{Blocks, Recurrence};

/// From -1.0 to 1.0, by the signed value of the phase.
pub(crate) fn saw(phase: u32) -> i32
    ensures { result ≡ saw phase }
{
    phase.cast_signed().div_euclid(128)
}

fn pulse(phase: u32, width: i32) -> i32
    ensures { result ≡ pulse phase width }
{
    if ((phase / 256) as i32) < width {
        ONE
    } else {
        0
    }
}

fn sixty_fourth(x: i64) -> i32
    requires low { negsuc 2147483647 ≤ℤ x }
    requires high { x ≤ℤ pos 2147483647 }
    ensures { result ≡ floor x 64 }
{
    (x as i32).div_euclid(64)
}

fn triangle(phase: u32) -> i32
    ensures { result ≡ triangle phase }
{
    let q = i64::from(phase);
    if phase < 1_073_741_824 {
        sixty_fourth(q)
    } else if phase < 3_221_225_472 {
        sixty_fourth(2_147_483_648 - q)
    } else {
        sixty_fourth(q - 4_294_967_296)
    }
}

/// The wave of SinOsc freq phase
#[derive(Clone, Copy)]
pub(crate) struct SineWave<'a> {
    /// The table from which sines are taken.
    pub heights: &'a Heights,
}

impl<'a> Wave for SineWave<'a> {
    ghost use Rattle.sn_fixed.specs.Sine.{sine};

    ghost shape = { λ _. sine };

    fn sample(&self, phase: u32) -> i32 {
        self.heights.sine(phase)
    }
}

/// The wave of LFSaw freq phase
#[derive(Clone, Copy)]
pub(crate) struct SawWave;

impl Wave for SawWave {
    ghost use Rattle.sn_gen.specs.Oscillators.{saw};

    ghost shape = { λ _. saw };

    fn sample(&self, phase: u32) -> i32 {
        saw(phase)
    }
}

/// The wave of LFTri freq phase
#[derive(Clone, Copy)]
pub(crate) struct TriangleWave;

impl Wave for TriangleWave {
    ghost use Rattle.sn_gen.specs.Oscillators.{triangle};

    ghost shape = { λ _. triangle };

    fn sample(&self, phase: u32) -> i32 {
        triangle(phase)
    }
}

/// LFPulse freq phase width
#[derive(Clone, Copy)]
pub(crate) struct LFPulse {
    /// The step at the last frequency.
    pub phase_step: PhaseStep,
}

impl Recurrence for LFPulse {
    ghost use Rattle.sn_gen.specs.Oscillators.{lf_pulse};

    type State = u32;

    ghost arity = { λ _. 3 };

    ghost step = { λ u. lf_pulse u.phase_step.rate };

    fn next(&mut self, phase: u32, inputs: &Blocks, frame: usize) -> (u32, i32) {
        let q = moved(phase, inputs.at(1, frame));
        (
            self.phase_step.grown(phase, inputs.at(0, frame)),
            pulse(q, inputs.at(2, frame)),
        )
    }
}
