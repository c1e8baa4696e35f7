//! Phases, of which 2^32 is a turn.
ghost use Rattle.std.specs.Prelude.{◌≡◌, ◌<◌};
ghost use Rattle.sn_fixed.specs.Fixed.{step_of};
ghost use Rattle.sn_gen.specs.Phases.{modulo, moved, grown};

use sn_fixed::step_of;

const TURN: i64 = 4_294_967_296;

/// A whole number modulo 2^32.
pub(crate) fn modulo(x: i64) -> u32
    ensures { result ≡ modulo x }
{
    x.rem_euclid(TURN) as u32
}

/// A phase, moved by a sample.
pub(crate) fn moved(phase: u32, by: i32) -> u32
    ensures { result ≡ moved phase by }
{
    modulo(i64::from(phase) + i64::from(by))
}

/// The step of a phase at the last frequency.
#[derive(Clone, Copy)]
pub(crate) struct PhaseStep {
    /// Frames a second, at least 1.
    pub rate: u32,
    /// The last frequency, in millihertz.
    freq: i32,
    step: u32,
    ghost some: { 0 < rate },
    ghost known: { step ≡ step_of freq rate },
}

impl PhaseStep {
    /// At a frequency of 0.
    pub(crate) fn new(rate: u32) -> PhaseStep
        requires { 0 < rate }
        ensures { result.rate ≡ rate }
    {
        PhaseStep {
            rate,
            freq: 0,
            step: step_of(0, rate),
        }
    }

    /// The step at a frequency. It is computed only if the frequency isn't the last one.
    pub(crate) fn at(&mut self, freq: i32) -> u32
        ensures value { result ≡ step_of freq self.old.rate }
        ensures rate { self.new.rate ≡ self.old.rate }
    {
        if freq != self.freq {
            let rate = self.rate;
            *self = PhaseStep {
                rate,
                freq,
                step: step_of(freq, rate),
            };
        }
        self.step
    }

    /// A phase after a frame.
    pub(crate) fn grown(&mut self, phase: u32, freq: i32) -> u32
        ensures value { result ≡ grown self.old.rate phase freq }
        ensures rate { self.new.rate ≡ self.old.rate }
    {
        phase.wrapping_add(self.at(freq))
    }
}
