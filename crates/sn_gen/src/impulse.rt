//! Impulses.
ghost use Rattle.std.specs.Prelude.{◌≡◌, ◌<◌, ◌^◌};
ghost use Rattle.sn_gen.specs.Impulse.{growth};

use crate::phases::PhaseStep;
use sn_fixed::ONE;
use sn_mem::{Blocks, Recurrence, Stored};

/// The phase of an impulse generator, and whether an impulse is due.
#[derive(Clone, Copy)]
pub(crate) struct Beat {
    /// The phase, in units of 2^-32 of a period.
    pub phase: u32,
    /// Whether an impulse is due at the next frame.
    pub due: bool,
}

impl Stored for Beat {
    ghost use Rattle.sn_gen.specs.Impulse.{beat_in, beat_words};

    ghost size = { 2 };

    ghost loaded = { beat_in };

    ghost stored = { beat_words };

    fn size() -> usize {
        2
    }

    fn load(words: &[u64]) -> Beat {
        Beat {
            phase: (words[0] % 4_294_967_296) as u32,
            due: words[1] == 0,
        }
    }

    fn store(self, words: &mut [u64]) {
        words.copy_from_slice(&[u64::from(self.phase), if self.due { 0 } else { 1 }]);
    }
}

/// Impulse freq
#[derive(Clone, Copy)]
pub(crate) struct Impulse {
    /// The step at the last frequency.
    pub phase_step: PhaseStep,
}

impl Impulse {
    /// The phase after a frame, before it wraps.
    fn growth(&mut self, phase: u32, freq: i32) -> u64
        ensures value { result ≡ growth self.old.phase_step.rate phase freq }
        ensures bound { result < 2 ^ 33 }
        ensures rate { self.new.phase_step.rate ≡ self.old.phase_step.rate }
    {
        u64::from(phase) + u64::from(self.phase_step.at(freq))
    }
}

impl Recurrence for Impulse {
    ghost use Rattle.sn_gen.specs.Impulse.{impulse};

    type State = Beat;

    ghost arity = { λ _. 1 };

    ghost step = { λ u. impulse u.phase_step.rate };

    fn next(&mut self, beat: Beat, inputs: &Blocks, frame: usize) -> (Beat, i32) {
        let phase = self.growth(beat.phase, inputs.at(0, frame));
        let after = Beat {
            phase: (phase % 4_294_967_296) as u32,
            due: phase >= 4_294_967_296,
        };
        (after, if beat.due { ONE } else { 0 })
    }
}
