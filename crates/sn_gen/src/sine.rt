//! Sines by a polynomial.
ghost use Rattle.std.specs.Prelude.{◌≡◌, ◌≤◌, ◌^◌, unsigned_abs};
ghost use Rattle.sn_gen.specs.Sine.{toward_zero};

use crate::phases::{PhaseStep, moved};
use sn_fixed::wave;
use sn_mem::{Blocks, Recurrence};

/// A sample in the scale of waves, of which 2^62 is 1.0.
const SAMPLE: i64 = 274_877_906_944;

/// The sample of a wave, rounded towards 0.
fn toward_zero(w: i64) -> i32
    requires { unsigned_abs w ≤ 2 ^ 62 }
    ensures { result ≡ toward_zero w }
{
    if w < 0 {
        -((-w).div_euclid(SAMPLE) as i32)
    } else {
        w.div_euclid(SAMPLE) as i32
    }
}

/// Sine freq phase
#[derive(Clone, Copy)]
pub(crate) struct Sine {
    /// The step at the last frequency.
    pub phase_step: PhaseStep,
}

impl Recurrence for Sine {
    ghost use Rattle.sn_gen.specs.Sine.{sine};

    type State = u32;

    ghost arity = { λ _. 2 };

    ghost step = { λ u. sine u.phase_step.rate };

    fn next(&mut self, phase: u32, inputs: &Blocks, frame: usize) -> (u32, i32) {
        let q = moved(phase, inputs.at(1, frame));
        (
            self.phase_step.grown(phase, inputs.at(0, frame)),
            toward_zero(wave(2 * u64::from(q))),
        )
    }
}
