//! Pulses that a trigger starts.
ghost use Rattle.std.specs.Prelude.{◌≡◌};
ghost use Rattle.sn_filt.specs.Pulses.{pulse_frames, next_pulse};

use crate::seconds::{span, whole_frames};
use sn_fixed::rises;
use sn_mem::{Blocks, Recurrence, Stored, sample_of, word_of};

/// A pulse, and the last sample of its trigger.
#[derive(Clone, Copy)]
pub(crate) struct Pulse {
    /// The last sample of the trigger.
    pub trigger: i32,
    /// The frames that are left of the pulse, the last one among them.
    pub left: u64,
    /// The sample that the pulse gives.
    pub height: i32,
}

impl Stored for Pulse {
    ghost use Rattle.sn_filt.specs.Pulses.{pulse_in, pulse_words};

    ghost size = { 3 };

    ghost loaded = { pulse_in };

    ghost stored = { pulse_words };

    fn size() -> usize {
        3
    }

    fn load(words: &[u64]) -> Pulse {
        Pulse {
            trigger: sample_of(words[0]),
            left: words[1],
            height: sample_of(words[2]),
        }
    }

    fn store(self, words: &mut [u64]) {
        words.copy_from_slice(&[word_of(self.trigger), self.left, word_of(self.height)]);
    }
}

/// The frames of a pulse of so many seconds, of which 1.0 is one.
fn pulse_frames(rate: u32, time: i32) -> u64
    ensures { result ≡ pulse_frames rate time }
{
    whole_frames(span(time, rate)).max(1)
}

fn next_pulse(rate: u32, pulse: Pulse, trigger: i32, time: i32) -> Pulse
    ensures { result ≡ next_pulse rate pulse trigger time }
{
    if pulse.left > 1 {
        Pulse {
            trigger,
            left: pulse.left - 1,
            height: pulse.height,
        }
    } else if rises(pulse.trigger, trigger) {
        Pulse {
            trigger,
            left: pulse_frames(rate, time),
            height: trigger,
        }
    } else {
        Pulse {
            trigger,
            left: 0,
            height: 0,
        }
    }
}

/// Trig trig time
#[derive(Clone, Copy)]
pub(crate) struct Trig {
    /// Frames a second.
    pub rate: u32,
}

impl Recurrence for Trig {
    ghost use Rattle.sn_filt.specs.Pulses.{trig};

    type State = Pulse;

    ghost arity = { λ _. 2 };

    ghost step = { λ u. trig u.rate };

    fn next(&mut self, pulse: Pulse, inputs: &Blocks, frame: usize) -> (Pulse, i32) {
        let after = next_pulse(self.rate, pulse, inputs.at(0, frame), inputs.at(1, frame));
        (after, after.height)
    }
}
