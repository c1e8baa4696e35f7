//! One generator's block.
ghost use Rattle.std.specs.Prelude.{◌≡◌, ◌<◌, ◌≤◌, true, length};
ghost use Rattle.sn_def.specs.Units.{row_of};
ghost use Rattle.sn_def.specs.declared.table.StateSize.TheVariants.{Fixed};
ghost use Rattle.sn_mem.specs.Words.{MayWrite, SameButWords};
ghost use Rattle.sn_mem.specs.Blocks.{window, put};
ghost use Rattle.sn_gen.specs.Generators.{is_generator, generator};

use crate::harmonics::Blip;
use crate::impulse::Impulse;
use crate::line::run_line;
use crate::linen::run_linen;
use crate::noise::{WhiteNoise, seed};
use crate::oscillators::{LFPulse, SawWave, SineWave, TriangleWave};
use crate::phases::PhaseStep;
use crate::phasor::Phasor;
use crate::pink::run_pink_noise;
use crate::rounded::Saw;
use crate::sine::Sine;
use crate::waves::{Oscillator, run_wave};
use sn_def::{Kind, Now};
use sn_fixed::Heights;
use sn_mem::{Blocks, Extent, Port, run_recurrence};

/// Runs a generator for a block of 64 frames, with its state in the words of `state`. Sines are taken from `heights`.
///
/// The inputs are those of its row in their order, and the one output takes the place of what
/// `outputs` held.
#[tactic(auto, unfolding(crate::specs::Generators::generator, sn_def::specs::Units::row_of))]
pub fn run<P: Port>(
    heights: &Heights,
    kind: Kind,
    now: &Now,
    port: &mut P,
    state: Extent,
    inputs: &Blocks,
    outputs: &mut Blocks,
)
    requires kind { is_generator kind ≡ true }
    requires rate { 0 < now.now.rate }
    requires inputs { length (row_of kind).inputs ≤ length inputs.now }
    requires size { (row_of kind).words ≡ Fixed state.len }
    requires state { MayWrite (P.foot port.old) state.at state.len }
    ensures words { P.words port.new ≡ put (P.words port.old) state.at (generator kind now.now (window (P.words port.old) state.at state.len) inputs.now).0 }
    ensures outputs { outputs.new ≡ (generator kind now.now (window (P.words port.old) state.at state.len) inputs.now).1 }
    ensures port { SameButWords P.foot P.rest port.old port.new }
{
    let rate = now.rate;
    let phase_step = PhaseStep::new(rate);
    match kind {
        Kind::SinOsc => {
            let wave = SineWave { heights };
            let oscillator = Oscillator { phase_step, wave };
            run_wave(&oscillator, port, state.at, inputs, outputs);
        }
        Kind::LFSaw => {
            let wave = SawWave;
            let oscillator = Oscillator { phase_step, wave };
            run_wave(&oscillator, port, state.at, inputs, outputs);
        }
        Kind::Sine => run_recurrence(&Sine { phase_step }, port, state.at, inputs, outputs),
        Kind::LFPulse => run_recurrence(&LFPulse { phase_step }, port, state.at, inputs, outputs),
        Kind::LFTri => {
            let wave = TriangleWave;
            let oscillator = Oscillator { phase_step, wave };
            run_wave(&oscillator, port, state.at, inputs, outputs);
        }
        Kind::Impulse => run_recurrence(&Impulse { phase_step }, port, state.at, inputs, outputs),
        Kind::WhiteNoise => {
            let first = seed(now);
            run_recurrence(&WhiteNoise { first }, port, state.at, inputs, outputs);
        }
        Kind::Phasor => run_recurrence(&Phasor, port, state.at, inputs, outputs),
        Kind::Line => run_line(rate, port, state.at, inputs, outputs),
        Kind::Linen => run_linen(rate, port, state.at, inputs, outputs),
        Kind::Saw => run_recurrence(&Saw { phase_step }, port, state.at, inputs, outputs),
        Kind::Blip => run_recurrence(&Blip { phase_step }, port, state.at, inputs, outputs),
        Kind::PinkNoise => run_pink_noise(seed(now), port, state.at, outputs),
        _ => {}
    }
}
