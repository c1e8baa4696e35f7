//! Oscillators by the shape of their wave.
ghost use Rattle.std.specs.Prelude.{◌≡◌, ◌<◌, ◌≤◌, ◌∷◌, [], ℕ, ℤ, List, IfSome, length};
ghost use Rattle.sn_ports.specs.Limits.{block_frames};
ghost use Rattle.sn_mem.specs.Words.{MayWrite, SameButWords};
ghost use Rattle.sn_mem.specs.Blocks.{recurred, scan};
ghost use Rattle.sn_gen.specs.Phases.{phase_in, phase_words};
ghost use Rattle.sn_gen.specs.Waves.{wave, IsSteady};

use crate::phases::{PhaseStep, moved};
use sn_fixed::step_of;
use sn_mem::{Block, Blocks, Port, Recurrence, Stored, load_words, run_recurrence, store_words};
use sn_ports::limits::BLOCK_FRAMES;

/// A shape over the phase.
pub(crate) trait Wave: Copy {
    /// The sample at each phase.
    ghost shape: { Self → ℕ → ℤ };

    /// The sample at a phase.
    fn sample(&self, phase: u32) -> i32
        ensures { result ≡ shape self.now phase };
}

/// An oscillator: WAVE freq phase
#[derive(Clone, Copy)]
pub(crate) struct Oscillator<W: Wave> {
    /// The step at the last frequency.
    pub phase_step: PhaseStep,
    /// Its shape.
    pub wave: W,
}

impl<W: Wave> Recurrence for Oscillator<W> {
    ghost use Rattle.sn_gen.specs.Waves.{wave};

    type State = u32;

    ghost arity = { λ _. 2 };

    ghost step = { λ u. wave (W.shape u.wave) u.phase_step.rate };

    fn next(&mut self, phase: u32, inputs: &Blocks, frame: usize) -> (u32, i32) {
        let q = moved(phase, inputs.at(1, frame));
        (
            self.phase_step.grown(phase, inputs.at(0, frame)),
            self.wave.sample(q),
        )
    }
}

/// How the phase goes in a block whose inputs are steady.
#[derive(Clone, Copy)]
pub(crate) struct Turn {
    /// By how much the phase grows at each frame.
    step: u32,
    /// By how much the phase is moved for the output.
    offset: i32,
}

impl Turn {
    /// `None` if the frequency or the phase may differ from frame to frame.
    fn of(rate: u32, inputs: &Blocks) -> Option<Turn>
        requires rate { 0 < rate }
        requires inputs { 2 ≤ length inputs.now }
        ensures { IfSome result (λ turn. IsSteady rate turn inputs.now) }
    {
        match (inputs.same(0), inputs.same(1)) {
            (Some(freq), Some(offset)) => Some(Turn {
                step: step_of(freq, rate),
                offset,
            }),
            _ => None,
        }
    }

    /// The samples of a wave from a phase on. Returns the phase after them.
    #[inline(always)]
    fn run<W: Wave>(self, shape: &W, begin: u32, samples: &mut Block) -> u32
        ensures phase { (rate : ℕ) (inputs : List (List ℤ)) → IsSteady rate self inputs → result ≡ (scan (wave (W.shape shape.now) rate) begin inputs block_frames).0 }
        ensures samples { (rate : ℕ) (inputs : List (List ℤ)) → IsSteady rate self inputs → samples.new ≡ (scan (wave (W.shape shape.now) rate) begin inputs block_frames).1 }
    {
        let mut phase = begin;
        for frame in 0..BLOCK_FRAMES {
            samples[frame] = shape.sample(moved(phase, self.offset));
            phase = phase.wrapping_add(self.step);
        }
        phase
    }
}

/// Runs an oscillator for a block, as `run_recurrence` does, with one step for the block where its inputs are steady.
pub(crate) fn run_wave<W: Wave, P: Port>(
    unit: &Oscillator<W>,
    port: &mut P,
    at: u32,
    inputs: &Blocks,
    outputs: &mut Blocks,
)
    requires inputs { 2 ≤ length inputs.now }
    requires state { MayWrite (P.foot port.old) at 1 }
    ensures words { P.words port.new ≡ (recurred 1 phase_in phase_words (wave (W.shape unit.now.wave) unit.now.phase_step.rate) (P.words port.old) at inputs.now).0 }
    ensures outputs { outputs.new ≡ (recurred 1 phase_in phase_words (wave (W.shape unit.now.wave) unit.now.phase_step.rate) (P.words port.old) at inputs.now).1 ∷ [] }
    ensures port { SameButWords P.foot P.rest port.old port.new }
{
    match Turn::of(unit.phase_step.rate, inputs) {
        Some(turn) => {
            let mut words = [0u64; 1];
            load_words(port, at, &mut words);
            let mut samples = [0i32; BLOCK_FRAMES];
            let phase = turn.run(&unit.wave, u32::load(&words), &mut samples);
            outputs.clear();
            outputs.push(&samples);
            phase.store(&mut words);
            store_words(port, at, &words);
        }
        None => run_recurrence(unit, port, at, inputs, outputs),
    }
}
