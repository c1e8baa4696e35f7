//! One unit's block.
ghost use Rattle.std.specs.Prelude.{◌≡◌, ◌<◌, ◌≤◌, true, length};
ghost use Rattle.sn_def.specs.Units.{row_of};
ghost use Rattle.sn_def.specs.StateWords.{words_of};
ghost use Rattle.sn_mem.specs.Words.{MayWrite, SameButWords};
ghost use Rattle.sn_mem.specs.Blocks.{window, put};
ghost use Rattle.sn_filt.specs.Filters.{is_filter, filter};
ghost use Rattle.sn_filt.specs.Rings.{most_frames};

use crate::arithmetic::run_arithmetic;
use crate::followers::LagUD;
use crate::held::{Gate, Latch, PulseCount, Stepper};
use crate::lines::{run_comb_l, run_delay_l};
use crate::poles::{Delay1, Integrator, Lag};
use crate::pulses::Trig;
use crate::rings::{run_comb_n, run_delay_n};
use crate::sections::SOS;
use crate::state_variable::run_svf;
use crate::steady::run_one_pole;
use sn_def::{Kind, Now};
use sn_fixed::TimeFrames;
use sn_mem::{Blocks, Extent, Port, run_recurrence};

/// Runs a unit of arithmetic or a filter for a block of 64 frames, with its state in the words of
/// `state`.
///
/// The inputs are those of its row in their order, and its outputs take the place of what
/// `outputs` held.
#[tactic(auto, using(sn_mem::proofs::Steps::window_none, sn_mem::proofs::Steps::put_none), unfolding(crate::specs::Filters::filter, sn_def::specs::Units::row_of))]
pub fn run<P: Port>(
    kind: Kind,
    now: &Now,
    port: &mut P,
    state: Extent,
    inputs: &Blocks,
    outputs: &mut Blocks,
)
    requires kind { is_filter kind ≡ true }
    requires rate { 0 < now.now.rate }
    requires inputs { length (row_of kind).inputs ≤ length inputs.now }
    requires size { words_of (row_of kind).words (most_frames now.now.rate inputs.now) ≡ state.len }
    requires state { MayWrite (P.foot port.old) state.at state.len }
    ensures words { P.words port.new ≡ put (P.words port.old) state.at (filter kind now.now (window (P.words port.old) state.at state.len) inputs.now).0 }
    ensures outputs { outputs.new ≡ (filter kind now.now (window (P.words port.old) state.at state.len) inputs.now).1 }
    ensures port { SameButWords P.foot P.rest port.old port.new }
{
    let rate = now.rate;
    let at = state.at;
    match kind {
        Kind::OnePole => run_one_pole(port, at, inputs, outputs),
        Kind::Lag => {
            let frames = TimeFrames::new(rate);
            run_recurrence(&Lag { frames }, port, at, inputs, outputs);
        }
        Kind::Integrator => run_recurrence(&Integrator, port, at, inputs, outputs),
        Kind::Delay1 => run_recurrence(&Delay1, port, at, inputs, outputs),
        Kind::DelayN => run_delay_n(rate, port, state, inputs, outputs),
        Kind::DelayL => run_delay_l(rate, port, state, inputs, outputs),
        Kind::CombN => run_comb_n(rate, port, state, inputs, outputs),
        Kind::CombL => run_comb_l(rate, port, state, inputs, outputs),
        Kind::SOS => run_recurrence(&SOS, port, at, inputs, outputs),
        Kind::SVF => run_svf(rate, port, at, inputs, outputs),
        Kind::Latch => run_recurrence(&Latch, port, at, inputs, outputs),
        Kind::Gate => run_recurrence(&Gate, port, at, inputs, outputs),
        Kind::PulseCount => run_recurrence(&PulseCount, port, at, inputs, outputs),
        Kind::Stepper => run_recurrence(&Stepper, port, at, inputs, outputs),
        Kind::LagUD => run_recurrence(&LagUD, port, at, inputs, outputs),
        Kind::Trig => run_recurrence(&Trig { rate }, port, at, inputs, outputs),
        _ => run_arithmetic(kind, inputs, outputs),
    }
}
