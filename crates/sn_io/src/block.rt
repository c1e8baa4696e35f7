//! One unit's block.
ghost use Rattle.std.specs.Prelude.{◌≡◌, ◌<◌, ◌≤◌, ◌⊎◌, ◌+◌, ◌^◌, ℕ, true, false, length, slice_index};
ghost use Rattle.sn_mem.specs.Layout.{bus_words};
ghost use Rattle.sn_def.specs.Units.{row_of};
ghost use Rattle.sn_def.specs.declared.table.StateSize.TheVariants.{Fixed};
ghost use Rattle.sn_mem.specs.Words.{MayWrite, writes, SameButWords};
ghost use Rattle.sn_mem.specs.Blocks.{window};
ghost use Rattle.sn_mem.specs.Buses.{buses_of};
ghost use Rattle.sn_io.specs.BusUnits.{is_bus_unit, bus_unit};
ghost use Rattle.sn_io.specs.OverWords.{bus_unit_over};
ghost use Rattle.sn_io.specs.Conditions.{MayReach};

use crate::inputs::{read_audio, read_control};
use crate::outputs::{write_audio, write_control};
use crate::triggers::run_trigger;
use sn_def::{Kind, Now};
use sn_mem::{Blocks, Extent, Places, Port};

/// Runs a unit, as its definition over words says.
#[tactic(auto, unfolding(crate::specs::OverWords::bus_unit_over, sn_def::specs::Units::row_of))]
fn run_kind<P: Port>(
    kind: Kind,
    now: &Now,
    port: &mut P,
    state: Extent,
    inputs: &Blocks,
    outputs: &mut Blocks,
)
    requires kind { is_bus_unit kind ≡ true }
    requires block { now.now.block < 2 ^ 63 }
    requires inputs { length (row_of kind).inputs ≤ length inputs.now }
    requires size { (row_of kind).words ≡ Fixed state.len }
    requires state { MayWrite (P.foot port.old) state.at state.len }
    requires buses { MayReach kind (P.foot port.old) (length outputs.old) inputs.now }
    ensures words { P.words port.new ≡ (bus_unit_over kind now.now (length outputs.old) (P.words port.old) state.at state.len inputs.now).0 }
    ensures outputs { outputs.new ≡ (bus_unit_over kind now.now (length outputs.old) (P.words port.old) state.at state.len inputs.now).1 }
    ensures port { SameButWords P.foot P.rest port.old port.new }
{
    let block = now.block;
    match kind {
        Kind::Inar => read_audio(port, false, block, inputs, outputs),
        Kind::InFeedback => read_audio(port, true, block, inputs, outputs),
        Kind::Inkr => read_control(port, inputs, outputs),
        Kind::Outar => {
            outputs.clear();
            write_audio(port, true, block, inputs);
        }
        Kind::ReplaceOut => {
            outputs.clear();
            write_audio(port, false, block, inputs);
        }
        Kind::Outkr => {
            outputs.clear();
            write_control(port, block, inputs);
        }
        _ => run_trigger(kind, now, port, state, inputs, outputs),
    }
}

/// Runs a unit on buses, a trigger, or a unit that ends its synth, for a block of 64 frames, with its state in the
/// words of `state`.
///
/// The inputs are those of its row in their order. `outputs` comes with as many blocks as the unit has outputs, and
/// these take the place of what it held. No unit asks `_places`: the place of each bus is fixed.
///
/// `words` and `outputs` say what it does over the memory words, in the terms of the walk of a block. The clauses after
/// them say it of buses and of state.
pub fn run<P: Port>(
    kind: Kind,
    now: &Now,
    _places: &Places,
    port: &mut P,
    state: Extent,
    inputs: &Blocks,
    outputs: &mut Blocks,
)
    requires kind { is_bus_unit kind ≡ true }
    requires block { now.now.block < 2 ^ 63 }
    requires inputs { length (row_of kind).inputs ≤ length inputs.now }
    requires size { (row_of kind).words ≡ Fixed state.len }
    requires apart { 0 < state.len → bus_words ≤ state.at }
    requires state { MayWrite (P.foot port.old) state.at state.len }
    requires buses { MayReach kind (P.foot port.old) (length outputs.old) inputs.now }
    ensures words { P.words port.new ≡ (bus_unit_over kind now.now (length outputs.old) (P.words port.old) state.at state.len inputs.now).0 }
    ensures outputs { outputs.new ≡ (bus_unit_over kind now.now (length outputs.old) (P.words port.old) state.at state.len inputs.now).1 }
    ensures buses { buses_of (P.words port.new) ≡ (bus_unit kind now.now (length outputs.old) (window (P.words port.old) state.at state.len) inputs.now (buses_of (P.words port.old))).buses }
    ensures state { window (P.words port.new) state.at state.len ≡ (bus_unit kind now.now (length outputs.old) (window (P.words port.old) state.at state.len) inputs.now (buses_of (P.words port.old))).state }
    ensures gives { outputs.new ≡ (bus_unit kind now.now (length outputs.old) (window (P.words port.old) state.at state.len) inputs.now (buses_of (P.words port.old))).outputs }
    ensures others { (j : ℕ) → bus_words ≤ j → (j < state.at) ⊎ (state.at + state.len ≤ j) → slice_index (P.words port.new) j ≡ slice_index (P.words port.old) j }
    ensures kept { (j : ℕ) → writes (P.foot port.old) j ≡ false → slice_index (P.words port.new) j ≡ slice_index (P.words port.old) j }
    ensures length { length (P.words port.new) ≡ length (P.words port.old) }
    ensures port { SameButWords P.foot P.rest port.old port.new }
{
    run_kind(kind, now, port, state, inputs, outputs);
}
