//! The units of a synth, one after the other.
ghost use Rattle.std.specs.Prelude.{◌≡◌, ◌<◌, ◌≤◌, ◌^◌, length, true};
ghost use Rattle.std.specs.List.{All};
ghost use Rattle.sn_mem.specs.Layout.{bus_words};
ghost use Rattle.sn_ports.specs.Limits.{most_wires, most_units};
ghost use Rattle.sn_def.specs.WellFormed.{UnitsFit, outputs_of};
ghost use Rattle.sn_def.specs.StateWords.{words_of, units_words};
ghost use Rattle.sn_def.specs.Units.{row_of};
ghost use Rattle.sn_filt.specs.Rings.{most_frames};
ghost use Rattle.sn_mem.specs.Words.{MayWrite, SameButWords};
ghost use Rattle.sn_gen.specs.Generators.{is_generator};
ghost use Rattle.sn_mem.specs.Blocks.{window, put};
ghost use Rattle.sn_mem.specs.Buffers.{AreApart};
ghost use Rattle.sn_io.specs.BusUnits.{is_bus_unit};
ghost use Rattle.sn_io.specs.BufferUnits.{is_buffer_unit};
ghost use Rattle.sn_io.specs.Conditions.{MayReach};
ghost use Rattle.sn_synth.specs.UnitBlocks.{is_inner, is_plain, inner};
ghost use Rattle.sn_synth.specs.Synths.{now_of};
ghost use Rattle.sn_synth.specs.Words.{plain_after, unit_after, after_units, begun};
ghost use Rattle.sn_synth.specs.Conditions.{MayOutput, CanRun};

use crate::inputs::gather;
use sn_def::{Def, Family, Kind, Now, Unit, family_of};
use sn_fixed::Heights;
use sn_mem::{Blocks, Buffers, Extent, Places, Port, Scratch};

fn is_bus_unit(kind: Kind) -> bool
    ensures { result ≡ is_bus_unit kind }
{
    matches!(family_of(kind), Family::Bus | Family::Trigger)
}

fn is_buffer_unit(kind: Kind) -> bool
    ensures { result ≡ is_buffer_unit kind }
{
    matches!(family_of(kind), Family::Buffer)
}

fn is_generator(kind: Kind) -> bool
    ensures { result ≡ is_generator kind }
{
    matches!(family_of(kind), Family::Generator)
}

/// What the unit of a number is given.
fn numbered(now: &Now, number: u32) -> Now
    ensures { result ≡ now_of now.now.rate now.now.block now.now.node number }
{
    Now {
        unit: number,
        ..*now
    }
}

/// Runs a unit that hears and writes no bus on the blocks of its inputs.
#[tactic(auto, unfolding(crate::specs::UnitBlocks::inner))]
fn run_inner<P: Port>(
    heights: &Heights,
    kind: Kind,
    now: &Now,
    port: &mut P,
    state: Extent,
    inputs: &Blocks,
    outputs: &mut Blocks,
)
    requires kind { is_inner kind ≡ true }
    requires rate { 0 < now.now.rate }
    requires inputs { length (row_of kind).inputs ≤ length inputs.now }
    requires size { words_of (row_of kind).words (most_frames now.now.rate inputs.now) ≡ state.len }
    requires state { MayWrite (P.foot port.old) state.at state.len }
    ensures words { P.words port.new ≡ put (P.words port.old) state.at (inner kind now.now (window (P.words port.old) state.at state.len) inputs.now).0 }
    ensures outputs { outputs.new ≡ (inner kind now.now (window (P.words port.old) state.at state.len) inputs.now).1 }
    ensures port { SameButWords P.foot P.rest port.old port.new }
{
    if is_generator(kind) {
        sn_gen::run(heights, kind, now, port, state, inputs, outputs);
    } else {
        sn_filt::run(kind, now, port, state, inputs, outputs);
    }
}

/// Runs a unit that has no buffer on the blocks of its inputs. `outputs` comes with as many blocks
/// as the unit has outputs.
fn run_plain<P: Port>(
    heights: &Heights,
    kind: Kind,
    now: &Now,
    port: &mut P,
    state: Extent,
    inputs: &Blocks,
    outputs: &mut Blocks,
)
    requires kind { is_plain kind ≡ true }
    requires rate { 0 < now.now.rate }
    requires block { now.now.block < 2 ^ 63 }
    requires inputs { length (row_of kind).inputs ≤ length inputs.now }
    requires size { words_of (row_of kind).words (most_frames now.now.rate inputs.now) ≡ state.len }
    requires apart { 0 < state.len → bus_words ≤ state.at }
    requires state { MayWrite (P.foot port.old) state.at state.len }
    requires buses { MayReach kind (P.foot port.old) (length outputs.old) inputs.now }
    ensures words { P.words port.new ≡ (plain_after kind now.now (length outputs.old) (P.words port.old) state.at state.len inputs.now).0 }
    ensures outputs { outputs.new ≡ (plain_after kind now.now (length outputs.old) (P.words port.old) state.at state.len inputs.now).1 }
    ensures port { SameButWords P.foot P.rest port.old port.new }
{
    if is_bus_unit(kind) {
        sn_io::run(kind, now, &Places, port, state, inputs, outputs);
    } else {
        run_inner(heights, kind, now, port, state, inputs, outputs);
    }
}

/// Runs a unit of a kind on the blocks of its inputs, with the buffers at their places. `outputs`
/// comes with as many blocks as the unit has outputs.
fn run_kind<P: Port>(
    heights: &Heights,
    kind: Kind,
    now: &Now,
    buffers: &Buffers,
    port: &mut P,
    state: Extent,
    inputs: &Blocks,
    outputs: &mut Blocks,
)
    requires rate { 0 < now.now.rate }
    requires block { now.now.block < 2 ^ 63 }
    requires can { CanRun kind now.now.rate (P.foot port.old) buffers.now (length outputs.old) state.at state.len inputs.now }
    ensures words { P.words port.new ≡ (unit_after kind now.now (length outputs.old) buffers.now (P.words port.old) state.at state.len inputs.now).0 }
    ensures outputs { outputs.new ≡ (unit_after kind now.now (length outputs.old) buffers.now (P.words port.old) state.at state.len inputs.now).1 }
    ensures port { SameButWords P.foot P.rest port.old port.new }
{
    if is_buffer_unit(kind) {
        sn_io::run_buffer_unit(kind, now, buffers, port, state, inputs, outputs);
    } else {
        run_plain(heights, kind, now, port, state, inputs, outputs);
    }
}

/// Runs the units of a definition in order, their states in the words from `at` on, one unit's after the other's.
pub(crate) fn run_units<P: Port>(
    port: &mut P,
    buffers: &Buffers,
    def: &Def,
    units: &[Unit],
    at: u32,
    scratch: &mut Scratch,
    now: &Now,
)
    requires rate { 0 < now.now.rate }
    requires block { now.now.block < 2 ^ 63 }
    requires same { units.now ≡ def.now.units }
    requires fit { UnitsFit (length scratch.old.values) 0 units.now }
    requires wires { outputs_of units.now ≤ most_wires }
    requires few { length units.now ≤ most_units }
    requires apart { 0 < units_words now.now.rate units.now → bus_words ≤ at }
    requires state { MayWrite (P.foot port.old) at (units_words now.now.rate units.now) }
    requires buffers { AreApart (record { at = at; len = units_words now.now.rate units.now }) buffers.now }
    requires outputs { All (MayOutput (P.foot port.old) buffers.now scratch.old.values) units.now }
    ensures words { P.words port.new ≡ (after_units now.now.rate now.now.block now.now.node buffers.now scratch.old.values units.now (begun (P.words port.old) at)).words }
    ensures port { SameButWords P.foot P.rest port.old port.new }
{
    scratch.wires.clear();
    let mut place = at;
    let mut number = 0;
    for unit in units {
        let len = def.unit_words(number as usize, now.rate).count;
        let state = Extent { at: place, len };
        gather(
            unit.inputs.as_slice(),
            &scratch.values,
            &scratch.wires,
            &mut scratch.inputs,
        );
        scratch.outputs.resize(unit.outputs as usize);
        run_kind(
            &scratch.heights,
            unit.kind,
            &numbered(now, number),
            buffers,
            port,
            state,
            &scratch.inputs,
            &mut scratch.outputs,
        );
        scratch.wires.append(&scratch.outputs);
        place += len;
        number += 1;
    }
}
