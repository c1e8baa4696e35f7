//! One synth.
ghost use Rattle.std.specs.Prelude.{◌≡◌, ◌<◌, ◌≤◌, ◌^◌, ◌+◌, ℕ, ◌⊎◌, false, length, slice_index};
ghost use Rattle.sn_mem.specs.Layout.{bus_words};
ghost use Rattle.sn_def.specs.Defs.{definition_of};
ghost use Rattle.sn_def.specs.StateWords.{state_words};
ghost use Rattle.sn_mem.specs.Words.{MayWrite, writes, SameButWords};
ghost use Rattle.sn_mem.specs.Blocks.{window};
ghost use Rattle.sn_mem.specs.Buffers.{AreApart, live_places, overlaps, resources_of};
ghost use Rattle.sn_synth.specs.Synths.{synth_block};
ghost use Rattle.sn_synth.specs.Words.{synth_words};
ghost use Rattle.sn_synth.specs.Conditions.{AreControlsOf, MayFollow, MayPlayAll};

use crate::controls::read_controls;
use crate::units::run_units;
use sn_def::{Controls, Def, Now};
use sn_mem::{Buffers, Extent, Port, Scratch};

/// Runs a synth's units in order for the block `now.block`, at `now.rate` frames a second.
///
/// A control that follows a control bus is read from it once, before the first unit. The state of the units lies in the
/// words of `state`, which has `def.state_words(now.rate)` words, none of them a bus's or a buffer's. It refuses
/// nothing and takes no memory.
///
/// `words` says what it does over the memory words, in the terms of the walk of a block. The clauses after it say it of
/// buses, buffers and state.
pub fn run_synth<P: Port>(
    port: &mut P,
    def: &Def,
    controls: &Controls,
    buffers: &Buffers,
    state: Extent,
    scratch: &mut Scratch,
    now: &Now,
)
    requires rate { 0 < now.now.rate }
    requires block { now.now.block < 2 ^ 63 }
    requires controls { AreControlsOf (definition_of def.now) controls.now }
    requires words { state.len ≡ state_words now.now.rate (definition_of def.now) }
    requires apart { 0 < state.len → bus_words ≤ state.at }
    requires state { MayWrite (P.foot port.old) state.at state.len }
    requires buffers { AreApart state buffers.now }
    requires reads { MayFollow (P.foot port.old) controls.now }
    requires writes { MayPlayAll (P.foot port.old) buffers.now controls.now (definition_of def.now) }
    ensures words { P.words port.new ≡ synth_words now.now.rate now.now.block now.now.node (definition_of def.now) controls.now buffers.now state.at (P.words port.old) }
    ensures resources { resources_of buffers.now (P.words port.new) ≡ (synth_block now.now.rate now.now.block now.now.node (definition_of def.now) controls.now (resources_of buffers.now (P.words port.old)) (window (P.words port.old) state.at state.len)).resources }
    ensures state { window (P.words port.new) state.at state.len ≡ (synth_block now.now.rate now.now.block now.now.node (definition_of def.now) controls.now (resources_of buffers.now (P.words port.old)) (window (P.words port.old) state.at state.len)).state }
    ensures others { (j : ℕ) → bus_words ≤ j → (j < state.at) ⊎ (state.at + state.len ≤ j) → overlaps j (live_places buffers.now) ≡ 0 → slice_index (P.words port.new) j ≡ slice_index (P.words port.old) j }
    ensures kept { (j : ℕ) → writes (P.foot port.old) j ≡ false → slice_index (P.words port.new) j ≡ slice_index (P.words port.old) j }
    ensures length { length (P.words port.new) ≡ length (P.words port.old) }
    ensures port { SameButWords P.foot P.rest port.old port.new }
{
    def.well_formed();
    read_controls(port, controls.as_slice(), &mut scratch.values);
    run_units(
        port,
        buffers,
        def,
        def.units.as_slice(),
        state.at,
        scratch,
        now,
    );
}
