//! One block of a unit on a buffer.
ghost use Rattle.std.specs.Prelude.{◌≡◌, ◌<◌, ◌≤◌, ◌+◌, ◌⊎◌, ◌∷◌, [], ℕ, true, false, length, pos, replicate, slice_index};
ghost use Rattle.sn_ports.specs.Limits.{block_frames};
ghost use Rattle.sn_def.specs.Units.{row_of};
ghost use Rattle.sn_def.specs.declared.table.StateSize.TheVariants.{Fixed};
ghost use Rattle.sn_mem.specs.Words.{MayWrite, writes, SameButWords};
ghost use Rattle.sn_mem.specs.Blocks.{put, window};
ghost use Rattle.sn_mem.specs.Buffers.{AreApart, buffers_of, live_places, overlaps};
ghost use Rattle.sn_io.specs.Positions.{indexed};
ghost use Rattle.sn_io.specs.Between.{scaled_points};
ghost use Rattle.sn_io.specs.BufferUnits.{is_buffer_unit, chosen, usable, signals_from, length_in, buffer_unit};
ghost use Rattle.sn_io.specs.BuffersOverWords.{usable_place, place_frames, onto_buffer, gathered_from, between_from, played_from, placed_from, recorded_over, buffer_unit_over};
ghost use Rattle.sn_io.specs.Conditions.{IsWholeIfSome, MayReadBuffer, MayWriteBuffer, MayReachBuffer};

use crate::between::scaled_points;
use crate::buffer_samples::{gather, gather_between, scatter};
use crate::channels::control_number;
use crate::placing::play_points;
use crate::playing::PlayBuf;
use crate::positions::{indexed, walk_frames};
use crate::recording::RecordBuf;
use sn_def::{Kind, Now};
use sn_mem::{Blocks, BufferPlace, Buffers, Extent, Port};

/// The buffer whose number is that of the first input.
pub(crate) fn chosen(buffers: &Buffers, inputs: &Blocks) -> Option<BufferPlace>
    requires { 1 ≤ length inputs.now }
    ensures { result ≡ chosen inputs.now buffers.now }
{
    match control_number(i64::from(inputs.at(0, 0))) {
        Some(number) => buffers.place(number),
        None => None,
    }
}

/// A buffer, if it has `channels` channels.
fn usable(place: Option<BufferPlace>, channels: usize) -> Option<BufferPlace>
    ensures { result ≡ usable (λ p. p.channels) channels place }
{
    match place {
        Some(place) => {
            if place.channels as usize == channels {
                Some(place)
            } else {
                None
            }
        }
        None => None,
    }
}

fn frames_in(place: Option<BufferPlace>) -> Option<u32>
    ensures { result ≡ place_frames place }
{
    match place {
        Some(place) => Some(place.frames),
        None => None,
    }
}

/// PlayBuf buf# step trig start loop done!
fn play<P: Port>(buffers: &Buffers, port: &mut P, at: u32, inputs: &Blocks, outputs: &mut Blocks)
    requires inputs { 6 ≤ length inputs.now }
    requires whole { IsWholeIfSome (chosen inputs.now buffers.now) }
    requires reads { MayReadBuffer (P.foot port.old) (chosen inputs.now buffers.now) }
    requires state { MayWrite (P.foot port.old) at 4 }
    ensures words { P.words port.new ≡ put (P.words port.old) at (played_from (P.words port.old) at 4 (usable_place (length outputs.old) inputs.now buffers.now) inputs.now).0 }
    ensures outputs { outputs.new ≡ gathered_from (P.words port.new) (usable_place (length outputs.old) inputs.now buffers.now) (played_from (P.words port.old) at 4 (usable_place (length outputs.old) inputs.now buffers.now) inputs.now).1 (length outputs.old) }
    ensures port { SameButWords P.foot P.rest port.old port.new }
{
    let place = usable(chosen(buffers, inputs), outputs.len());
    let unit = PlayBuf {
        frames: frames_in(place),
    };
    let frames = walk_frames(&unit, port, at, inputs);
    gather(port, place, &frames, outputs);
}

/// PlayBufL buf# step trig start loop done!
fn play_between<P: Port>(
    buffers: &Buffers,
    port: &mut P,
    at: u32,
    inputs: &Blocks,
    outputs: &mut Blocks,
)
    requires inputs { 6 ≤ length inputs.now }
    requires whole { IsWholeIfSome (chosen inputs.now buffers.now) }
    requires reads { MayReadBuffer (P.foot port.old) (chosen inputs.now buffers.now) }
    requires state { MayWrite (P.foot port.old) at 4 }
    ensures words { P.words port.new ≡ put (P.words port.old) at (placed_from (P.words port.old) at 4 (usable_place (length outputs.old) inputs.now buffers.now) inputs.now).0 }
    ensures outputs { outputs.new ≡ between_from (P.words port.new) (usable_place (length outputs.old) inputs.now buffers.now) (placed_from (P.words port.old) at 4 (usable_place (length outputs.old) inputs.now buffers.now) inputs.now).1 (length outputs.old) }
    ensures port { SameButWords P.foot P.rest port.old port.new }
{
    let place = usable(chosen(buffers, inputs), outputs.len());
    let points = play_points(frames_in(place), port, at, inputs);
    gather_between(port, place, &points, outputs);
}

/// RecordBuf buf# run loop done! signals
fn record<P: Port>(buffers: &Buffers, port: &mut P, at: u32, inputs: &Blocks)
    requires inputs { 4 ≤ length inputs.now }
    requires whole { IsWholeIfSome (chosen inputs.now buffers.now) }
    requires writes { MayWriteBuffer (P.foot port.old) (chosen inputs.now buffers.now) }
    requires state { MayWrite (P.foot port.old) at 2 }
    ensures words { P.words port.new ≡ recorded_over (P.words port.old) at 2 (usable_place (signals_from 4 inputs.now) inputs.now buffers.now) inputs.now }
    ensures port { SameButWords P.foot P.rest port.old port.new }
{
    let place = usable(chosen(buffers, inputs), inputs.len() - 4);
    let unit = RecordBuf {
        frames: frames_in(place),
    };
    let frames = walk_frames(&unit, port, at, inputs);
    scatter(port, place, inputs, 4, &frames);
}

/// BufRd buf# index
fn read<P: Port>(buffers: &Buffers, port: &mut P, inputs: &Blocks, outputs: &mut Blocks)
    requires inputs { 2 ≤ length inputs.now }
    requires whole { IsWholeIfSome (chosen inputs.now buffers.now) }
    requires reads { MayReadBuffer (P.foot port.old) (chosen inputs.now buffers.now) }
    ensures outputs { outputs.new ≡ gathered_from (P.words port.old) (usable_place (length outputs.old) inputs.now buffers.now) (indexed (place_frames (usable_place (length outputs.old) inputs.now buffers.now)) inputs.now) (length outputs.old) }
    ensures words { P.words port.new ≡ P.words port.old }
    ensures port { SameButWords P.foot P.rest port.old port.new }
{
    let place = usable(chosen(buffers, inputs), outputs.len());
    let frames = indexed(frames_in(place), inputs);
    gather(port, place, &frames, outputs);
}

/// BufRdL buf# index scale loop
fn read_between<P: Port>(buffers: &Buffers, port: &mut P, inputs: &Blocks, outputs: &mut Blocks)
    requires inputs { 4 ≤ length inputs.now }
    requires whole { IsWholeIfSome (chosen inputs.now buffers.now) }
    requires reads { MayReadBuffer (P.foot port.old) (chosen inputs.now buffers.now) }
    ensures outputs { outputs.new ≡ between_from (P.words port.old) (usable_place (length outputs.old) inputs.now buffers.now) (scaled_points (place_frames (usable_place (length outputs.old) inputs.now buffers.now)) inputs.now) (length outputs.old) }
    ensures words { P.words port.new ≡ P.words port.old }
    ensures port { SameButWords P.foot P.rest port.old port.new }
{
    let place = usable(chosen(buffers, inputs), outputs.len());
    let points = scaled_points(frames_in(place), inputs);
    gather_between(port, place, &points, outputs);
}

/// BufWr buf# index signals
fn write<P: Port>(buffers: &Buffers, port: &mut P, inputs: &Blocks)
    requires inputs { 2 ≤ length inputs.now }
    requires whole { IsWholeIfSome (chosen inputs.now buffers.now) }
    requires writes { MayWriteBuffer (P.foot port.old) (chosen inputs.now buffers.now) }
    ensures words { P.words port.new ≡ onto_buffer inputs.now 2 (indexed (place_frames (usable_place (signals_from 2 inputs.now) inputs.now buffers.now)) inputs.now) (usable_place (signals_from 2 inputs.now) inputs.now buffers.now) (P.words port.old) }
    ensures port { SameButWords P.foot P.rest port.old port.new }
{
    let place = usable(chosen(buffers, inputs), inputs.len() - 2);
    let frames = indexed(frames_in(place), inputs);
    scatter(port, place, inputs, 2, &frames);
}

/// The number of frames, 0 if there is no buffer.
fn length_in(frames: Option<u32>) -> u32
    ensures { result ≡ length_in frames }
{
    frames.unwrap_or(0)
}

/// BufFrames buf#
fn count(buffers: &Buffers, inputs: &Blocks, outputs: &mut Blocks)
    requires inputs { 1 ≤ length inputs.now }
    requires whole { IsWholeIfSome (chosen inputs.now buffers.now) }
    ensures outputs { outputs.new ≡ replicate block_frames (pos (length_in (place_frames (chosen inputs.now buffers.now)))) ∷ [] }
{
    let frames = length_in(frames_in(chosen(buffers, inputs)));
    outputs.clear();
    outputs.push_equal(frames as i32);
}

/// Runs a unit, as its definition over words says.
#[tactic(auto, unfolding(crate::specs::BuffersOverWords::buffer_unit_over, sn_def::specs::Units::row_of))]
fn run_kind<P: Port>(
    kind: Kind,
    now: &Now,
    buffers: &Buffers,
    port: &mut P,
    state: Extent,
    inputs: &Blocks,
    outputs: &mut Blocks,
)
    requires kind { is_buffer_unit kind ≡ true }
    requires inputs { length (row_of kind).inputs ≤ length inputs.now }
    requires size { (row_of kind).words ≡ Fixed state.len }
    requires state { MayWrite (P.foot port.old) state.at state.len }
    requires buffer { MayReachBuffer kind (P.foot port.old) inputs.now buffers.now }
    ensures words { P.words port.new ≡ (buffer_unit_over kind now.now (length outputs.old) buffers.now (P.words port.old) state.at state.len inputs.now).0 }
    ensures outputs { outputs.new ≡ (buffer_unit_over kind now.now (length outputs.old) buffers.now (P.words port.old) state.at state.len inputs.now).1 }
    ensures port { SameButWords P.foot P.rest port.old port.new }
{
    let at = state.at;
    match kind {
        Kind::PlayBuf => play(buffers, port, at, inputs, outputs),
        Kind::PlayBufL => play_between(buffers, port, at, inputs, outputs),
        Kind::RecordBuf => {
            outputs.clear();
            record(buffers, port, at, inputs);
        }
        Kind::BufRd => read(buffers, port, inputs, outputs),
        Kind::BufRdL => read_between(buffers, port, inputs, outputs),
        Kind::BufWr => {
            outputs.clear();
            write(buffers, port, inputs);
        }
        Kind::BufFrames => count(buffers, inputs, outputs),
        _ => {}
    }
}

/// Runs PlayBuf, PlayBufL, RecordBuf, BufRd, BufRdL, BufWr or BufFrames for a block of 64 frames, with its state in the
/// words of `state`.
///
/// The inputs are those of its row in their order. `outputs` comes with as many blocks as the unit has outputs, and
/// these take the place of what it held. If the state and the buffers are apart, it changes no word but those of its
/// state and of the buffer that it writes.
///
/// `words` and `outputs` say what it does over the memory words, in the terms of the walk of a block. The clauses after
/// them say it of buffers and of state.
pub fn run_buffer_unit<P: Port>(
    kind: Kind,
    now: &Now,
    buffers: &Buffers,
    port: &mut P,
    state: Extent,
    inputs: &Blocks,
    outputs: &mut Blocks,
)
    requires kind { is_buffer_unit kind ≡ true }
    requires inputs { length (row_of kind).inputs ≤ length inputs.now }
    requires size { (row_of kind).words ≡ Fixed state.len }
    requires state { MayWrite (P.foot port.old) state.at state.len }
    requires buffer { MayReachBuffer kind (P.foot port.old) inputs.now buffers.now }
    ensures words { P.words port.new ≡ (buffer_unit_over kind now.now (length outputs.old) buffers.now (P.words port.old) state.at state.len inputs.now).0 }
    ensures outputs { outputs.new ≡ (buffer_unit_over kind now.now (length outputs.old) buffers.now (P.words port.old) state.at state.len inputs.now).1 }
    ensures buffers { AreApart state buffers.now → buffers_of (P.words port.new) buffers.now ≡ (buffer_unit kind now.now (length outputs.old) (window (P.words port.old) state.at state.len) inputs.now (buffers_of (P.words port.old) buffers.now)).buffers }
    ensures state { AreApart state buffers.now → window (P.words port.new) state.at state.len ≡ (buffer_unit kind now.now (length outputs.old) (window (P.words port.old) state.at state.len) inputs.now (buffers_of (P.words port.old) buffers.now)).state }
    ensures gives { AreApart state buffers.now → outputs.new ≡ (buffer_unit kind now.now (length outputs.old) (window (P.words port.old) state.at state.len) inputs.now (buffers_of (P.words port.old) buffers.now)).outputs }
    ensures others { AreApart state buffers.now → (j : ℕ) → (j < state.at) ⊎ (state.at + state.len ≤ j) → overlaps j (live_places buffers.now) ≡ 0 → slice_index (P.words port.new) j ≡ slice_index (P.words port.old) j }
    ensures kept { (j : ℕ) → writes (P.foot port.old) j ≡ false → slice_index (P.words port.new) j ≡ slice_index (P.words port.old) j }
    ensures length { length (P.words port.new) ≡ length (P.words port.old) }
    ensures port { SameButWords P.foot P.rest port.old port.new }
{
    run_kind(kind, now, buffers, port, state, inputs, outputs);
}
