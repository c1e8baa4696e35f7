//! In.ar, InFeedback and In.kr: channels read from buses.
ghost use Rattle.std.specs.Prelude.{◌≡◌, ◌<◌, ◌≤◌, ◌+◌, ◌^◌, ℕ, IfSome, Some, cond, length, pos, replicate, slice_index, slice_index_or};
ghost use Rattle.sn_ports.specs.Limits.{block_frames, audio_bus_count, control_bus_count};
ghost use Rattle.sn_mem.specs.Words.{MayRead, SameButWords};
ghost use Rattle.sn_mem.specs.Layout.{audio_bus_words};
ghost use Rattle.sn_mem.specs.Blocks.{samples_at};
ghost use Rattle.sn_mem.specs.Buses.{audio_buses, control_buses, resting};
ghost use Rattle.sn_io.specs.Channels.{audio_channel, control_channel};
ghost use Rattle.sn_io.specs.BusInputs.{hears, audio_in, control_in, audio_inputs, control_inputs};
ghost use Rattle.sn_io.specs.Conditions.{MayReadAudio, MayReadControl};

use crate::channels::{audio_channel, control_channel};
use sn_mem::{Block, Blocks, Places, Port, sample_of};
use sn_ports::limits::BLOCK_FRAMES;

/// Whether a bus is heard in a block, by the number that it keeps.
fn hears(feedback: bool, block: u64, written: u64) -> bool
    requires { block < 2 ^ 63 }
    ensures { result ≡ hears feedback block written }
{
    written == block + 1 || (feedback && block > 0 && written == block)
}

/// What is heard of the audio bus at a place.
fn heard_at<P: Port>(port: &mut P, feedback: bool, block: u64, at: u32) -> Block
    requires block { block < 2 ^ 63 }
    requires reads { MayRead (P.foot port.old) at audio_bus_words }
    ensures value { result ≡ cond (hears feedback block (slice_index (P.words port.old) at)) (samples_at (P.words port.old) (at + 1)) (replicate block_frames (pos 0)) }
    ensures words { P.words port.new ≡ P.words port.old }
    ensures port { SameButWords P.foot P.rest port.old port.new }
{
    let written = port.load(at);
    if hears(feedback, block, written) {
        port.load_samples(at + 1)
    } else {
        [0; BLOCK_FRAMES]
    }
}

fn audio_in<P: Port>(port: &mut P, feedback: bool, block: u64, bus: Option<u32>) -> Block
    requires block { block < 2 ^ 63 }
    requires number { IfSome bus (λ n. n < audio_bus_count) }
    requires reads { MayReadAudio (P.foot port.old) bus }
    ensures value { result ≡ audio_in feedback block (audio_buses (P.words port.old)) bus }
    ensures words { P.words port.new ≡ P.words port.old }
    ensures port { SameButWords P.foot P.rest port.old port.new }
{
    match bus {
        Some(bus) => heard_at(port, feedback, block, Places::audio(bus).at),
        None => [0; BLOCK_FRAMES],
    }
}

/// The value of a control bus.
fn control_value<P: Port>(port: &mut P, bus: u32) -> i32
    requires number { bus < control_bus_count }
    requires reads { MayReadControl (P.foot port.old) (Some bus) }
    ensures value { result ≡ (slice_index_or (control_buses (P.words port.old)) bus resting).value }
    ensures words { P.words port.new ≡ P.words port.old }
    ensures port { SameButWords P.foot P.rest port.old port.new }
{
    let place = Places::control(bus);
    let word = port.load(place.at + 1);
    sample_of(word)
}

fn control_in<P: Port>(port: &mut P, bus: Option<u32>) -> Block
    requires number { IfSome bus (λ n. n < control_bus_count) }
    requires reads { MayReadControl (P.foot port.old) bus }
    ensures value { result ≡ control_in (control_buses (P.words port.old)) bus }
    ensures words { P.words port.new ≡ P.words port.old }
    ensures port { SameButWords P.foot P.rest port.old port.new }
{
    match bus {
        Some(bus) => [control_value(port, bus); BLOCK_FRAMES],
        None => [0; BLOCK_FRAMES],
    }
}

/// In.ar bus#, and InFeedback bus# with `feedback`: as many channels as `outputs` has blocks.
pub(crate) fn read_audio<P: Port>(
    port: &mut P,
    feedback: bool,
    block: u64,
    inputs: &Blocks,
    outputs: &mut Blocks,
)
    requires block { block < 2 ^ 63 }
    requires index { 1 ≤ length inputs.now }
    requires reads { (i : ℕ) → i < length outputs.old → MayReadAudio (P.foot port.old) (audio_channel inputs.now i) }
    ensures outputs { outputs.new ≡ audio_inputs feedback block inputs.now (length outputs.old) (audio_buses (P.words port.old)) }
    ensures words { P.words port.new ≡ P.words port.old }
    ensures port { SameButWords P.foot P.rest port.old port.new }
{
    let count = outputs.len();
    outputs.clear();
    for channel in 0..count {
        let samples = audio_in(port, feedback, block, audio_channel(inputs, channel));
        outputs.push(&samples);
    }
}

/// In.kr bus#: as many channels as `outputs` has blocks.
pub(crate) fn read_control<P: Port>(port: &mut P, inputs: &Blocks, outputs: &mut Blocks)
    requires index { 1 ≤ length inputs.now }
    requires reads { (i : ℕ) → i < length outputs.old → MayReadControl (P.foot port.old) (control_channel inputs.now i) }
    ensures outputs { outputs.new ≡ control_inputs inputs.now (length outputs.old) (control_buses (P.words port.old)) }
    ensures words { P.words port.new ≡ P.words port.old }
    ensures port { SameButWords P.foot P.rest port.old port.new }
{
    let count = outputs.len();
    outputs.clear();
    for channel in 0..count {
        let samples = control_in(port, control_channel(inputs, channel));
        outputs.push(&samples);
    }
}
