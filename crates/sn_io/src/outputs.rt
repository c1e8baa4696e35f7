//! Out.ar, ReplaceOut and Out.kr: signals onto buses.
ghost use Rattle.std.specs.Prelude.{◌≡◌, ◌<◌, ◌≤◌, ◌+◌, ◌^◌, ◌+ℤ◌, pos, ℕ, IfSome, length, slice_index_or};
ghost use Rattle.sn_ports.specs.Limits.{block_frames, audio_bus_count, control_bus_count};
ghost use Rattle.sn_fixed.specs.Fixed.{sat};
ghost use Rattle.sn_mem.specs.Words.{MayWrite, SameButWords};
ghost use Rattle.sn_mem.specs.Layout.{audio_bus_words, control_bus_words};
ghost use Rattle.sn_mem.specs.Blocks.{changed, table};
ghost use Rattle.sn_io.specs.Channels.{audio_channel, control_channel, channels, signals};
ghost use Rattle.sn_io.specs.OverWords.{summed, overwritten, onto_block, onto_audio, onto_audio_channel, held_at, onto_value, onto_control, onto_control_channel};
ghost use Rattle.sn_io.specs.Conditions.{MayWriteAudio, MayWriteControl};

use crate::channels::{audio_channel, control_channel};
use sn_fixed::add;
use sn_mem::{Block, Blocks, Places, Port, sample_of, word_of};
use sn_ports::limits::BLOCK_FRAMES;

/// The sums of two blocks, sample by sample. A sample has 32 bits, so the inner sat leaves it as it is.
#[inline(always)]
fn sums(a: &Block, b: &Block) -> Block
    ensures { result ≡ table (λ k. sat (slice_index_or a.now k (pos 0) +ℤ sat (slice_index_or b.now k (pos 0)))) block_frames }
{
    let mut samples = [0i32; BLOCK_FRAMES];
    for frame in 0..BLOCK_FRAMES {
        samples[frame] = add(a[frame], b[frame]);
    }
    samples
}

/// Adds a signal to a block's words from `at` on.
fn mix_block<P: Port>(port: &mut P, at: u32, signal: &Block)
    requires { MayWrite (P.foot port.old) at block_frames }
    ensures words { P.words port.new ≡ changed summed (P.words port.old) at signal.now }
    ensures port { SameButWords P.foot P.rest port.old port.new }
{
    let held = port.load_samples(at);
    port.store_samples(at, &sums(&held, signal));
}

/// Puts a signal into a block's words from `at` on, as if they held silence.
fn set_block<P: Port>(port: &mut P, at: u32, signal: &Block)
    requires { MayWrite (P.foot port.old) at block_frames }
    ensures words { P.words port.new ≡ changed (λ _. overwritten) (P.words port.old) at signal.now }
    ensures port { SameButWords P.foot P.rest port.old port.new }
{
    let silence = [0i32; BLOCK_FRAMES];
    port.store_samples(at, &sums(&silence, signal));
}

/// Puts a signal onto the audio bus at a place. With `adds` it adds to what was written in this block, and otherwise
/// overwrites.
pub(crate) fn put_block<P: Port>(port: &mut P, adds: bool, block: u64, at: u32, signal: &Block)
    requires block { block < 2 ^ 63 }
    requires bus { MayWrite (P.foot port.old) at audio_bus_words }
    ensures words { P.words port.new ≡ onto_block adds block (P.words port.old) at signal.now }
    ensures port { SameButWords P.foot P.rest port.old port.new }
{
    let written = port.load(at);
    if adds && written == block + 1 {
        mix_block(port, at + 1, signal);
    } else {
        set_block(port, at + 1, signal);
        port.store(at, block + 1);
    }
}

fn put_audio<P: Port>(port: &mut P, adds: bool, block: u64, bus: Option<u32>, signal: &Block)
    requires block { block < 2 ^ 63 }
    requires number { IfSome bus (λ n. n < audio_bus_count) }
    requires bus { MayWriteAudio (P.foot port.old) bus }
    ensures words { P.words port.new ≡ onto_audio adds block (P.words port.old) bus signal.now }
    ensures port { SameButWords P.foot P.rest port.old port.new }
{
    match bus {
        Some(bus) => put_block(port, adds, block, Places::audio(bus).at, signal),
        None => {}
    }
}

/// Out.ar bus# signals with `adds`, and ReplaceOut bus# signals: each channel onto the audio bus of
/// its number.
pub(crate) fn write_audio<P: Port>(port: &mut P, adds: bool, block: u64, inputs: &Blocks)
    requires block { block < 2 ^ 63 }
    requires index { 1 ≤ length inputs.now }
    requires buses { (i : ℕ) → i + 1 < length inputs.now → MayWriteAudio (P.foot port.old) (audio_channel inputs.now i) }
    ensures words { P.words port.new ≡ channels (onto_audio_channel adds block inputs.now) inputs.now (signals inputs.now) (P.words port.old) }
    ensures port { SameButWords P.foot P.rest port.old port.new }
{
    for channel in 0..inputs.len() - 1 {
        put_audio(
            port,
            adds,
            block,
            audio_channel(inputs, channel),
            inputs.block(channel + 1),
        );
    }
}

/// What units have written onto the control bus at a place in this block.
fn held_at<P: Port>(port: &mut P, block: u64, at: u32) -> i32
    requires block { block < 2 ^ 63 }
    requires bus { MayWrite (P.foot port.old) at control_bus_words }
    ensures value { result ≡ held_at block (P.words port.old) at }
    ensures words { P.words port.new ≡ P.words port.old }
    ensures port { SameButWords P.foot P.rest port.old port.new }
{
    let written = port.load(at);
    let word = port.load(at + 1);
    if written == block + 1 {
        sample_of(word)
    } else {
        0
    }
}

fn put_value<P: Port>(port: &mut P, block: u64, at: u32, x: i32)
    requires block { block < 2 ^ 63 }
    requires bus { MayWrite (P.foot port.old) at control_bus_words }
    ensures words { P.words port.new ≡ onto_value block (P.words port.old) at x }
    ensures port { SameButWords P.foot P.rest port.old port.new }
{
    let value = add(held_at(port, block, at), x);
    port.store(at + 1, word_of(value));
    port.store(at, block + 1);
}

fn put_control<P: Port>(port: &mut P, block: u64, bus: Option<u32>, signal: &Block)
    requires block { block < 2 ^ 63 }
    requires number { IfSome bus (λ n. n < control_bus_count) }
    requires bus { MayWriteControl (P.foot port.old) bus }
    ensures words { P.words port.new ≡ onto_control block (P.words port.old) bus signal.now }
    ensures port { SameButWords P.foot P.rest port.old port.new }
{
    match bus {
        Some(bus) => put_value(port, block, Places::control(bus).at, signal[0]),
        None => {}
    }
}

/// Out.kr bus# signals: the first sample of each channel onto the control bus of its number.
pub(crate) fn write_control<P: Port>(port: &mut P, block: u64, inputs: &Blocks)
    requires block { block < 2 ^ 63 }
    requires index { 1 ≤ length inputs.now }
    requires buses { (i : ℕ) → i + 1 < length inputs.now → MayWriteControl (P.foot port.old) (control_channel inputs.now i) }
    ensures words { P.words port.new ≡ channels (onto_control_channel block inputs.now) inputs.now (signals inputs.now) (P.words port.old) }
    ensures port { SameButWords P.foot P.rest port.old port.new }
{
    for channel in 0..inputs.len() - 1 {
        put_control(
            port,
            block,
            control_channel(inputs, channel),
            inputs.block(channel + 1),
        );
    }
}
