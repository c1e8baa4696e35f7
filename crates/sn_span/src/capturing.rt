//! What the capture of a block does.
ghost use Rattle.std.specs.Prelude.{◌≡◌, ◌<◌, ◌+◌, ◌^◌, ◌==◌, cond, slice_index};
ghost use Rattle.sn_mem.specs.Layout.{audio_bus_words};
ghost use Rattle.sn_ports.specs.Limits.{block_frames};
ghost use Rattle.sn_mem.specs.Blocks.{put, table};
ghost use Rattle.sn_mem.specs.Words.{MayRead, MayWrite, SameButWords};
ghost use Rattle.sn_span.specs.Captures.{CanCapture, IsBeside, captured, heard_word};

use sn_mem::{Extent, Port};
use sn_ports::limits::BLOCK_FRAMES;

/// The frames of a block.
const FRAMES: u32 = BLOCK_FRAMES as u32;

/// Whether an audio bus was written in a block.
fn is_written<P: Port>(port: &mut P, bus: &Extent, block: u64) -> bool
    requires reads { MayRead (P.foot port.old) bus.now.at audio_bus_words }
    requires block { block < 2 ^ 63 }
    ensures number { result ≡ (slice_index (P.words port.old) bus.now.at == block + 1) }
    ensures words { P.words port.new ≡ P.words port.old }
    ensures port { SameButWords P.foot P.rest port.old port.new }
{
    port.load(bus.at) == block + 1
}

/// The word of an audio bus at a frame, 0 if the bus was not written.
fn word_at<P: Port>(port: &mut P, bus: &Extent, written: bool, frame: u32) -> u64
    requires reads { MayRead (P.foot port.old) bus.now.at audio_bus_words }
    requires frame { frame < block_frames }
    ensures word { result ≡ cond written (slice_index (P.words port.old) (bus.now.at + 1 + frame)) 0 }
    ensures words { P.words port.new ≡ P.words port.old }
    ensures port { SameButWords P.foot P.rest port.old port.new }
{
    if !written {
        return 0;
    }
    port.load(bus.at + 1 + frame)
}

/// Copies the sound of an audio bus in a block to the words from a place on, one a frame.
fn capture_bus<P: Port>(port: &mut P, bus: &Extent, at: u32, block: u64)
    requires long { bus.now.len ≡ audio_bus_words }
    requires reads { MayRead (P.foot port.old) bus.now.at audio_bus_words }
    requires writes { MayWrite (P.foot port.old) at block_frames }
    requires beside { IsBeside bus.now at block_frames }
    requires block { block < 2 ^ 63 }
    ensures words { P.words port.new ≡ put (P.words port.old) at (table (heard_word block (P.words port.old) bus.now) block_frames) }
    ensures port { SameButWords P.foot P.rest port.old port.new }
{
    let written = is_written(port, bus, block);
    for frame in 0..FRAMES {
        let word = word_at(port, bus, written, frame);
        port.store(at + frame, word);
    }
}

/// Copies the sound of audio buses in a block: of each, one after the other, a word for each of its samples, which are
/// 0 if the bus was not written in the block. The first of them stands at a place, and none of them is a word of the
/// buses.
pub fn capture<P: Port>(port: &mut P, outputs: &[Extent], at: u32, block: u64)
    requires can { CanCapture (P.foot port.old) outputs.now at }
    requires block { block < 2 ^ 63 }
    ensures words { P.words port.new ≡ captured outputs.now at block (P.words port.old) }
    ensures port { SameButWords P.foot P.rest port.old port.new }
{
    for (number, bus) in outputs.iter().enumerate() {
        capture_bus(port, bus, at + FRAMES * number as u32, block);
    }
}
