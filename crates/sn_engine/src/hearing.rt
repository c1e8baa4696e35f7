//! The sound of a block.
ghost use Rattle.std.specs.Prelude.{◌≡◌, ◌==◌, ◌≤◌, ◌<◌, ◌+◌, ◌++◌, ◌∷◌, [], ◌^◌, ℕ, length, slice_index, vec_capacity};
ghost use Rattle.sn_mem.specs.Layout.{bus_words};
ghost use Rattle.sn_ports.specs.Limits.{audio_bus_count, most_channels, block_frames, block_samples};
ghost use Rattle.sn_mem.specs.Blocks.{sample_in};
ghost use Rattle.sn_mem.specs.Buses.{audio_bus, heard};
ghost use Rattle.sn_world.specs.World.{world_of};
ghost use Rattle.sn_engine.specs.Hearing.{AreWritten};
ghost use Rattle.sn_engine.specs.Outputs.{copied_frame, copied_frames, frame_of, frames_of};

use crate::memory::Memory;
use sn_mem::{Places, sample_of};
use sn_ports::limits::{BLOCK_FRAMES, MOST_CHANNELS};
use sn_world::Stage;

/// The frames of a block.
const FRAMES: u32 = BLOCK_FRAMES as u32;

/// The audio buses that may be heard.
const MOST_HEARD: usize = MOST_CHANNELS as usize;

/// Whether an audio bus was written in a block.
fn is_written(memory: &mut Memory, bus: u32, block: u64) -> bool
    requires bus { bus < audio_bus_count }
    requires block { block < 2 ^ 63 }
    requires wide { bus_words ≤ length memory.old.words }
    ensures tag { result ≡ ((audio_bus memory.old.words bus).written == block + 1) }
    ensures same { memory.new ≡ memory.old }
{
    memory.word(Places::audio(bus).at) == block + 1
}

/// Of each of the audio buses that may be heard whether it was written in a block.
fn written_buses(memory: &mut Memory, block: u64) -> [bool; MOST_HEARD]
    requires block { block < 2 ^ 63 }
    requires wide { bus_words ≤ length memory.old.words }
    ensures written { AreWritten block memory.old.words most_channels result }
    ensures same { memory.new ≡ memory.old }
{
    let mut written = [false; MOST_HEARD];
    for bus in 0..MOST_CHANNELS {
        written[bus as usize] = is_written(memory, bus, block);
    }
    written
}

/// The sample of an audio bus at a frame of a block, 0 if the bus was not written in it.
fn heard(memory: &mut Memory, bus: u32, written: bool, frame: u32) -> i32
    requires bus { bus < audio_bus_count }
    requires frame { frame < block_frames }
    requires wide { bus_words ≤ length memory.old.words }
    ensures sample { (b : ℕ) → written ≡ ((audio_bus memory.old.words bus).written == b + 1) → result ≡ heard b (audio_bus memory.old.words bus) frame }
    ensures same { memory.new ≡ memory.old }
{
    if !written {
        return 0;
    }
    sample_of(memory.word(Places::audio(bus).at + 1 + frame))
}

/// Appends a sample, if there is room.
fn put_sample(samples: &mut Vec<i32>, sample: i32)
    requires room { length samples.old.items < vec_capacity samples.old }
    ensures samples { samples.new.items ≡ samples.old.items ++ sample ∷ [] }
    ensures room { vec_capacity samples.old ≤ vec_capacity samples.new }
{
    match samples.push(sample) {
        Ok(()) => {}
        Err(_) => unreachable!(),
    }
}

/// Appends a frame of the sound of a block: the samples of the first audio buses.
fn append_frame(
    memory: &mut Memory,
    stage: &Stage,
    channels: u32,
    written: &[bool; MOST_HEARD],
    frame: u32,
    samples: &mut Vec<i32>,
)
    requires channels { channels ≤ most_channels }
    requires frame { frame < block_frames }
    requires wide { bus_words ≤ length memory.old.words }
    requires room { length samples.old.items + channels ≤ vec_capacity samples.old }
    ensures samples { (b : ℕ) → AreWritten b memory.old.words most_channels written.now → samples.new.items ≡ samples.old.items ++ frame_of channels b (world_of stage.now memory.old.words) frame }
    ensures room { vec_capacity samples.old ≤ vec_capacity samples.new }
    ensures same { memory.new ≡ memory.old }
{
    for bus in 0..channels {
        put_sample(samples, heard(memory, bus, written[bus as usize], frame));
    }
}

/// The frames of a block's sound, in place of what was there. It takes no memory if there is room for them.
pub fn hear_block(
    memory: &mut Memory,
    stage: &Stage,
    channels: u32,
    block: u64,
    samples: &mut Vec<i32>,
)
    requires channels { channels ≤ most_channels }
    requires block { block < 2 ^ 63 }
    requires wide { bus_words ≤ length memory.old.words }
    requires room { block_samples ≤ vec_capacity samples.old }
    ensures few { length samples.new.items ≤ block_samples }
    ensures samples { samples.new.items ≡ frames_of channels block (world_of stage.now memory.old.words) block_frames }
    ensures room { block_samples ≤ vec_capacity samples.new }
    ensures same { memory.new ≡ memory.old }
{
    samples.clear();
    let written = written_buses(memory, block);
    for frame in 0..FRAMES {
        append_frame(memory, stage, channels, &written, frame, samples);
    }
}

/// The sample in the word at a place.
fn sample_at(memory: &mut Memory, at: u32) -> i32
    requires { at < length memory.old.words }
    ensures sample { result ≡ sample_in (slice_index memory.old.words at) }
    ensures same { memory.new ≡ memory.old }
{
    sample_of(memory.word(at))
}

/// Appends a frame of the sound of a block out of its copy, which has a sample of each frame for each of the first
/// audio buses.
fn append_copied(memory: &mut Memory, channels: u32, at: u32, frame: u32, samples: &mut Vec<i32>)
    requires channels { channels ≤ most_channels }
    requires frame { frame < block_frames }
    requires inside { at + block_samples ≤ length memory.old.words }
    requires bounded { at + block_samples < 4294967296 }
    requires room { length samples.old.items + channels ≤ vec_capacity samples.old }
    ensures samples { samples.new.items ≡ samples.old.items ++ copied_frame channels at memory.old.words frame }
    ensures room { vec_capacity samples.old ≤ vec_capacity samples.new }
    ensures same { memory.new ≡ memory.old }
{
    for bus in 0..channels {
        put_sample(samples, sample_at(memory, at + FRAMES * bus + frame));
    }
}

/// The frames of a block's sound out of its copy, in place of what was there. It takes no memory if there is room for
/// them.
pub fn hear_copy(memory: &mut Memory, channels: u32, at: u32, samples: &mut Vec<i32>)
    requires channels { channels ≤ most_channels }
    requires inside { at + block_samples ≤ length memory.old.words }
    requires bounded { at + block_samples < 4294967296 }
    requires room { block_samples ≤ vec_capacity samples.old }
    ensures few { length samples.new.items ≤ block_samples }
    ensures samples { samples.new.items ≡ copied_frames channels at memory.old.words block_frames }
    ensures room { block_samples ≤ vec_capacity samples.new }
    ensures same { memory.new ≡ memory.old }
{
    samples.clear();
    for frame in 0..FRAMES {
        append_copied(memory, channels, at, frame, samples);
    }
}
