//! Where the buses lie in the words.
ghost use Rattle.std.specs.Prelude.{◌≡◌, ◌<◌, ◌+◌, ◌^◌};
ghost use Rattle.sn_ports.specs.Limits.{audio_bus_count, control_bus_count};
ghost use Rattle.sn_mem.specs.Layout.{audio_place, control_place, lane_place, lane_words, most_lanes};

use crate::extents::Extent;
use sn_ports::limits::{AUDIO_BUS_COUNT, BLOCK_FRAMES, CONTROL_BUS_COUNT};

/// The words of an audio bus: the number of the last block that wrote it plus 1, or 0, and then the samples of a block.
const AUDIO_BUS_WORDS: u32 = 1 + BLOCK_FRAMES as u32;

/// The words of a control bus: the number of the last block in which a synth wrote it plus 1, or 0, and then its value.
const CONTROL_BUS_WORDS: u32 = 2;

/// The words of all audio buses.
const AUDIO_WORDS: u32 = AUDIO_BUS_COUNT * AUDIO_BUS_WORDS;

/// The words of all buses.
pub const BUS_WORDS: usize = (AUDIO_WORDS + CONTROL_BUS_COUNT * CONTROL_BUS_WORDS) as usize;

/// How many lanes there may be.
pub const MOST_LANES: u32 = 4096;

/// The words of `MOST_LANES` lanes.
pub const LANE_WORDS: u32 = MOST_LANES * AUDIO_BUS_WORDS;

/// The places of buses in the memory words: audio buses from word 0 on, then control buses.
#[derive(Clone, Copy)]
pub struct Places;

impl Places {
    /// The words of audio bus `n`.
    pub fn audio(n: u32) -> Extent
        requires { n < audio_bus_count }
        ensures { result ≡ audio_place n }
    {
        Extent {
            at: AUDIO_BUS_WORDS * n,
            len: AUDIO_BUS_WORDS,
        }
    }

    /// The words of control bus `n`.
    pub fn control(n: u32) -> Extent
        requires { n < control_bus_count }
        ensures { result ≡ control_place n }
    {
        Extent {
            at: AUDIO_WORDS + CONTROL_BUS_WORDS * n,
            len: CONTROL_BUS_WORDS,
        }
    }

    /// Lane `k` of those that begin at word `first`. It has as many words as an audio bus, which a synth mixes there.
    pub fn lane(first: u32, k: u32) -> Extent
        requires number { k < most_lanes }
        requires end { first + lane_words < 2 ^ 32 }
        ensures { result ≡ lane_place first k }
    {
        Extent {
            at: first + AUDIO_BUS_WORDS * k,
            len: AUDIO_BUS_WORDS,
        }
    }
}
