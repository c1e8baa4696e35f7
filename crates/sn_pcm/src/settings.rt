ghost use Rattle.std.specs.Prelude.{◌≡◌, IsTrue};
ghost use Rattle.sn_ports.specs.Limits.{most_channels, most_workers, least_memory, most_memory};
ghost use Rattle.sn_pcm.specs.Allowed.{is_rate, is_width, is_within};

use sn_ports::limits::MIDDLE_RATE;

/// How to render. Each field always holds a value that a run allows.
#[derive(Clone, Copy, Debug)]
pub struct Settings {
    /// Frames a second: 44,100, 48,000 or 96,000.
    pub rate: u32,
    /// Channels of the sound: 1 to 8.
    pub channels: u32,
    /// Bits of a sample in the sound: 16 or 24.
    pub bits: u32,
    /// Workers, which share the jobs of each block: 1 to 16. Their number changes no byte.
    pub workers: u32,
    /// Words of 8 bytes in the pool of buffers and unit states: 65,536 to 16,777,216.
    pub memory: u32,
    pub ghost rate_is: { IsTrue (is_rate rate) },
    pub ghost channels_are: { IsTrue (is_within 1 most_channels channels) },
    pub ghost bits_are: { IsTrue (is_width bits) },
    pub ghost workers_are: { IsTrue (is_within 1 most_workers workers) },
    pub ghost memory_is: { IsTrue (is_within least_memory most_memory memory) },
}

impl Settings {
    ghost use Rattle.sn_pcm.specs.Opening.{opening};

    /// The settings if nothing is chosen: 48,000 frames a second, 2 channels, 16 bits, 4 workers and 1,048,576 words.
    pub fn new() -> Self
        ensures { result ≡ opening }
    {
        Settings {
            rate: MIDDLE_RATE,
            channels: 2,
            bits: 16,
            workers: 4,
            memory: 1048576,
        }
    }
}
