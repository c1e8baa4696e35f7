//! The limits of the server, each by its name. `specs/Limits.antt` has the same numbers for definitions and contracts.
ghost use Rattle.std.specs.Prelude.{◌≡◌};
ghost use Rattle.sn_ports.specs.Limits.{block_frames, audio_bus_count, control_bus_count, buffer_count, most_channels, block_samples, most_wires, most_units, most_elements, low_rate, middle_rate, high_rate, least_memory, most_memory, most_nodes, most_packet, most_bundles, most_stream, most_file, most_samples, most_values, most_ticks, most_span, most_count, most_workers, most_jobs, most_clients, most_relayed, most_entries};

/// The frames of a block.
pub const BLOCK_FRAMES: usize = 64;

/// Audio buses, numbered from 0 on.
pub const AUDIO_BUS_COUNT: u32 = 128;

/// Control buses, numbered from 0 on.
pub const CONTROL_BUS_COUNT: u32 = 1024;

/// Numbers of buffers, from 0 on.
pub const BUFFER_COUNT: u32 = 1024;

/// The channels of the sound, and of a buffer.
pub const MOST_CHANNELS: u32 = 8;

/// The samples of a block with as many channels as there may be.
pub const BLOCK_SAMPLES: usize = BLOCK_FRAMES * MOST_CHANNELS as usize;

/// The wires of a definition. Neither it nor a unit has more inputs, outputs or controls.
pub const MOST_WIRES: usize = 512;

/// The units of a definition.
pub const MOST_UNITS: usize = 256;

/// The elements of an array of controls.
pub const MOST_ELEMENTS: usize = 64;

/// The lowest rate of the sound, in frames a second.
pub const LOW_RATE: u32 = 44_100;

/// The middle rate.
pub const MIDDLE_RATE: u32 = 48_000;

/// The highest rate.
pub const HIGH_RATE: u32 = 96_000;

/// The fewest words of the memory for buffers and states.
pub const LEAST_MEMORY: u32 = 65_536;

/// The most words of the memory for buffers and states.
pub const MOST_MEMORY: u32 = 16_777_216;

/// Attached nodes, the root among them.
pub const MOST_NODES: usize = 4096;

/// The bytes of a packet.
pub const MOST_PACKET: usize = 65_536;

/// How deep bundles may nest.
pub const MOST_BUNDLES: u32 = 8;

/// The bytes of a stream.
pub const MOST_STREAM: usize = 16_777_216;

/// The bytes of a sound file that a command names.
pub const MOST_FILE: usize = 33_554_432;

/// The samples of sound files that the commands of a stream may read.
pub const MOST_SAMPLES: u32 = 16_777_216;

/// The values that a message asks for.
pub const MOST_VALUES: u32 = 8192;

/// The blocks that are said to be due at once.
pub const MOST_TICKS: u32 = 1024;

/// The blocks of a span: those that are rendered in one round.
pub const MOST_SPAN: u32 = 32;

/// Counts that only rise, of blocks, of bytes that came and of entries that were put, end here.
pub const MOST_COUNT: u64 = 1 << 62;

/// The workers of a crew.
pub const MOST_WORKERS: u32 = 16;

/// The jobs of a round.
pub const MOST_JOBS: u32 = 65_536;

/// The clients of a connection.
pub const MOST_CLIENTS: u32 = 4;

/// The notes of clients' readers that a relay holds.
pub const MOST_RELAYED: u32 = 1024;

/// The entries that wait over a connection.
pub const MOST_ENTRIES: u32 = 65_536;

/// A law: each number in code is that of the definitions.
pub fn limits_are_defined()
    ensures frames { BLOCK_FRAMES ≡ block_frames }
    ensures audio { AUDIO_BUS_COUNT ≡ audio_bus_count }
    ensures control { CONTROL_BUS_COUNT ≡ control_bus_count }
    ensures buffers { BUFFER_COUNT ≡ buffer_count }
    ensures channels { MOST_CHANNELS ≡ most_channels }
    ensures samples { BLOCK_SAMPLES ≡ block_samples }
    ensures wires { MOST_WIRES ≡ most_wires }
    ensures units { MOST_UNITS ≡ most_units }
    ensures elements { MOST_ELEMENTS ≡ most_elements }
    ensures rates { (LOW_RATE ≡ low_rate) × (MIDDLE_RATE ≡ middle_rate) × (HIGH_RATE ≡ high_rate) }
    ensures memory { (LEAST_MEMORY ≡ least_memory) × (MOST_MEMORY ≡ most_memory) }
    ensures nodes { MOST_NODES ≡ most_nodes }
    ensures packet { MOST_PACKET ≡ most_packet }
    ensures bundles { MOST_BUNDLES ≡ most_bundles }
    ensures stream { MOST_STREAM ≡ most_stream }
    ensures file { MOST_FILE ≡ most_file }
    ensures read { MOST_SAMPLES ≡ most_samples }
    ensures values { MOST_VALUES ≡ most_values }
    ensures ticks { MOST_TICKS ≡ most_ticks }
    ensures span { MOST_SPAN ≡ most_span }
    ensures count { MOST_COUNT ≡ most_count }
    ensures workers { MOST_WORKERS ≡ most_workers }
    ensures jobs { MOST_JOBS ≡ most_jobs }
    ensures clients { MOST_CLIENTS ≡ most_clients }
    ensures relayed { MOST_RELAYED ≡ most_relayed }
    ensures entries { MOST_ENTRIES ≡ most_entries }
{}
