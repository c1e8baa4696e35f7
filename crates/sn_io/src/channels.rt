//! The buses of a unit's channels.
ghost use Rattle.std.specs.Prelude.{◌≡◌, ◌<◌, ◌≤◌, IfSome, length};
ghost use Rattle.sn_ports.specs.Limits.{audio_bus_count, control_bus_count, most_wires};
ghost use Rattle.sn_mem.specs.Buses.{audio_number};
ghost use Rattle.sn_io.specs.Channels.{control_number, audio_channel, control_channel};

use sn_mem::Blocks;
use sn_ports::limits::{AUDIO_BUS_COUNT, CONTROL_BUS_COUNT};

/// The first number of which there is no audio bus.
const AUDIO_END: i64 = AUDIO_BUS_COUNT as i64;

/// The first number of which there is no control bus, and no buffer.
const CONTROL_END: i64 = CONTROL_BUS_COUNT as i64;

fn audio_number(number: i64) -> Option<u32>
    ensures number { result ≡ audio_number number }
    ensures bound { IfSome result (λ n. n < audio_bus_count) }
{
    if number >= 0 && number < AUDIO_END {
        Some(number as u32)
    } else {
        None
    }
}

/// The number of a control bus or of a buffer, if it is one.
pub(crate) fn control_number(number: i64) -> Option<u32>
    ensures number { result ≡ control_number number }
    ensures bound { IfSome result (λ n. n < control_bus_count) }
{
    if number >= 0 && number < CONTROL_END {
        Some(number as u32)
    } else {
        None
    }
}

/// The audio bus of a channel, if its number is one.
pub(crate) fn audio_channel(inputs: &Blocks, channel: usize) -> Option<u32>
    requires index { 1 ≤ length inputs.now }
    requires channel { channel < most_wires }
    ensures number { result ≡ audio_channel inputs.now channel }
    ensures bound { IfSome result (λ n. n < audio_bus_count) }
{
    audio_number(i64::from(inputs.at(0, 0)) + channel as i64)
}

/// The control bus of a channel, if its number is one.
pub(crate) fn control_channel(inputs: &Blocks, channel: usize) -> Option<u32>
    requires index { 1 ≤ length inputs.now }
    requires channel { channel < most_wires }
    ensures number { result ≡ control_channel inputs.now channel }
    ensures bound { IfSome result (λ n. n < control_bus_count) }
{
    control_number(i64::from(inputs.at(0, 0)) + channel as i64)
}
