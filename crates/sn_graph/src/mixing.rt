//! Which audio buses are mixed: a flag for each.
ghost use Rattle.std.specs.Prelude.{◌≡◌, ◌<◌, ◌*◌, ◌&&◌, ◌||◌, false, replicate, slice_index_or};
ghost use Rattle.std.specs.Int.{div_ceil};
ghost use Rattle.sn_ports.specs.Limits.{audio_bus_count};
ghost use Rattle.sn_mem.specs.Blocks.{table};
ghost use Rattle.sn_mem.specs.Layout.{audio_bus_words};
ghost use Rattle.sn_mem.specs.Words.{covers};
ghost use Rattle.sn_graph.specs.Sharing.{mixes};

use crate::nodes::Voice;
use sn_mem::{Extent, Places};
use sn_ports::limits::AUDIO_BUS_COUNT;

/// How many audio buses there are.
pub const BUSES: usize = AUDIO_BUS_COUNT as usize;

/// The first word of an audio bus.
fn first_word(bus: usize) -> u64
    requires { bus < audio_bus_count }
    ensures { result ≡ audio_bus_words * bus }
{
    u64::from(Places::audio(bus as u32).at)
}

/// Whether a synth mixes an audio bus.
pub fn mixes(voice: &Voice, bus: usize) -> bool
    requires { bus < audio_bus_count }
    ensures { result ≡ mixes voice.now bus }
{
    voice.reach.mixes.has(first_word(bus))
}

/// No bus.
pub fn no_buses() -> [bool; BUSES]
    ensures { result ≡ replicate audio_bus_count false }
{
    [false; BUSES]
}

/// The number of the first audio bus, of however many, that begins at a word or after it.
fn first_bus(word: u64) -> usize
    ensures { result ≡ div_ceil word audio_bus_words }
{
    word.div_ceil(u64::from(Places::audio(0).len)) as usize
}

/// Adds the buses whose first words lie in an extent.
fn add_covered(flags: &mut [bool; BUSES], extent: Extent)
    ensures { flags.new ≡ table (λ n. slice_index_or flags.old n false || covers extent (audio_bus_words * n)) audio_bus_count }
{
    let begin = u64::from(extent.at);
    let first = first_bus(begin);
    let past = first_bus(begin + u64::from(extent.len)).min(BUSES);
    for bus in first..past {
        flags[bus] = true;
    }
}

/// The buses that a synth mixes.
pub fn buses_of(voice: &Voice) -> [bool; BUSES]
    ensures { result ≡ table (mixes voice.now) audio_bus_count }
{
    let mut flags = no_buses();
    for extent in voice.reach.mixes.as_slice() {
        add_covered(&mut flags, *extent);
    }
    flags
}

fn is_either(one: &[bool; BUSES], other: &[bool; BUSES], bus: usize) -> bool
    requires { bus < audio_bus_count }
    ensures { result ≡ (slice_index_or one.now bus false || slice_index_or other.now bus false) }
{
    one[bus] | other[bus]
}

fn is_both(one: &[bool; BUSES], other: &[bool; BUSES], bus: usize) -> bool
    requires { bus < audio_bus_count }
    ensures { result ≡ (slice_index_or one.now bus false && slice_index_or other.now bus false) }
{
    one[bus] & other[bus]
}

/// The buses of one or the other.
pub fn either(one: &[bool; BUSES], other: &[bool; BUSES]) -> [bool; BUSES]
    ensures { result ≡ table (λ n. slice_index_or one.now n false || slice_index_or other.now n false) audio_bus_count }
{
    let mut flags = no_buses();
    for bus in 0..BUSES {
        flags[bus] = is_either(one, other, bus);
    }
    flags
}

/// The buses of both.
pub fn both(one: &[bool; BUSES], other: &[bool; BUSES]) -> [bool; BUSES]
    ensures { result ≡ table (λ n. slice_index_or one.now n false && slice_index_or other.now n false) audio_bus_count }
{
    let mut flags = no_buses();
    for bus in 0..BUSES {
        flags[bus] = is_both(one, other, bus);
    }
    flags
}
