//! Which groups are split, and onto which lanes their members mix.
ghost use Rattle.std.specs.Prelude.{◌≡◌, ◌+◌, ◌<◌, ◌≤◌, ◌^◌, ◌&&◌, ◌||◌, ◌++◌, false, not, nat_le, if◌then◌else◌, length, slice_index_or, IfOk, OnOk, Some, None};
ghost use Rattle.std.specs.List.{All, filter};
ghost use Rattle.sn_ports.specs.Limits.{audio_bus_count};
ghost use Rattle.sn_mem.specs.Blocks.{table};
ghost use Rattle.sn_mem.specs.Layout.{audio_place, lane_place, lane_words, most_lanes};
ghost use Rattle.sn_graph.specs.Inputs.{AreNoted, nodes_of};
ghost use Rattle.sn_graph.specs.Lanes.{given, is_in, laned, lanes_from, mixed_of, moving, onto, pairs, with_lanes, with_shared};
ghost use Rattle.sn_graph.specs.Sharing.{two_mix};
ghost use Rattle.sn_graph.specs.Voices.{group, none, voices};

use crate::mixing::{BUSES, mixes, no_buses};
use crate::nodes::{HeardNodes, Joint, Voice};
use sn_mem::{Moved, Moves, Places};
use sn_ports::NoMemory;
use std::alloc::Global;

/// Where lanes begin, and how many there are.
#[derive(Clone, Copy, Debug)]
pub struct Lanes {
    /// The number of their first word.
    pub first: u32,
    /// How many there are.
    pub most: u32,
}

impl Lanes {
    /// A bus, moved onto a lane.
    fn moved(self, bus: u32, lane: u32) -> Moved
        requires bus { bus < audio_bus_count }
        requires lane { lane < most_lanes }
        requires end { self.first + lane_words < 2 ^ 32 }
        ensures { result ≡ record { bus = audio_place bus; lane = lane_place self.first lane } }
    {
        Moved {
            bus: Places::audio(bus),
            lane: Places::lane(self.first, lane),
        }
    }
}

// ---- shared buses

fn is_shared(two_mix: &[bool; BUSES], above: &[bool; BUSES], bus: usize) -> bool
    requires { bus < audio_bus_count }
    ensures { result ≡ (slice_index_or two_mix.now bus false && not (slice_index_or above.now bus false)) }
{
    two_mix[bus] && !above[bus]
}

/// The buses that members share: two of them mix a bus, and no split group above shares it.
fn shared_by(
    alloc: Global,
    two_mix: &[bool; BUSES],
    above: &[bool; BUSES],
) -> Result<Vec<u32>, NoMemory>
    ensures buses { IfOk result (λ buses. buses.items ≡ filter (λ n. slice_index_or two_mix.now n false && not (slice_index_or above.now n false)) (table (λ n. n) audio_bus_count)) }
{
    let mut buses = Vec::new(alloc);
    for bus in 0..BUSES {
        if is_shared(two_mix, above, bus) {
            buses.push(bus as u32)?;
        }
    }
    Ok(buses)
}

/// Whether a bus is among these.
fn is_in(buses: &[u32], bus: usize) -> bool
    requires { bus < audio_bus_count }
    ensures { result ≡ is_in bus buses.now }
{
    buses.iter().any(|shared| *shared as usize == bus)
}

fn is_with(above: &[bool; BUSES], buses: &[u32], bus: usize) -> bool
    requires { bus < audio_bus_count }
    ensures { result ≡ (slice_index_or above.now bus false || is_in bus buses.now) }
{
    above[bus] || is_in(buses, bus)
}

/// The flags of what split groups share, with further buses.
fn with_shared(above: &[bool; BUSES], buses: &[u32]) -> [bool; BUSES]
    ensures { result ≡ with_shared above.now buses.now }
{
    let mut flags = no_buses();
    for bus in 0..BUSES {
        flags[bus] = is_with(above, buses, bus);
    }
    flags
}

// ---- pairs of a synth and a bus

/// How many of these buses a synth mixes.
fn count_mixed(buses: &[u32], voice: &Voice) -> u32
    requires few { length buses.now ≤ audio_bus_count }
    requires buses { All (λ n. n < audio_bus_count) buses.now }
    ensures { result ≡ length (mixed_of buses.now voice.now) }
{
    let mut count = 0;
    for bus in buses {
        if mixes(voice, *bus as usize) {
            count += 1;
        }
    }
    count
}

/// The number of the lane after those of all pairs, if there are enough lanes.
fn end_of(buses: &[u32], most: u32, taken: u32, nodes: &HeardNodes) -> Option<u32>
    requires few { length buses.now ≤ audio_bus_count }
    requires buses { All (λ n. n < audio_bus_count) buses.now }
    requires most { most ≤ most_lanes }
    requires taken { taken ≤ most }
    ensures { let end = taken + pairs buses.now (voices (nodes_of nodes.now)) in result ≡ (if nat_le end most then Some end else None) }
{
    match nodes {
        HeardNodes::None => Some(taken),
        HeardNodes::Synth(voice, rest) => {
            let next = taken + count_mixed(buses, voice);
            if next > most {
                return None;
            }
            end_of(buses, most, next, rest)
        }
        HeardNodes::Group(_, inner, rest) => match end_of(buses, most, taken, inner) {
            None => None,
            Some(next) => end_of(buses, most, next, rest),
        },
    }
}

/// Gives a lane to each of these buses that a synth mixes, and puts it at the end of the joint's. Returns the number of
/// the next lane.
fn give_voice(
    lanes: Lanes,
    buses: &[u32],
    next: u32,
    voice: &mut Voice,
    added: &mut Moves,
) -> Result<u32, NoMemory>
    requires buses { All (λ n. n < audio_bus_count) buses.now }
    requires room { next + length (mixed_of buses.now voice.old) ≤ most_lanes }
    requires end { lanes.first + lane_words < 2 ^ 32 }
    ensures voice { OnOk result (voice.new ≡ moving voice.old (onto lanes.first next (mixed_of buses.now voice.old))) }
    ensures added { OnOk result (added.new ≡ added.old ++ onto lanes.first next (mixed_of buses.now voice.old)) }
    ensures next { IfOk result (λ after. after ≡ next + length (mixed_of buses.now voice.old)) }
{
    let mut lane = next;
    for bus in buses {
        if mixes(voice, *bus as usize) {
            let moved = lanes.moved(*bus, lane);
            voice.moves.push(moved)?;
            added.push(moved)?;
            lane += 1;
        }
    }
    Ok(lane)
}

/// Gives a lane to each pair of a synth below and one of these buses, in the order of the walk. Returns the number of
/// the next lane.
fn give(
    lanes: Lanes,
    buses: &[u32],
    next: u32,
    nodes: &mut HeardNodes,
    added: &mut Moves,
) -> Result<u32, NoMemory>
    requires buses { All (λ n. n < audio_bus_count) buses.now }
    requires room { next + pairs buses.now (voices (nodes_of nodes.old)) ≤ most_lanes }
    requires end { lanes.first + lane_words < 2 ^ 32 }
    ensures nodes { OnOk result (nodes_of nodes.new ≡ given lanes.first next buses.now (nodes_of nodes.old)) }
    ensures added { OnOk result (added.new ≡ added.old ++ lanes_from lanes.first next buses.now (voices (nodes_of nodes.old))) }
    ensures next { IfOk result (λ after. after ≡ next + pairs buses.now (voices (nodes_of nodes.old))) }
{
    match nodes {
        HeardNodes::None => Ok(next),
        HeardNodes::Synth(voice, rest) => {
            let next = give_voice(lanes, buses, next, voice, added)?;
            give(lanes, buses, next, rest, added)
        }
        HeardNodes::Group(_, inner, rest) => {
            let next = give(lanes, buses, next, inner, added)?;
            give(lanes, buses, next, rest, added)
        }
    }
}

/// The same for nodes whose joint has no lanes yet. Returns these.
fn lanes_below(
    alloc: Global,
    lanes: Lanes,
    buses: &[u32],
    next: u32,
    nodes: &mut HeardNodes,
) -> Result<Moves, NoMemory>
    requires buses { All (λ n. n < audio_bus_count) buses.now }
    requires room { next + pairs buses.now (voices (nodes_of nodes.old)) ≤ most_lanes }
    requires end { lanes.first + lane_words < 2 ^ 32 }
    ensures nodes { OnOk result (nodes_of nodes.new ≡ given lanes.first next buses.now (nodes_of nodes.old)) }
    ensures lanes { IfOk result (λ added. added ≡ lanes_from lanes.first next buses.now (voices (nodes_of nodes.old))) }
{
    let mut added = Moves::new(alloc);
    give(lanes, buses, next, nodes, &mut added)?;
    Ok(added)
}

// ---- groups in the order of the walk

/// Splits those groups below nodes that may be split, as far as there are lanes. Returns how many lanes are taken then.
#[cycle(lay)]
fn lay(
    alloc: Global,
    lanes: Lanes,
    above: &[bool; BUSES],
    taken: u32,
    nodes: &mut HeardNodes,
) -> Result<u32, NoMemory>
    requires most { lanes.most ≤ most_lanes }
    requires taken { taken ≤ lanes.most }
    requires end { lanes.first + lane_words < 2 ^ 32 }
    requires noted { AreNoted nodes.old }
    ensures nodes { OnOk result (nodes_of nodes.new ≡ (laned lanes.first lanes.most above.now taken (nodes_of nodes.old)).nodes) }
    ensures taken { IfOk result (λ after. after ≡ (laned lanes.first lanes.most above.now taken (nodes_of nodes.old)).taken) }
    ensures few { IfOk result (λ after. after ≤ lanes.most) }
{
    match nodes {
        HeardNodes::None => Ok(taken),
        HeardNodes::Synth(_, rest) => lay(alloc, lanes, above, taken, rest),
        HeardNodes::Group(joint, inner, rest) => {
            let taken = lay_group(alloc, lanes, above, taken, joint, inner)?;
            lay(alloc, lanes, above, taken, rest)
        }
    }
}

/// Splits a group, if it may be split and there are enough lanes, and the groups below it. Returns how many lanes are
/// taken then.
#[cycle(lay)]
fn lay_group(
    alloc: Global,
    lanes: Lanes,
    above: &[bool; BUSES],
    taken: u32,
    joint: &mut Joint,
    inner: &mut HeardNodes,
) -> Result<u32, NoMemory>
    requires most { lanes.most ≤ most_lanes }
    requires taken { taken ≤ lanes.most }
    requires end { lanes.first + lane_words < 2 ^ 32 }
    requires shared { joint.old.shared ≡ table (two_mix (nodes_of inner.old)) audio_bus_count }
    requires noted { AreNoted inner.old }
    ensures nodes { OnOk result (group joint.new.lanes (nodes_of inner.new) none ≡ (laned lanes.first lanes.most above.now taken (group joint.old.lanes (nodes_of inner.old) none)).nodes) }
    ensures taken { IfOk result (λ after. after ≡ (laned lanes.first lanes.most above.now taken (group joint.old.lanes (nodes_of inner.old) none)).taken) }
    ensures few { IfOk result (λ after. after ≤ lanes.most) }
{
    let shared = shared_by(alloc, &joint.shared, above)?;
    if joint.lanes.is_some() {
        if let Some(end) = end_of(&shared, lanes.most, taken, inner) {
            let all = with_shared(above, &shared);
            let after = lay(alloc, lanes, &all, end, inner)?;
            joint.lanes = Some(lanes_below(alloc, lanes, &shared, taken, inner)?);
            return Ok(after);
        }
    }
    joint.lanes = None;
    lay(alloc, lanes, above, taken, inner)
}

/// Gives lanes to nodes that have none.
pub fn lay_nodes(alloc: Global, lanes: Lanes, nodes: &mut HeardNodes) -> Result<(), NoMemory>
    requires most { lanes.most ≤ most_lanes }
    requires end { lanes.first + lane_words < 2 ^ 32 }
    requires noted { AreNoted nodes.old }
    ensures { OnOk result (nodes_of nodes.new ≡ with_lanes lanes.first lanes.most (nodes_of nodes.old)) }
{
    lay(alloc, lanes, &no_buses(), 0, nodes)?;
    Ok(())
}
