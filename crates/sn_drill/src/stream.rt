//! The packets of a drill.
ghost use Rattle.std.specs.Prelude.{◌≡◌, ◌≤◌, ◌<◌, ◌*◌, ◌++◌, IfOk, OnOk, map};
ghost use Rattle.sn_osc.specs.Shape.{bundle, shape, shapes};
ghost use Rattle.sn_queue.specs.Time.{at};
ghost use Rattle.sn_drill.specs.Stream.{following, drawn, notes, drill_stream};

use crate::messages::{bundle_of, note, opening};
use sn_osc::{Elements, Packet};
use sn_ports::NoMemory;
use sn_queue::at;
use std::alloc::Global;

/// The number after a number.
fn following(number: u32) -> u32
    ensures { result ≡ following number }
{
    ((u64::from(number) * 1_664_525 + 1_013_904_223) % (1 << 32)) as u32
}

/// The upper 16 bits of a number.
fn drawn(number: u32) -> u32
    ensures value { result ≡ drawn number }
    ensures small { result < 65536 }
{
    number / 65_536
}

/// Packets that act before a block.
#[tactic(auto, using(crate::proofs::StreamLemmas::tag_small))]
fn packets_before(rate: u32, block: u32, elements: Elements) -> Packet
    requires rate { 0 < rate }
    requires block { block ≤ 20000 }
    ensures { shape result ≡ bundle (at block 0 rate) (shapes elements.items) }
{
    bundle_of(at(u64::from(block), 0, rate) as u64, elements)
}

/// Appends `count` notes, each before its block.
fn put_notes(
    alloc: Global,
    seed: u32,
    rate: u32,
    count: u32,
    packets: &mut Elements,
) -> Result<(), NoMemory>
    requires rate { 0 < rate }
    requires count { count ≤ 2499 }
    ensures { OnOk result (map shape packets.new.items ≡ map shape packets.old.items ++ notes seed rate count) }
{
    let mut number = seed;
    for index in 0..count {
        let first = following(number);
        number = following(first);
        let elements = vec![in alloc; note(alloc, drawn(first), drawn(number))?]?;
        packets.push(packets_before(rate, 8 * index + 8, elements))?;
    }
    Ok(())
}

/// The packets of the drill of `blocks` blocks, at `rate` frames a second.
pub fn drill_packets(alloc: Global, seed: u32, blocks: u32, rate: u32) -> Result<Elements, NoMemory>
    requires rate { 0 < rate }
    requires some { 1 ≤ blocks }
    requires few { blocks ≤ 20000 }
    ensures { IfOk result (λ v. map shape v.items ≡ drill_stream seed blocks rate) }
{
    let mut packets = Vec::new(alloc);
    packets.push(opening(alloc)?)?;
    put_notes(alloc, seed, rate, (blocks - 1) / 8, &mut packets)?;
    packets.push(packets_before(rate, blocks, Vec::new(alloc)))?;
    Ok(packets)
}
