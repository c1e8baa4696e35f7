//! Packets are played for the world that they leave.
ghost use Rattle.std.specs.Prelude.{◌≡◌, IfErr, IfOk, None, OnOk, map};
ghost use Rattle.sn_engine.specs.Running.{opened};
ghost use Rattle.sn_osc.specs.Shape.{shape};
ghost use Rattle.sn_render.specs.Play.{played};
ghost use Rattle.sn_render.specs.Playing.{ArePlayable, HasEnd, IsUnreached};
ghost use Rattle.sn_render.specs.declared.outcome.Outcome.TheVariants.{Done};

use crate::dropping::DroppingSink;
use crate::gathering::Packets;
use crate::outcome::Outcome;
use crate::playing::offer_all;
use crate::rendering::render_blocks;
use sn_engine::Engine;
use sn_pcm::{Settings, too_long};
use sn_ports::Gate;
use std::alloc::Global;
use std::thread::Threads;

/// An engine at the boundary after the last block of its packets.
#[derive(Drop)]
pub struct Reached {
    /// The engine.
    pub engine: Engine,
    /// How many blocks were played.
    pub blocks: u64,
}

/// Plays packets to the boundary after the last block, from an engine at which nothing has arrived, and tells how many
/// blocks they were.
fn play_to_end<H: Threads + Sync, G: Gate>(
    rt: &H,
    alloc: Global,
    settings: &Settings,
    packets: Packets,
    engine: &mut Engine,
    gate: &G,
) -> Result<u64, Outcome>
    requires playable { ArePlayable (map shape packets.items) }
    requires opened { engine.old.running ≡ opened settings.now 0 None 1 }
    ensures end { IfOk result (λ blocks. HasEnd settings.now (map shape packets.items) (Done blocks)) }
    ensures world { OnOk result (engine.new.running.world ≡ (played settings.now (map shape packets.items)).world) }
    ensures refused { IfErr result (IsUnreached settings.now (map shape packets.items)) }
{
    let Ok(()) = offer_all(alloc, engine, packets) else {
        return Err(Outcome::NoMemory);
    };
    let blocks = engine.last().unwrap_or(0);
    if too_long(settings, blocks) {
        return Err(Outcome::LongSound { blocks });
    }
    let mut sound = DroppingSink {};
    let mut replies = DroppingSink {};
    match render_blocks(rt, alloc, blocks, engine, &mut sound, &mut replies, gate) {
        Ok(()) => Ok(blocks),
        // The two sinks never fail.
        Err(_) => Err(Outcome::NoMemory),
    }
}

/// Plays packets as one stream and drops their sound and their replies. It refuses what [`play`](crate::play) refuses.
pub fn reach<H: Threads + Sync, G: Gate>(
    rt: &H,
    alloc: Global,
    settings: &Settings,
    packets: Packets,
    gate: &G,
) -> Result<Reached, Outcome>
    requires playable { ArePlayable (map shape packets.items) }
    ensures end { IfOk result (λ r. HasEnd settings.now (map shape packets.items) (Done r.blocks)) }
    ensures world { IfOk result (λ r. r.engine.running.world ≡ (played settings.now (map shape packets.items)).world) }
    ensures refused { IfErr result (IsUnreached settings.now (map shape packets.items)) }
{
    let Ok(mut engine) = Engine::open(alloc, settings, 0, None, 1) else {
        return Err(Outcome::NoMemory);
    };
    match play_to_end(rt, alloc, settings, packets, &mut engine, gate) {
        Ok(blocks) => Ok(Reached { engine, blocks }),
        Err(outcome) => Err(outcome),
    }
}
