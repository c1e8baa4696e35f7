//! Packets are played, wherever they come from.
ghost use Rattle.std.specs.Prelude.{◌≡◌, ◌⊎◌, ◌≤◌, ◌++◌, ℕ, Err, None, OnErr, OnOk, map};
ghost use Rattle.std.specs.Io.KnownBytes.{Appends};
ghost use Rattle.sn_engine.specs.Running.{opened};
ghost use Rattle.sn_osc.specs.Shape.{shape};
ghost use Rattle.sn_pcm.specs.Sound.{data_len, header_bytes};
ghost use Rattle.sn_ports.specs.Causes.{Rose};
ghost use Rattle.sn_render.specs.Arriving.{ArePut, IsBegun};
ghost use Rattle.sn_render.specs.Faults.{NoneElseFailed};
ghost use Rattle.sn_render.specs.Fronts.{TakesFront, TakeFronts, TakeBoth};
ghost use Rattle.sn_render.specs.Going.{IsAtBoundary};
ghost use Rattle.sn_render.specs.Outcomes.{IsTooLong};
ghost use Rattle.sn_render.specs.Play.{arrive, to_end, to_first};
ghost use Rattle.sn_render.specs.Playing.{ArePlayable, HasEnd, IsEnd, PlayedPackets, WritesPackets};
ghost use Rattle.sn_render.specs.declared.outcome.Outcome.{Outcome};

use crate::gathering::Packets;
use crate::outcome::Outcome;
use crate::rendering::{Stop, render_blocks};
use sn_engine::Engine;
use sn_pcm::{Settings, header, too_long};
use sn_ports::{Gate, NoMemory, Sink, write_all};
use std::alloc::Global;
use std::thread::Threads;

/// Offers packets that arrive at boundary 0 from client 0, in order.
pub(crate) fn offer_all(
    alloc: Global,
    engine: &mut Engine,
    packets: Packets,
) -> Result<(), NoMemory>
    requires begun { IsBegun engine.old.running }
    requires put { ArePut (map shape packets.items) engine.old.running.waiting.puts }
    ensures { OnOk result (engine.new.running ≡ arrive (map shape packets.items) engine.old.running) }
{
    for packet in packets {
        engine.offer(alloc, packet, 0)?;
    }
    Ok(())
}

/// Writes the header of the sound.
fn write_header<O: Sink>(settings: &Settings, blocks: u64, sound: &mut O) -> Result<(), Stop>
    requires short { IsTooLong settings.now blocks → ⊥ }
    ensures written { OnOk result (Appends (O.taken sound.old) (O.taken sound.new) (header_bytes settings.now (data_len settings.now blocks))) }
    ensures front { OnErr result (TakesFront (O.taken sound.old) (O.taken sound.new) (header_bytes settings.now (data_len settings.now blocks))) }
    ensures memory { result ≡ Err Stop.NoMemory → ⊥ }
    ensures reply { result ≡ Err Stop.ReplyFault → ⊥ }
    ensures cause { result ≡ Err Stop.SoundFault → Rose (O.faults sound.old) (O.faults sound.new) }
    ensures later { O.faults sound.old ≤ O.faults sound.new }
    ensures unfailed { OnOk result (O.faults sound.new ≡ O.faults sound.old) }
{
    match write_all(sound, &header(settings, blocks)) {
        Ok(()) => Ok(()),
        Err(_) => Err(Stop::SoundFault),
    }
}

/// Writes the header and all blocks, and all replies.
fn write_run<H: Threads + Sync, O: Sink, R: Sink, G: Gate>(
    rt: &H,
    alloc: Global,
    settings: &Settings,
    blocks: u64,
    engine: &mut Engine,
    sound: &mut O,
    replies: &mut R,
    gate: &G,
) -> Result<(), Stop>
    requires begun { engine.old.running.block ≡ 0 }
    requires stands { IsAtBoundary engine.old.running }
    requires short { IsTooLong settings.now blocks → ⊥ }
    ensures ended { OnOk result (TakeBoth (O.taken sound.old) (O.taken sound.new) (R.taken replies.old) (R.taken replies.new)
        (header_bytes settings.now (data_len settings.now blocks) ++ (to_end blocks engine.old.running).sound) (to_first (to_end blocks engine.old.running).replies)) }
    ensures fronts { OnErr result (TakeFronts (O.taken sound.old) (O.taken sound.new) (R.taken replies.old) (R.taken replies.new)
        (header_bytes settings.now (data_len settings.now blocks) ++ (to_end blocks engine.old.running).sound) (to_first (to_end blocks engine.old.running).replies)) }
    ensures sound { result ≡ Err Stop.SoundFault → Rose (O.faults sound.old) (O.faults sound.new) }
    ensures reply { result ≡ Err Stop.ReplyFault → Rose (R.faults replies.old) (R.faults replies.new) }
    ensures unfailed { NoneElseFailed result (O.faults sound.old) (O.faults sound.new) (R.faults replies.old) (R.faults replies.new) }
{
    write_header(settings, blocks, sound)?;
    render_blocks(rt, alloc, blocks, engine, sound, replies, gate)
}

/// Offers packets to an engine at which nothing has arrived, checks the length, and writes what the packets give.
fn played<H: Threads + Sync, O: Sink, R: Sink, G: Gate>(
    rt: &H,
    alloc: Global,
    settings: &Settings,
    packets: Packets,
    engine: &mut Engine,
    sound: &mut O,
    replies: &mut R,
    gate: &G,
) -> Outcome
    requires playable { ArePlayable (map shape packets.items) }
    requires opened { engine.old.running ≡ opened settings.now 0 None 1 }
    ensures done { (n : ℕ) → result ≡ Outcome.Done n → PlayedPackets settings.now (map shape packets.items) n
        (O.taken sound.old) (O.taken sound.new) (R.taken replies.old) (R.taken replies.new) }
    ensures end { IsEnd settings.now (map shape packets.items) result }
    ensures sound { result ≡ Outcome.SoundFault → Rose (O.faults sound.old) (O.faults sound.new) }
    ensures reply { result ≡ Outcome.ReplyFault → Rose (R.faults replies.old) (R.faults replies.new) }
    ensures sound_unfailed { (result ≡ Outcome.SoundFault) ⊎ (O.faults sound.new ≡ O.faults sound.old) }
    ensures replies_unfailed { (result ≡ Outcome.ReplyFault) ⊎ (R.faults replies.new ≡ R.faults replies.old) }
    ensures written { WritesPackets settings.now (map shape packets.items) result (O.taken sound.old) (O.taken sound.new) (R.taken replies.old) (R.taken replies.new) }
{
    let Ok(()) = offer_all(alloc, engine, packets) else {
        return Outcome::NoMemory;
    };
    let blocks = engine.last().unwrap_or(0);
    if too_long(settings, blocks) {
        return Outcome::LongSound { blocks };
    }
    match write_run(rt, alloc, settings, blocks, engine, sound, replies, gate) {
        Ok(()) => Outcome::Done { blocks },
        Err(Stop::NoMemory) => Outcome::NoMemory,
        Err(Stop::SoundFault) => Outcome::SoundFault,
        Err(Stop::ReplyFault) => Outcome::ReplyFault,
    }
}

/// Plays packets as one stream: checks the length, and then writes the sound and the replies that they give.
///
/// Before rendering begins neither sink has taken a byte. If a sink fails, or memory runs out before the end, each sink
/// took a prefix of the bytes that the packets give.
pub fn play<H: Threads + Sync, O: Sink, R: Sink, G: Gate>(
    rt: &H,
    alloc: Global,
    settings: &Settings,
    packets: Packets,
    sound: &mut O,
    replies: &mut R,
    gate: &G,
) -> Outcome
    requires playable { ArePlayable (map shape packets.items) }
    // What was done is the sequential walk of the packets, if the sinks tell their bytes.
    ensures done { (n : ℕ) → result ≡ Outcome.Done n → PlayedPackets settings.now (map shape packets.items) n
        (O.taken sound.old) (O.taken sound.new) (R.taken replies.old) (R.taken replies.new) }
    // Every other outcome apart from `NoMemory` has its cause.
    ensures end { IsEnd settings.now (map shape packets.items) result }
    ensures sound { result ≡ Outcome.SoundFault → Rose (O.faults sound.old) (O.faults sound.new) }
    ensures reply { result ≡ Outcome.ReplyFault → Rose (R.faults replies.old) (R.faults replies.new) }
    // If no count rises, the outcome is the one that the packets have, or `NoMemory`.
    ensures complete { (outcome : Outcome) → HasEnd settings.now (map shape packets.items) outcome
        → (Rose (O.faults sound.old) (O.faults sound.new) → ⊥) → (Rose (R.faults replies.old) (R.faults replies.new) → ⊥) → (result ≡ outcome) ⊎ (result ≡ Outcome.NoMemory) }
    // Neither sink failed, unless its fault is the outcome.
    ensures sound_unfailed { (result ≡ Outcome.SoundFault) ⊎ (O.faults sound.new ≡ O.faults sound.old) }
    ensures replies_unfailed { (result ≡ Outcome.ReplyFault) ⊎ (R.faults replies.new ≡ R.faults replies.old) }
    // What each sink took at every other outcome: nothing, or a prefix of what the packets give.
    ensures written { WritesPackets settings.now (map shape packets.items) result (O.taken sound.old) (O.taken sound.new) (R.taken replies.old) (R.taken replies.new) }
{
    let Ok(mut engine) = Engine::open(alloc, settings, 0, None, 1) else {
        return Outcome::NoMemory;
    };
    played(
        rt,
        alloc,
        settings,
        packets,
        &mut engine,
        sound,
        replies,
        gate,
    )
}
