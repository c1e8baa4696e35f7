//! Blocks of a connection: boundaries, each with its block unless the server ends at it.
ghost use Rattle.std.specs.Prelude.{◌≡◌, ◌⊎◌, ◌≤◌, ◌<◌, ◌+◌, [], List, ℕ, Option, IfErr, OnOk, Err, length};
ghost use Rattle.std.specs.Io.KnownBytes.{Appends};
ghost use Rattle.sn_ports.specs.Limits.{most_count};
ghost use Rattle.sn_ports.specs.Causes.{Rose};
ghost use Rattle.sn_ports.specs.Links.{KeepsEvents};
ghost use Rattle.sn_engine.specs.Running.{Running, at_boundary, flow_at};
ghost use Rattle.sn_engine.specs.declared.standing.Flow.TheVariants.{On};
ghost use Rattle.sn_engine.specs.declared.standing.Standing.TheVariants.{Settled, Bounded};
ghost use Rattle.sn_render.specs.Fronts.{TakesFront};
ghost use Rattle.sn_server.specs.PlayEvents.{Live, tick};
ghost use Rattle.sn_server.specs.Serving.{IsLive, Follows, IsReady, IsRowOn, StaysOpen, IsTickEnd, IsTicked, IsTickPart, HasQuit, IsWornOut, HasLeft};
ghost use Rattle.sn_server.specs.declared.ended.Ended.{Ended};

use crate::ended::Ended;
use crate::receiving::send_replies;
use sn_engine::{Engine, Flow};
use sn_osc::Framer;
use sn_ports::limits::MOST_COUNT;
use sn_ports::{Gate, Link, Sink};
use std::alloc::Global;
use std::thread::Threads;

/// Writes the sound that is still to be written. After a fault a prefix of it was written.
fn write_sound<O: Sink>(engine: &mut Engine, sound: &mut O) -> Result<(), Ended>
    ensures written { OnOk result (Appends (O.taken sound.old) (O.taken sound.new) engine.old.running.sound) }
    ensures front { TakesFront (O.taken sound.old) (O.taken sound.new) engine.old.running.sound }
    ensures kept { engine.new.running ≡ record engine.old.running { sound = [] } }
    ensures only { IfErr result (λ how. how ≡ Ended.SoundFault) }
    ensures cause { result ≡ Err Ended.SoundFault → Rose (O.faults sound.old) (O.faults sound.new) }
    ensures later { O.faults sound.old ≤ O.faults sound.new }
    ensures unfailed { OnOk result (O.faults sound.new ≡ O.faults sound.old) }
{
    match engine.drain_sound(sound) {
        Ok(()) => Ok(()),
        Err(_) => Err(Ended::SoundFault),
    }
}

/// The blocks that may follow a boundary in a row, and their settling.
fn play_row<H: Threads + Sync, G: Gate>(rt: &H, engine: &mut Engine, most: u32, gate: &G)
    requires some { 1 ≤ most }
    requires bounded { engine.old.running.standing ≡ Bounded }
    requires block { engine.old.running.block + most ≤ most_count }
    ensures { (r : Running) → engine.old.running ≡ at_boundary r → flow_at r ≡ On → IsRowOn most r engine.new.running }
{
    engine.rows_are_turns();
    engine.rows_go_on();
    let count = engine.span(most);
    engine.blocks(rt, count, gate);
    engine.settle();
}

/// A boundary and, unless `/quit` was accepted at it, the blocks that may follow it in a row, at most `most`. What
/// comes of them is written.
fn tick<H: Threads + Sync, L: Link, O: Sink, G: Gate>(
    rt: &H,
    alloc: Global,
    engine: &mut Engine,
    most: u32,
    link: &mut L,
    sound: &mut O,
    gate: &G,
) -> Result<(), Ended>
    requires some { 1 ≤ most }
    requires settled { engine.old.running.standing ≡ Settled }
    requires alone { length engine.old.running.replies ≡ 1 }
    requires block { engine.old.running.block + most ≤ most_count }
    ensures block { OnOk result (IsTicked most (O.taken sound.old) (O.taken sound.new) (L.sent link.old) (L.sent link.new) engine.old.running engine.new.running) }
    ensures quit { result ≡ Err Ended.Quit → HasQuit (O.taken sound.old) (O.taken sound.new) (L.sent link.old) (L.sent link.new) engine.old.running }
    ensures part { IsTickPart most (O.taken sound.old) (O.taken sound.new) (L.sent link.old) (L.sent link.new) engine.old.running }
    ensures only { IfErr result IsTickEnd }
    ensures events { KeepsEvents (L.left link.old) (L.left link.new) }
    ensures link { result ≡ Err Ended.LinkFault → Rose (L.faults link.old) (L.faults link.new) }
    ensures sound { result ≡ Err Ended.SoundFault → Rose (O.faults sound.old) (O.faults sound.new) }
    ensures link_later { L.faults link.old ≤ L.faults link.new }
    ensures sound_later { O.faults sound.old ≤ O.faults sound.new }
    ensures link_unfailed { (result ≡ Err Ended.LinkFault) ⊎ (L.faults link.new ≡ L.faults link.old) }
    ensures sound_unfailed { (result ≡ Err Ended.SoundFault) ⊎ (O.faults sound.new ≡ O.faults sound.old) }
{
    engine.want(most);
    match engine.boundary(alloc)? {
        Flow::On => {
            play_row(rt, engine, most, gate);
            write_sound(engine, sound)?;
            send_replies(engine, link)
        }
        Flow::Quit => {
            send_replies(engine, link)?;
            Err(Ended::Quit)
        }
    }
}

/// Refuses to go on if as many bytes came, or as many blocks were done, as may.
pub fn check_worn(engine: &Engine, framer: &Framer) -> Result<(), Ended>
    ensures ok { OnOk result (HasLeft engine.now.running framer.now) }
    ensures worn { IfErr result (IsWornOut engine.now.running framer.now) }
{
    let bytes = framer.fed();
    let blocks = engine.block();
    if bytes >= MOST_COUNT || blocks >= MOST_COUNT {
        return Err(Ended::Worn { bytes, blocks });
    }
    Ok(())
}

/// `count` boundaries, each with its block unless `/quit` was accepted at it. Blocks that may come in a row are
/// rendered in a row.
pub fn ticks<H: Threads + Sync, L: Link, O: Sink, G: Gate>(
    rt: &H,
    alloc: Global,
    engine: &mut Engine,
    framer: &Framer,
    count: u32,
    link: &mut L,
    sound: &mut O,
    gate: &G,
) -> Result<(), Ended>
    requires ready { IsReady engine.old.running framer.now }
    ensures follows { (v : Live) (sound_old sent_old : Option (List ℕ)) → IsLive sound_old (O.taken sound.old) sent_old (L.sent link.old) v engine.old.running framer.now
        → Follows sound_old (O.taken sound.new) sent_old (L.sent link.new) v (tick count v) engine.new.running framer.now result }
    ensures ready { OnOk result (IsReady engine.new.running framer.now) }
    ensures block { OnOk result (engine.new.running.block ≡ engine.old.running.block + count) }
    ensures open { IfErr result StaysOpen }
    ensures events { KeepsEvents (L.left link.old) (L.left link.new) }
    ensures link { result ≡ Err Ended.LinkFault → Rose (L.faults link.old) (L.faults link.new) }
    ensures sound { result ≡ Err Ended.SoundFault → Rose (O.faults sound.old) (O.faults sound.new) }
    ensures link_later { L.faults link.old ≤ L.faults link.new }
    ensures sound_later { O.faults sound.old ≤ O.faults sound.new }
    ensures link_unfailed { (result ≡ Err Ended.LinkFault) ⊎ (L.faults link.new ≡ L.faults link.old) }
    ensures sound_unfailed { (result ≡ Err Ended.SoundFault) ⊎ (O.faults sound.new ≡ O.faults sound.old) }
{
    let first = engine.block();
    let mut done = 0;
    while done < count {
        check_worn(engine, framer)?;
        let most = u64::from(count - done).min(MOST_COUNT - engine.block()) as u32;
        tick(rt, alloc, engine, most, link, sound, gate)?;
        done = (engine.block() - first) as u32;
    }
    Ok(())
}
