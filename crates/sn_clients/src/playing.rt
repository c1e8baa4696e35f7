//! What an engine of several clients plays, and how it is written to their sinks.
ghost use Rattle.std.specs.Prelude.{◌≡◌, ◌≤◌, ◌<◌, ◌+◌, ℕ, [], List, Option, Err, Some, None, false, length, replicate, slice_index_or, slice_set, IfErr, OnErr, OnOk};
ghost use Rattle.std.specs.Io.KnownBytes.{Appends};
ghost use Rattle.sn_ports.specs.Causes.{Rose};
ghost use Rattle.sn_ports.specs.Limits.{most_count, most_packet};
ghost use Rattle.sn_engine.specs.Running.{Running};
ghost use Rattle.sn_engine.specs.declared.standing.Standing.TheVariants.{Settled};
ghost use Rattle.sn_render.specs.Fronts.{TakesFront};
ghost use Rattle.sn_clients.specs.PlayMany.{arrived, ticks};
ghost use Rattle.sn_clients.specs.Written.{AllSend, IsGoing, Sends, emptied};
ghost use Rattle.sn_clients.specs.Looping.{Counted, PlaysTo, Ticked};
ghost use Rattle.sn_clients.specs.declared.playing.Halt.TheVariants as halts;

use crate::notes::Note;
use sn_engine::{Engine, Flow};
use sn_osc::{Undecoded, decode};
use sn_ports::{Failed, Gate, NoMemory, Sink};
use std::alloc::Global;
use std::thread::Threads;

/// Why a session ended before it was over.
#[derive(Clone, Copy, Debug, PartialEq, Eq)]
pub(crate) enum Halt {
    /// `/quit` was accepted.
    Quit,
    /// Memory ran out.
    NoMemory,
    /// The sink for the sound failed.
    SoundFault,
    /// As many turns were done as there may be.
    TurnsFull,
}

impl From<NoMemory> for Halt {
    ghost from_gives = { λ _ e. e ≡ halts.NoMemory };

    fn from(_: NoMemory) -> Self {
        Halt::NoMemory
    }
}

/// A sink that drops what it takes.
#[derive(Drop)]
struct Nowhere;

impl Sink for Nowhere {
    ghost taken = { λ _. None };

    ghost faults = { λ _. 0 };

    fn write(&mut self, piece: &[u8]) -> Result<usize, Failed> {
        Ok(piece.len())
    }
}

/// Sends a client what it is still to be sent. If its sink has failed before, that is dropped.
fn send_to<R: Sink>(engine: &mut Engine, client: u32, sink: &mut R, failed: &mut bool)
    requires client { client < length engine.old.running.replies }
    ensures sent { Sends failed.old failed.new (R.taken sink.old) (R.taken sink.new) (R.faults sink.old) (R.faults sink.new) (slice_index_or engine.old.running.replies client []) }
    ensures kept { engine.new.running ≡ record engine.old.running { replies = slice_set engine.old.running.replies client [] } }
{
    if *failed {
        let _dropped = engine.drain_replies(client, &mut Nowhere);
        return;
    }
    *failed = engine.drain_replies(client, sink).is_err();
}

/// Sends all clients what they are still to be sent.
pub(crate) fn send_all<R: Sink>(engine: &mut Engine, sinks: &mut [R], failed: &mut [bool])
    requires sinks { length sinks.old ≡ length engine.old.running.replies }
    requires flags { length failed.old ≡ length engine.old.running.replies }
    ensures sent { AllSend R.taken R.faults sinks.old sinks.new failed.old failed.new engine.old.running.replies }
    ensures kept { engine.new.running ≡ record engine.old.running { replies = replicate (length engine.old.running.replies) [] } }
{
    for client in 0..engine.clients() {
        let at = client as usize;
        send_to(engine, client, &mut sinks[at], &mut failed[at]);
    }
}

/// A client's packet arrives, or the client is told that its bytes are no packet.
pub(crate) fn arrive(alloc: Global, engine: &mut Engine, note: &Note) -> Result<(), NoMemory>
    requires settled { engine.old.running.standing ≡ Settled }
    requires block { engine.old.running.block < most_count }
    requires puts { engine.old.running.waiting.puts + most_packet ≤ most_count }
    ensures arrived { OnOk result (engine.new.running ≡ arrived note.now.client note.now.frame.bytes engine.old.running) }
    ensures puts { OnOk result (engine.new.running.waiting.puts ≤ engine.old.running.waiting.puts + most_packet) }
{
    match decode(alloc, note.frame.as_slice()) {
        Ok(packet) => {
            engine.offer(alloc, packet, note.client)?;
            Ok(())
        }
        Err(Undecoded::Bad(_)) => engine.refuse_packet(alloc, note.client),
        Err(Undecoded::NoMemory) => Err(NoMemory),
    }
}

/// Writes the sound that is still to be written. After a fault, a prefix of it was written.
fn write_sound<O: Sink>(engine: &mut Engine, sound: &mut O) -> Result<(), Halt>
    ensures written { OnOk result (Appends (O.taken sound.old) (O.taken sound.new) engine.old.running.sound) }
    ensures front { TakesFront (O.taken sound.old) (O.taken sound.new) engine.old.running.sound }
    ensures kept { engine.new.running ≡ record engine.old.running { sound = [] } }
    ensures only { IfErr result (λ halt. halt ≡ halts.SoundFault) }
    ensures cause { OnErr result (Rose (O.faults sound.old) (O.faults sound.new)) }
    ensures unfailed { OnOk result (O.faults sound.new ≡ O.faults sound.old) }
{
    match engine.drain_sound(sound) {
        Ok(()) => Ok(()),
        Err(_) => Err(Halt::SoundFault),
    }
}

/// A boundary and, unless `/quit` was accepted at it, its block. What comes of them is written.
fn tick<H: Threads + Sync, R: Sink, O: Sink, G: Gate>(
    rt: &H,
    alloc: Global,
    engine: &mut Engine,
    sinks: &mut [R],
    failed: &mut [bool],
    sound: &mut O,
    gate: &G,
) -> Result<(), Halt>
    requires settled { engine.old.running.standing ≡ Settled }
    requires block { engine.old.running.block < most_count }
    requires sinks { length sinks.old ≡ length engine.old.running.replies }
    requires flags { length failed.old ≡ length engine.old.running.replies }
    ensures ticked { Ticked R.taken R.faults sinks.old sinks.new failed.old failed.new (O.taken sound.old) (O.taken sound.new) engine.old.running engine.new.running result }
    ensures counted { Counted result (O.faults sound.old) (O.faults sound.new) }
{
    match engine.boundary(alloc)? {
        Flow::On => {
            engine.blocks(rt, 1, gate);
            engine.settle();
            write_sound(engine, sound)?;
            send_all(engine, sinks, failed);
            Ok(())
        }
        Flow::Quit => {
            send_all(engine, sinks, failed);
            Err(Halt::Quit)
        }
    }
}

/// `count` boundaries, each with its block unless `/quit` was accepted at it. What comes of them is written.
pub(crate) fn play_blocks<H: Threads + Sync, R: Sink, O: Sink, G: Gate>(
    rt: &H,
    alloc: Global,
    engine: &mut Engine,
    count: u32,
    sinks: &mut [R],
    failed: &mut [bool],
    sound: &mut O,
    gate: &G,
) -> Result<(), Halt>
    requires settled { engine.old.running.standing ≡ Settled }
    requires block { engine.old.running.block + count ≤ most_count }
    requires sinks { length sinks.old ≡ length engine.old.running.replies }
    requires flags { length failed.old ≡ length engine.old.running.replies }
    ensures played { (sinks_first : List R) (sound_first : Option (List ℕ)) (r : Running) → IsGoing R.taken R.faults sinks_first sinks.old failed.old sound_first (O.taken sound.old) r engine.old.running
        → PlaysTo R.taken R.faults sinks_first sinks.new failed.new sound_first (O.taken sound.new) (ticks count r) engine.new.running result }
    ensures settled { OnOk result (engine.new.running.standing ≡ Settled) }
    ensures block { OnOk result (engine.new.running.block ≡ engine.old.running.block + count) }
    ensures puts { OnOk result (engine.new.running.waiting.puts ≡ engine.old.running.waiting.puts) }
    ensures clients { OnOk result (length engine.new.running.replies ≡ length engine.old.running.replies) }
    ensures flags { length failed.new ≡ length failed.old }
    ensures sinks { length sinks.new ≡ length sinks.old }
    ensures only { result ≡ Err halts.TurnsFull → ⊥ }
    ensures counted { Counted result (O.faults sound.old) (O.faults sound.new) }
{
    for _ in 0..count {
        tick(rt, alloc, engine, sinks, failed, sound, gate)?;
    }
    Ok(())
}
