ghost use Rattle.std.specs.Prelude.{◌≡◌, ◌<◌, ◌≤◌, ◌+◌, length, OnErr, OnOk};
ghost use Rattle.sn_ports.specs.Limits.{most_count};
ghost use Rattle.sn_ports.specs.Causes.{Rose};
ghost use Rattle.sn_render.specs.Fronts.{TakesFront, TakeFronts, TakeBoth};
ghost use Rattle.sn_render.specs.Going.{IsAtBoundary, IsWritten};
ghost use Rattle.sn_render.specs.Play.{to_end, to_first};
ghost use Rattle.sn_render.specs.Rows.{IsRow, IsRowCut, IsRowWritten};
ghost use Rattle.sn_engine.specs.Running.{at_boundary};
ghost use Rattle.sn_render.specs.Faults.{NoneElseFailed};
ghost use Rattle.sn_engine.specs.declared.standing.Standing.TheVariants.{Settled};
ghost use Rattle.sn_render.specs.declared.rendering.Stop.TheVariants as stops;

use sn_engine::Engine;
use sn_ports::limits::MOST_SPAN;
use sn_ports::{Gate, NoMemory, Sink};
use std::alloc::{AllocError, Global};
use std::thread::Threads;

/// How many bytes are gathered before they are written.
const PIECE: usize = 16384;

/// How many blocks are asked for in a row, at most: those of a span.
const SPAN: u64 = MOST_SPAN as u64;

/// Why a run stopped before its end.
#[derive(Clone, Copy, Debug, PartialEq, Eq)]
pub enum Stop {
    NoMemory,
    SoundFault,
    ReplyFault,
}

impl From<AllocError> for Stop {
    ghost from_gives = { λ _ e. e ≡ stops.NoMemory };

    fn from(_: AllocError) -> Self {
        Stop::NoMemory
    }
}

impl From<NoMemory> for Stop {
    ghost from_gives = { λ _ e. e ≡ stops.NoMemory };

    fn from(_: NoMemory) -> Self {
        Stop::NoMemory
    }
}

/// Writes the sound that was gathered, if it has at least `least` bytes.
fn write_sound<O: Sink>(engine: &mut Engine, least: usize, sink: &mut O) -> Result<(), Stop>
    ensures written { OnOk result (IsWritten engine.old.running.sound engine.new.running.sound (O.taken sink.old) (O.taken sink.new)) }
    ensures front { OnErr result (TakesFront (O.taken sink.old) (O.taken sink.new) engine.old.running.sound) }
    ensures kept { OnOk result (engine.new.running ≡ record engine.old.running { sound = engine.new.running.sound }) }
    ensures memory { result ≡ Err Stop.NoMemory → ⊥ }
    ensures reply { result ≡ Err Stop.ReplyFault → ⊥ }
    ensures cause { result ≡ Err Stop.SoundFault → Rose (O.faults sink.old) (O.faults sink.new) }
    ensures later { O.faults sink.old ≤ O.faults sink.new }
    ensures unfailed { OnOk result (O.faults sink.new ≡ O.faults sink.old) }
{
    if engine.sound_len() < least {
        return Ok(());
    }
    match engine.drain_sound(sink) {
        Ok(()) => Ok(()),
        Err(_) => Err(Stop::SoundFault),
    }
}

/// Writes the replies that were gathered, if they have at least `least` bytes.
fn write_replies<R: Sink>(engine: &mut Engine, least: usize, sink: &mut R) -> Result<(), Stop>
    requires alone { length engine.old.running.replies ≡ 1 }
    ensures written { OnOk result (IsWritten (to_first engine.old.running.replies) (to_first engine.new.running.replies) (R.taken sink.old) (R.taken sink.new)) }
    ensures front { OnErr result (TakesFront (R.taken sink.old) (R.taken sink.new) (to_first engine.old.running.replies)) }
    ensures alone { length engine.new.running.replies ≡ 1 }
    ensures kept { OnOk result (engine.new.running ≡ record engine.old.running { replies = engine.new.running.replies }) }
    ensures memory { result ≡ Err Stop.NoMemory → ⊥ }
    ensures sound { result ≡ Err Stop.SoundFault → ⊥ }
    ensures cause { result ≡ Err Stop.ReplyFault → Rose (R.faults sink.old) (R.faults sink.new) }
    ensures later { R.faults sink.old ≤ R.faults sink.new }
    ensures unfailed { OnOk result (R.faults sink.new ≡ R.faults sink.old) }
{
    if engine.replies_len(0) < least {
        return Ok(());
    }
    match engine.drain_replies(0, sink) {
        Ok(()) => Ok(()),
        Err(_) => Err(Stop::ReplyFault),
    }
}

/// A boundary, the blocks that may follow in a row, and their settling.
fn play_row<H: Threads + Sync, G: Gate>(
    rt: &H,
    alloc: Global,
    most: u32,
    engine: &mut Engine,
    gate: &G,
) -> Result<(), NoMemory>
    requires most { 1 ≤ most }
    requires block { engine.old.running.block + most ≤ most_count }
    requires settled { engine.old.running.standing ≡ Settled }
    ensures { OnOk result (IsRow most engine.old.running engine.new.running) }
{
    engine.want(most);
    engine.boundary(alloc)?;
    engine.rows_are_turns();
    let count = engine.span(most);
    engine.blocks(rt, count, gate);
    engine.settle();
    Ok(())
}

/// A row of blocks, and what of the bytes is enough for a piece.
fn render_row<H: Threads + Sync, O: Sink, R: Sink, G: Gate>(
    rt: &H,
    alloc: Global,
    most: u32,
    engine: &mut Engine,
    sound: &mut O,
    replies: &mut R,
    gate: &G,
) -> Result<(), Stop>
    requires most { 1 ≤ most }
    requires block { engine.old.running.block + most ≤ most_count }
    requires settled { engine.old.running.standing ≡ Settled }
    requires alone { length engine.old.running.replies ≡ 1 }
    ensures row { OnOk result (IsRowWritten most (O.taken sound.old) (O.taken sound.new) (R.taken replies.old) (R.taken replies.new) engine.old.running engine.new.running) }
    ensures fronts { OnErr result (IsRowCut most (O.taken sound.old) (O.taken sound.new) (R.taken replies.old) (R.taken replies.new) engine.old.running) }
    ensures sound { result ≡ Err Stop.SoundFault → Rose (O.faults sound.old) (O.faults sound.new) }
    ensures reply { result ≡ Err Stop.ReplyFault → Rose (R.faults replies.old) (R.faults replies.new) }
    ensures sound_later { O.faults sound.old ≤ O.faults sound.new }
    ensures reply_later { R.faults replies.old ≤ R.faults replies.new }
    ensures unfailed { NoneElseFailed result (O.faults sound.old) (O.faults sound.new) (R.faults replies.old) (R.faults replies.new) }
{
    play_row(rt, alloc, most, engine, gate)?;
    write_sound(engine, PIECE, sound)?;
    write_replies(engine, PIECE, replies)?;
    Ok(())
}

/// The boundary after the last block, and all bytes that are still to be written.
fn render_end<O: Sink, R: Sink>(
    alloc: Global,
    engine: &mut Engine,
    sound: &mut O,
    replies: &mut R,
) -> Result<(), Stop>
    requires settled { engine.old.running.standing ≡ Settled }
    requires alone { length engine.old.running.replies ≡ 1 }
    ensures end { OnOk result (TakeBoth (O.taken sound.old) (O.taken sound.new) (R.taken replies.old) (R.taken replies.new) (at_boundary engine.old.running).sound (to_first (at_boundary engine.old.running).replies)) }
    ensures fronts { OnErr result (TakeFronts (O.taken sound.old) (O.taken sound.new) (R.taken replies.old) (R.taken replies.new) (at_boundary engine.old.running).sound (to_first (at_boundary engine.old.running).replies)) }
    ensures world { OnOk result (engine.new.running.world ≡ (at_boundary engine.old.running).world) }
    ensures sound { result ≡ Err Stop.SoundFault → Rose (O.faults sound.old) (O.faults sound.new) }
    ensures reply { result ≡ Err Stop.ReplyFault → Rose (R.faults replies.old) (R.faults replies.new) }
    ensures sound_later { O.faults sound.old ≤ O.faults sound.new }
    ensures reply_later { R.faults replies.old ≤ R.faults replies.new }
    ensures unfailed { NoneElseFailed result (O.faults sound.old) (O.faults sound.new) (R.faults replies.old) (R.faults replies.new) }
{
    engine.boundary(alloc)?;
    match engine.drain_sound(sound) {
        Ok(()) => {}
        Err(_) => return Err(Stop::SoundFault),
    }
    match engine.drain_replies(0, replies) {
        Ok(()) => Ok(()),
        Err(_) => Err(Stop::ReplyFault),
    }
}

/// Renders so many blocks, and the boundary after the last one.
pub fn render_blocks<H: Threads + Sync, O: Sink, R: Sink, G: Gate>(
    rt: &H,
    alloc: Global,
    blocks: u64,
    engine: &mut Engine,
    sound: &mut O,
    replies: &mut R,
    gate: &G,
) -> Result<(), Stop>
    requires begun { engine.old.running.block ≡ 0 }
    requires stands { IsAtBoundary engine.old.running }
    requires blocks { blocks < most_count }
    ensures ended { OnOk result (TakeBoth (O.taken sound.old) (O.taken sound.new) (R.taken replies.old) (R.taken replies.new) (to_end blocks engine.old.running).sound (to_first (to_end blocks engine.old.running).replies)) }
    ensures fronts { OnErr result (TakeFronts (O.taken sound.old) (O.taken sound.new) (R.taken replies.old) (R.taken replies.new) (to_end blocks engine.old.running).sound (to_first (to_end blocks engine.old.running).replies)) }
    ensures world { OnOk result (engine.new.running.world ≡ (to_end blocks engine.old.running).world) }
    ensures sound { result ≡ Err Stop.SoundFault → Rose (O.faults sound.old) (O.faults sound.new) }
    ensures reply { result ≡ Err Stop.ReplyFault → Rose (R.faults replies.old) (R.faults replies.new) }
    ensures unfailed { NoneElseFailed result (O.faults sound.old) (O.faults sound.new) (R.faults replies.old) (R.faults replies.new) }
{
    let mut done = 0;
    while done < blocks {
        let most = (blocks - done).min(SPAN) as u32;
        render_row(rt, alloc, most, engine, sound, replies, gate)?;
        done = engine.block();
    }
    render_end(alloc, engine, sound, replies)
}
