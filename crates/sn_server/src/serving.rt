//! One connection: what comes over it is taken, event by event, and what comes of it is written.
ghost use Rattle.std.specs.Prelude.{◌≡◌, ◌⊎◌, ◌≤◌, ◌<◌, ◌+◌, ℕ, List, Option, Some, IfErr, OnOk, Err, length};
ghost use Rattle.sn_ports.specs.Limits.{most_packet, most_count};
ghost use Rattle.sn_ports.specs.Causes.{Rose};
ghost use Rattle.sn_ports.specs.Links.{LinkEvent};
ghost use Rattle.sn_server.specs.PlayEvents.{Live, bytes_in, closing, play_events};
ghost use Rattle.sn_server.specs.Served.{GivesEnd, AtClose};
ghost use Rattle.sn_server.specs.Serving.{IsLive, IsOpened, IsReady, HasLeft, Took};
ghost use Rattle.sn_server.specs.declared.ended.Ended.{Ended};

use crate::ended::Ended;
use crate::receiving::receive;
use crate::ticking::{check_worn, ticks};
use sn_engine::Engine;
use sn_osc::Framer;
use sn_pcm::Settings;
use sn_ports::limits::{MOST_COUNT, MOST_ENTRIES, MOST_PACKET};
use sn_ports::{Fed, Gate, Link, Sink};
use sn_render::zeroed;
use std::alloc::Global;
use std::thread::Threads;

/// How many bytes are asked for at once: as many as the longest packet has.
const PIECE: usize = MOST_PACKET;

/// How a connection ends if nothing more comes over it.
fn closing(framer: &Framer) -> Ended
    ensures { result ≡ closing framer.now.kept }
{
    match framer.kept() {
        0 => Ended::Closed,
        kept => Ended::Cut { kept },
    }
}

/// Takes the next event, and does what it asks for.
fn take_event<H: Threads + Sync, L: Link, O: Sink, G: Gate>(
    rt: &H,
    alloc: Global,
    engine: &mut Engine,
    framer: &mut Framer,
    piece: &mut [u8],
    link: &mut L,
    sound: &mut O,
    gate: &G,
) -> Result<(), Ended>
    requires ready { IsReady engine.old.running framer.old }
    requires left { HasLeft engine.old.running framer.old }
    requires piece { 0 < length piece.old }
    requires few { length piece.old ≤ most_packet }
    ensures took { (v : Live) (sound_old sent_old : Option (List ℕ)) → IsLive sound_old (O.taken sound.old) sent_old (L.sent link.old) v engine.old.running framer.old
        → Took (L.left link.old) (L.left link.new) sound_old (O.taken sound.new) sent_old (L.sent link.new) v engine.new.running framer.new result }
    ensures ready { OnOk result (IsReady engine.new.running framer.new) }
    ensures more { OnOk result (engine.old.running.block + framer.old.fed < engine.new.running.block + framer.new.fed) }
    ensures later_block { OnOk result (engine.old.running.block ≤ engine.new.running.block) }
    ensures later_fed { OnOk result (framer.old.fed ≤ framer.new.fed) }
    ensures close { IfErr result (λ how. AtClose how (L.left link.old) (L.left link.new)) }
    ensures link { result ≡ Err Ended.LinkFault → Rose (L.faults link.old) (L.faults link.new) }
    ensures sound { result ≡ Err Ended.SoundFault → Rose (O.faults sound.old) (O.faults sound.new) }
    ensures link_later { L.faults link.old ≤ L.faults link.new }
    ensures sound_later { O.faults sound.old ≤ O.faults sound.new }
    ensures link_unfailed { (result ≡ Err Ended.LinkFault) ⊎ (L.faults link.new ≡ L.faults link.old) }
    ensures sound_unfailed { (result ≡ Err Ended.SoundFault) ⊎ (O.faults sound.new ≡ O.faults sound.old) }
{
    let most = (piece.len() as u64).min(MOST_COUNT - framer.fed()) as usize;
    let into = &mut piece[..most];
    match link.next(into) {
        Ok(Fed::Bytes(count)) => receive(alloc, engine, framer, &into[..count], link),
        Ok(Fed::Ticks(count)) => ticks(rt, alloc, engine, framer, count, link, sound, gate),
        Ok(Fed::End) => Err(closing(framer)),
        Err(_) => Err(Ended::LinkFault),
    }
}

/// Takes the next event, unless as many bytes came, or as many blocks were done, as may.
fn serve_event<H: Threads + Sync, L: Link, O: Sink, G: Gate>(
    rt: &H,
    alloc: Global,
    engine: &mut Engine,
    framer: &mut Framer,
    piece: &mut [u8],
    link: &mut L,
    sound: &mut O,
    gate: &G,
) -> Result<(), Ended>
    requires ready { IsReady engine.old.running framer.old }
    requires piece { 0 < length piece.old }
    requires few { length piece.old ≤ most_packet }
    ensures took { (v : Live) (sound_old sent_old : Option (List ℕ)) → IsLive sound_old (O.taken sound.old) sent_old (L.sent link.old) v engine.old.running framer.old
        → Took (L.left link.old) (L.left link.new) sound_old (O.taken sound.new) sent_old (L.sent link.new) v engine.new.running framer.new result }
    ensures ready { OnOk result (IsReady engine.new.running framer.new) }
    ensures left { OnOk result (HasLeft engine.old.running framer.old) }
    ensures more { OnOk result (engine.old.running.block + framer.old.fed < engine.new.running.block + framer.new.fed) }
    ensures later_block { OnOk result (engine.old.running.block ≤ engine.new.running.block) }
    ensures later_fed { OnOk result (framer.old.fed ≤ framer.new.fed) }
    ensures close { IfErr result (λ how. AtClose how (L.left link.old) (L.left link.new)) }
    ensures link { result ≡ Err Ended.LinkFault → Rose (L.faults link.old) (L.faults link.new) }
    ensures sound { result ≡ Err Ended.SoundFault → Rose (O.faults sound.old) (O.faults sound.new) }
    ensures link_later { L.faults link.old ≤ L.faults link.new }
    ensures sound_later { O.faults sound.old ≤ O.faults sound.new }
    ensures link_unfailed { (result ≡ Err Ended.LinkFault) ⊎ (L.faults link.new ≡ L.faults link.old) }
    ensures sound_unfailed { (result ≡ Err Ended.SoundFault) ⊎ (O.faults sound.new ≡ O.faults sound.old) }
{
    check_worn(engine, framer)?;
    take_event(rt, alloc, engine, framer, piece, link, sound, gate)
}

/// Takes event after event, until the connection ends. Nothing has arrived at `engine` yet.
fn take_events<H: Threads + Sync, L: Link, O: Sink, G: Gate>(
    rt: &H,
    alloc: Global,
    engine: &mut Engine,
    link: &mut L,
    sound: &mut O,
    gate: &G,
) -> Ended
    requires opened { IsOpened engine.old.running }
    ensures served { GivesEnd engine.old.running.settings engine.old.running.waiting.base (L.left link.old) (L.left link.new) (O.taken sound.old) (O.taken sound.new) (L.sent link.old) (L.sent link.new) result }
    ensures close { AtClose result (L.left link.old) (L.left link.new) }
    ensures link { result ≡ Ended.LinkFault → Rose (L.faults link.old) (L.faults link.new) }
    ensures sound { result ≡ Ended.SoundFault → Rose (O.faults sound.old) (O.faults sound.new) }
    ensures link_unfailed { (result ≡ Ended.LinkFault) ⊎ (L.faults link.new ≡ L.faults link.old) }
    ensures sound_unfailed { (result ≡ Ended.SoundFault) ⊎ (O.faults sound.new ≡ O.faults sound.old) }
{
    let Ok(mut piece) = zeroed(alloc, PIECE) else {
        return Ended::NoMemory;
    };
    let mut framer = Framer::new(alloc);
    loop {
        match serve_event(
            rt,
            alloc,
            engine,
            &mut framer,
            &mut piece,
            link,
            sound,
            gate,
        ) {
            Ok(()) => {}
            Err(how) => return how,
        }
    }
}

/// Opens an engine, and takes event after event, until the connection ends.
fn serve_events<H: Threads + Sync, L: Link, O: Sink, G: Gate>(
    rt: &H,
    alloc: Global,
    settings: &Settings,
    base: u64,
    link: &mut L,
    sound: &mut O,
    gate: &G,
) -> Ended
    ensures served { GivesEnd settings.now base (L.left link.old) (L.left link.new) (O.taken sound.old) (O.taken sound.new) (L.sent link.old) (L.sent link.new) result }
    ensures close { AtClose result (L.left link.old) (L.left link.new) }
    ensures link { result ≡ Ended.LinkFault → Rose (L.faults link.old) (L.faults link.new) }
    ensures sound { result ≡ Ended.SoundFault → Rose (O.faults sound.old) (O.faults sound.new) }
    ensures link_unfailed { (result ≡ Ended.LinkFault) ⊎ (L.faults link.new ≡ L.faults link.old) }
    ensures sound_unfailed { (result ≡ Ended.SoundFault) ⊎ (O.faults sound.new ≡ O.faults sound.old) }
{
    let Ok(mut engine) = Engine::open(alloc, settings, base, Some(MOST_ENTRIES), 1) else {
        return Ended::NoMemory;
    };
    take_events(rt, alloc, &mut engine, link, sound, gate)
}

/// Serves one connection until it ends, with block 0 at the time tag `base`.
///
/// If it ends without a fault and memory doesn't run out, all that its events give was written and sent. If a fault
/// cuts it short, or memory runs out, then each event that was taken, except the last, was answered whole, and a prefix
/// of what the last one gives was written and sent. A link may fail at any call. So what an event gives is written and
/// sent before the next one is asked for.
pub fn serve_one<H: Threads + Sync, L: Link, O: Sink, G: Gate>(
    rt: &H,
    alloc: Global,
    settings: &Settings,
    base: u64,
    link: &mut L,
    sound: &mut O,
    gate: &G,
) -> Ended
    // What was taken gives this end, and what it gives was written; or the connection was cut short in its last event.
    // Each of this is said if it is known of the objects.
    ensures served { GivesEnd settings.now base (L.left link.old) (L.left link.new) (O.taken sound.old) (O.taken sound.new) (L.sent link.old) (L.sent link.new) result }
    // No event is left if nothing more comes.
    ensures close { AtClose result (L.left link.old) (L.left link.new) }
    // A fault has its cause.
    ensures link { result ≡ Ended.LinkFault → Rose (L.faults link.old) (L.faults link.new) }
    ensures sound { result ≡ Ended.SoundFault → Rose (O.faults sound.old) (O.faults sound.new) }
    // Neither failed, unless its fault is the answer.
    ensures link_unfailed { (result ≡ Ended.LinkFault) ⊎ (L.faults link.new ≡ L.faults link.old) }
    ensures sound_unfailed { (result ≡ Ended.SoundFault) ⊎ (O.faults sound.new ≡ O.faults sound.old) }
    // If no count rises, the answer is the end that all events give, or `NoMemory`.
    ensures complete { (events : List LinkEvent) → L.left link.old ≡ Some events → bytes_in events < most_count → (Rose (L.faults link.old) (L.faults link.new) → ⊥)
        → (Rose (O.faults sound.old) (O.faults sound.new) → ⊥) → (result ≡ (play_events settings.now base events).ending) ⊎ (result ≡ Ended.NoMemory) }
{
    serve_events(rt, alloc, settings, base, link, sound, gate)
}
