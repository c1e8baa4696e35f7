//! Bytes that come over a connection: whole frames are taken out of them, and what these make is sent.
ghost use Rattle.std.specs.Prelude.{◌≡◌, ◌⊎◌, ◌≤◌, ◌<◌, ◌+◌, ◌∷◌, [], List, ℕ, Option, IfOk, IfErr, OnOk, Err, length};
ghost use Rattle.std.specs.Io.KnownBytes.{Appends};
ghost use Rattle.sn_ports.specs.Limits.{most_count, most_packet};
ghost use Rattle.sn_ports.specs.Causes.{Rose};
ghost use Rattle.sn_ports.specs.Links.{KeepsEvents};
ghost use Rattle.sn_osc.specs.Frames.{first_frame};
ghost use Rattle.sn_osc.specs.Reading.{read};
ghost use Rattle.sn_osc.specs.Unpacking.{unpacked};
ghost use Rattle.sn_engine.specs.declared.standing.Standing.TheVariants.{Settled};
ghost use Rattle.sn_render.specs.Fronts.{TakesFront};
ghost use Rattle.sn_render.specs.Play.{to_first};
ghost use Rattle.sn_server.specs.PlayEvents.{Live, receive, with_packet, with_packets};
ghost use Rattle.sn_server.specs.Serving.{IsLive, Follows, IsReady, Stops, StaysOpen};
ghost use Rattle.sn_server.specs.declared.ended.Ended.{Ended};

use crate::ended::Ended;
use sn_engine::Engine;
use sn_osc::{Framer, Undecoded, Unframed, decode};
use sn_ports::{Link, NoMemory};
use std::alloc::Global;

/// Offers the packet that the bytes spell, or answers that they spell none.
fn take_packet(alloc: Global, engine: &mut Engine, bytes: &[u8]) -> Result<(), NoMemory>
    requires settled { engine.old.running.standing ≡ Settled }
    requires block { engine.old.running.block < most_count }
    requires puts { engine.old.running.waiting.puts + length bytes.now ≤ most_count }
    requires size { 4 ≤ length bytes.now }
    ensures packet { OnOk result (engine.new.running ≡ with_packet (read bytes.now) engine.old.running) }
    ensures puts { OnOk result (engine.new.running.waiting.puts ≤ engine.old.running.waiting.puts + length bytes.now) }
{
    match decode(alloc, bytes) {
        Ok(packet) => {
            engine.offer(alloc, packet, 0)?;
            Ok(())
        }
        Err(Undecoded::Bad(_)) => engine.refuse_packet(alloc, 0),
        Err(Undecoded::NoMemory) => Err(NoMemory),
    }
}

/// Takes every whole frame that is kept. Returns the end at the bad size that follows them, if there is one.
fn take_packets(
    alloc: Global,
    engine: &mut Engine,
    framer: &mut Framer,
) -> Result<Option<Ended>, NoMemory>
    requires settled { engine.old.running.standing ≡ Settled }
    requires block { engine.old.running.block < most_count }
    requires puts { engine.old.running.waiting.puts + length framer.old.kept ≤ most_count }
    ensures engine { OnOk result (engine.new.running ≡ with_packets (unpacked framer.old.kept).packets engine.old.running) }
    ensures framer { OnOk result (framer.new ≡ record framer.old { kept = (unpacked framer.old.kept).rest }) }
    ensures stops { IfOk result (λ bad. Stops (first_frame framer.new.kept) bad) }
    ensures puts { OnOk result (engine.new.running.waiting.puts + length framer.new.kept ≤ engine.old.running.waiting.puts + length framer.old.kept) }
{
    loop {
        match framer.next() {
            Ok(Some(frame)) => take_packet(alloc, engine, frame.bytes.as_slice())?,
            Ok(None) => return Ok(None),
            Err(Unframed::Bad { size, .. }) => return Ok(Some(Ended::BadFrame { size })),
            Err(Unframed::NoMemory) => return Err(NoMemory),
        }
    }
}

/// Sends the replies that are still to be sent. After a fault a prefix of them was sent.
pub fn send_replies<L: Link>(engine: &mut Engine, link: &mut L) -> Result<(), Ended>
    requires alone { length engine.old.running.replies ≡ 1 }
    ensures sent { OnOk result (Appends (L.sent link.old) (L.sent link.new) (to_first engine.old.running.replies)) }
    ensures front { TakesFront (L.sent link.old) (L.sent link.new) (to_first engine.old.running.replies) }
    ensures kept { engine.new.running ≡ record engine.old.running { replies = [] ∷ [] } }
    ensures only { IfErr result (λ how. how ≡ Ended.LinkFault) }
    ensures cause { result ≡ Err Ended.LinkFault → Rose (L.faults link.old) (L.faults link.new) }
    ensures later { L.faults link.old ≤ L.faults link.new }
    ensures unfailed { OnOk result (L.faults link.new ≡ L.faults link.old) }
    ensures events { KeepsEvents (L.left link.old) (L.left link.new) }
{
    match engine.send_replies(0, link) {
        Ok(()) => Ok(()),
        Err(_) => Err(Ended::LinkFault),
    }
}

/// Takes bytes that came: whole frames are offered, and what they made is sent.
pub fn receive<L: Link>(
    alloc: Global,
    engine: &mut Engine,
    framer: &mut Framer,
    piece: &[u8],
    link: &mut L,
) -> Result<(), Ended>
    requires ready { IsReady engine.old.running framer.old }
    requires block { engine.old.running.block < most_count }
    requires fed { framer.old.fed + length piece.now ≤ most_count }
    requires new { framer.old.fed < most_count }
    requires few { length piece.now ≤ most_packet }
    ensures follows { (v : Live) (sound_old sound_new sent_old : Option (List ℕ)) → IsLive sound_old sound_new sent_old (L.sent link.old) v engine.old.running framer.old
        → Follows sound_old sound_new sent_old (L.sent link.new) v (receive piece.now v) engine.new.running framer.new result }
    ensures ready { OnOk result (IsReady engine.new.running framer.new) }
    ensures fed { OnOk result (framer.new.fed ≡ framer.old.fed + length piece.now) }
    ensures block { OnOk result (engine.new.running.block ≡ engine.old.running.block) }
    ensures events { KeepsEvents (L.left link.old) (L.left link.new) }
    ensures open { IfErr result StaysOpen }
    ensures sound { result ≡ Err Ended.SoundFault → ⊥ }
    ensures cause { result ≡ Err Ended.LinkFault → Rose (L.faults link.old) (L.faults link.new) }
    ensures later { L.faults link.old ≤ L.faults link.new }
    ensures unfailed { (result ≡ Err Ended.LinkFault) ⊎ (L.faults link.new ≡ L.faults link.old) }
{
    framer.feed(piece)?;
    let bad = take_packets(alloc, engine, framer)?;
    send_replies(engine, link)?;
    match bad {
        Some(how) => Err(how),
        None => Ok(()),
    }
}
