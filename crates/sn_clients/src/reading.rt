//! Each client's reader: it cuts its source into frames, and puts each of them.
ghost use Rattle.std.specs.Prelude.{◌≡◌, ◌⊎◌, ◌≤◌, ◌<◌, ◌+◌, ◌^◌, [], ℕ, List, Option, true, length, IfErr, OnErr, OnOk};
ghost use Rattle.sn_ports.specs.Limits.{most_packet};
ghost use Rattle.sn_ports.specs.Causes.{Rose};
ghost use Rattle.sn_osc.specs.Frames.{cut, first_frame};
ghost use Rattle.sn_clients.specs.Ends.{with_frame};
ghost use Rattle.sn_clients.specs.Answers.{IsInletOf, has_found, sender_of};
ghost use Rattle.sn_clients.specs.Reading.{HasRead, IsClosing, IsReading, ReadsOn};
ghost use Rattle.sn_clients.specs.declared.clients.ClientEnd.TheVariants as client_ends;

use crate::clients::ClientEnd;
use crate::seats::{Inlet, Relay};
use sn_osc::{Framer, Unframed};
use sn_ports::limits::{MOST_COUNT, MOST_PACKET};
use sn_ports::{Source, Text};
use sn_render::zeroed;
use std::alloc::Global;
use std::sync::Wait;
use std::thread;

/// How many bytes are asked for at once.
const PIECE: usize = MOST_PACKET;

/// As many frames are put as there may be.
const MOST_FRAMES: u32 = u32::MAX;

/// Puts a frame, again and again while the relay is full. It gives up only if the stop word is set.
fn put_frame<H: Wait>(
    rt: &H,
    relay: &Relay,
    inlet: &mut Inlet,
    frame: Text,
) -> Result<(), ClientEnd>
    requires inlet { IsInletOf relay.now inlet.old }
    requires few { length (sender_of inlet.old).frames + 1 < 2 ^ 32 }
    ensures inlet { IsInletOf relay.now inlet.new }
    ensures put { OnOk result (sender_of inlet.new ≡ with_frame (sender_of inlet.old) frame.bytes) }
    ensures same { OnErr result (sender_of inlet.new ≡ sender_of inlet.old) }
    ensures stopped { IfErr result (λ end. (end ≡ client_ends.Stopped) × (has_found inlet.new ≡ true)) }
{
    let mut frame = frame;
    for _ in rt.forever() {
        match relay.put(rt, inlet, frame) {
            Ok(()) => return Ok(()),
            Err(full) => frame = full.frame,
        }
        if relay.stopped(inlet) {
            return Err(ClientEnd::Stopped);
        }
        thread::yield_now();
    }
    unreachable!()
}

/// Puts each whole frame that is kept.
fn put_frames<H: Wait>(
    rt: &H,
    relay: &Relay,
    inlet: &mut Inlet,
    framer: &mut Framer,
) -> Result<(), ClientEnd>
    requires inlet { IsInletOf relay.now inlet.old }
    ensures inlet { IsInletOf relay.now inlet.new }
    ensures client { (sender_of inlet.new).client ≡ (sender_of inlet.old).client }
    ensures read { (first left : Option (List ℕ)) → IsReading first left (sender_of inlet.old).frames framer.old
        → ReadsOn first left ⊥ (has_found inlet.new ≡ true) (sender_of inlet.new).frames framer.new result }
    ensures whole { OnOk result (first_frame framer.new.kept ≡ cut) }
{
    loop {
        if inlet.count() == MOST_FRAMES {
            return Err(ClientEnd::Worn);
        }
        match framer.next() {
            Ok(Some(frame)) => put_frame(rt, relay, inlet, frame.bytes)?,
            Ok(None) => return Ok(()),
            Err(Unframed::Bad { size, .. }) => return Err(ClientEnd::BadFrame { size }),
            Err(Unframed::NoMemory) => return Err(ClientEnd::NoMemory),
        }
    }
}

/// How a stream ends of which nothing more comes.
fn closing(framer: &Framer) -> ClientEnd
    ensures { IsClosing framer.now.kept result }
{
    match framer.kept() {
        0 => ClientEnd::Closed,
        kept => ClientEnd::Cut { kept },
    }
}

/// Reads a piece of the source.
fn read_piece<S: Source>(
    framer: &mut Framer,
    source: &mut S,
    piece: &mut [u8],
) -> Result<(), ClientEnd>
    requires cut { first_frame framer.old.kept ≡ cut }
    requires piece { (0 < length piece.old) × (length piece.old ≤ most_packet) }
    ensures read { (first : Option (List ℕ)) (packets : List (List ℕ)) → IsReading first (S.left source.old) packets framer.old
        → ReadsOn first (S.left source.new) (Rose (S.faults source.old) (S.faults source.new)) ⊥ packets framer.new result }
    ensures unfailed { OnOk result (S.faults source.new ≡ S.faults source.old) }
    ensures only { IfErr result (λ end. (end ≡ client_ends.ReadFault) ⊎ (S.faults source.new ≡ S.faults source.old)) }
    ensures later { S.faults source.old ≤ S.faults source.new }
{
    if framer.fed() >= MOST_COUNT {
        return Err(ClientEnd::Worn);
    }
    let most = (piece.len() as u64).min(MOST_COUNT - framer.fed()) as usize;
    let into = &mut piece[..most];
    match source.read(into) {
        Ok(0) => Err(closing(framer)),
        Ok(count) => {
            framer.feed(&into[..count])?;
            Ok(())
        }
        Err(_) => Err(ClientEnd::ReadFault),
    }
}

/// Reads a piece of the source, and puts each frame that is then whole.
fn read_on<H: Wait, S: Source>(
    rt: &H,
    relay: &Relay,
    inlet: &mut Inlet,
    framer: &mut Framer,
    source: &mut S,
    piece: &mut [u8],
) -> Result<(), ClientEnd>
    requires inlet { IsInletOf relay.now inlet.old }
    requires cut { first_frame framer.old.kept ≡ cut }
    requires piece { (0 < length piece.old) × (length piece.old ≤ most_packet) }
    ensures inlet { IsInletOf relay.now inlet.new }
    ensures client { (sender_of inlet.new).client ≡ (sender_of inlet.old).client }
    ensures read { (first : Option (List ℕ)) → IsReading first (S.left source.old) (sender_of inlet.old).frames framer.old
        → ReadsOn first (S.left source.new) (Rose (S.faults source.old) (S.faults source.new)) (has_found inlet.new ≡ true) (sender_of inlet.new).frames framer.new result }
    ensures whole { OnOk result (first_frame framer.new.kept ≡ cut) }
    ensures unfailed { OnOk result (S.faults source.new ≡ S.faults source.old) }
    ensures only { IfErr result (λ end. (end ≡ client_ends.ReadFault) ⊎ (S.faults source.new ≡ S.faults source.old)) }
    ensures later { S.faults source.old ≤ S.faults source.new }
{
    if relay.stopped(inlet) {
        return Err(ClientEnd::Stopped);
    }
    read_piece(framer, source, piece)?;
    put_frames(rt, relay, inlet, framer)
}

/// Reads a source to its end, or until the stop word is set, by a framer that was fed nothing.
fn read_through<H: Wait, S: Source>(
    rt: &H,
    relay: &Relay,
    inlet: &mut Inlet,
    framer: &mut Framer,
    source: &mut S,
    piece: &mut [u8],
) -> ClientEnd
    requires inlet { IsInletOf relay.now inlet.old }
    requires nothing { (sender_of inlet.old).frames ≡ [] }
    requires unfed { framer.old ≡ record { kept = []; fed = 0 } }
    requires piece { (0 < length piece.old) × (length piece.old ≤ most_packet) }
    ensures inlet { IsInletOf relay.now inlet.new }
    ensures client { (sender_of inlet.new).client ≡ (sender_of inlet.old).client }
    ensures read { HasRead (S.left source.old) (S.left source.new) (Rose (S.faults source.old) (S.faults source.new)) (has_found inlet.new ≡ true) (sender_of inlet.new).frames result }
    ensures later { S.faults source.old ≤ S.faults source.new }
    ensures unfailed { (result ≡ client_ends.ReadFault) ⊎ (S.faults source.new ≡ S.faults source.old) }
{
    for _ in rt.forever() {
        match read_on(rt, relay, inlet, framer, source, piece) {
            Ok(()) => {}
            Err(end) => return end,
        }
    }
    unreachable!()
}

/// Reads a source to its end, or until the stop word is set, and puts each frame.
pub(crate) fn read_all<H: Wait, S: Source>(
    rt: &H,
    alloc: Global,
    relay: &Relay,
    inlet: &mut Inlet,
    source: &mut S,
) -> ClientEnd
    requires inlet { IsInletOf relay.now inlet.old }
    requires nothing { (sender_of inlet.old).frames ≡ [] }
    ensures inlet { IsInletOf relay.now inlet.new }
    ensures client { (sender_of inlet.new).client ≡ (sender_of inlet.old).client }
    ensures read { HasRead (S.left source.old) (S.left source.new) (Rose (S.faults source.old) (S.faults source.new)) (has_found inlet.new ≡ true) (sender_of inlet.new).frames result }
    ensures later { S.faults source.old ≤ S.faults source.new }
    ensures unfailed { (result ≡ client_ends.ReadFault) ⊎ (S.faults source.new ≡ S.faults source.old) }
{
    let Ok(mut piece) = zeroed(alloc, PIECE) else {
        return ClientEnd::NoMemory;
    };
    let mut framer = Framer::new(alloc);
    read_through(rt, relay, inlet, &mut framer, source, &mut piece)
}
