//! What is still to be sent to each client: frames of replies.
ghost use Rattle.std.specs.Prelude.{◌≡◌, ◌+◌, ◌++◌, ◌≤◌, ◌<◌, ◌^◌, map, length, OnOk, OnErr};
ghost use Rattle.sn_osc.specs.Bytes.{message_bytes, frame_bytes};
ghost use Rattle.sn_ports.specs.Octets.{bytes_of};
ghost use Rattle.sn_ports.specs.Transfer.{Before};
ghost use Rattle.sn_reply.specs.Frames.{goes_to, frame_to, with_frame, with_frames, EachBegins, EachHasRoom};
ghost use Rattle.sn_reply.specs.Replies.{ReplyShape};

use crate::replies::{Replies, To};
use sn_ports::{NoMemory, Text};

/// Whether a client is among those that a reply goes to.
fn goes_to(client: u32, to: To) -> bool
    ensures { result ≡ goes_to client to }
{
    match to {
        To::Client(number) => number == client,
        To::All => true,
    }
}

/// Appends a reply's frame to what a client is sent, if it goes to that client. Room for `room` more bytes stays.
fn put_own(out: &mut Text, room: u32, client: u32, to: To, frame: &[u8]) -> Result<(), NoMemory>
    requires few { room + length frame.now < 2 ^ 32 }
    ensures frame { (r : ReplyShape) → r.to ≡ to → frame_bytes (message_bytes r.message) ≡ frame.now → OnOk result (out.new.bytes ≡ out.old.bytes ++ frame_to client r) }
    ensures behind { Before out.old.bytes out.new.bytes }
    ensures kept { OnErr result (out.new.bytes ≡ out.old.bytes) }
    ensures room { room ≤ out.old.spare → room ≤ out.new.spare }
{
    if !goes_to(client, to) {
        return Ok(());
    }
    out.reserve(room + frame.len() as u32)?;
    out.append_within(frame);
    Ok(())
}

/// Appends a reply's frame to what each client that it goes to is sent, from a client on. Room for `room` more bytes
/// stays.
fn put_frame(out: &mut [Text], room: u32, client: u32, to: To, frame: &[u8]) -> Result<(), NoMemory>
    requires few { room + length frame.now < 2 ^ 32 }
    requires clients { client + length out.old < 2 ^ 32 }
    ensures len { length out.new ≡ length out.old }
    ensures frames { (r : ReplyShape) → r.to ≡ to → frame_bytes (message_bytes r.message) ≡ frame.now → OnOk result (map bytes_of out.new ≡ with_frame client r (map bytes_of out.old)) }
    ensures behind { EachBegins (map bytes_of out.old) (map bytes_of out.new) }
    ensures front { (r : ReplyShape) → r.to ≡ to → frame_bytes (message_bytes r.message) ≡ frame.now → OnErr result (EachBegins (map bytes_of out.new) (with_frame client r (map bytes_of out.old))) }
    ensures room { EachHasRoom room out.old → EachHasRoom room out.new }
{
    let Some((first, rest)) = out.split_first_mut() else {
        return Ok(());
    };
    put_own(first, room, client, to, frame)?;
    put_frame(rest, room, client + 1, to, frame)
}

/// Appends the frames of replies to what each client that they go to is sent, in order. If each had room for `room`
/// more bytes, it still has. After `NoMemory` nothing that a client was to be sent is lost, and what follows it is a
/// prefix of these frames.
pub fn send(out: &mut [Text], room: u32, replies: Replies) -> Result<(), NoMemory>
    requires room { room < 2 ^ 30 }
    requires clients { length out.old < 2 ^ 32 }
    ensures len { length out.new ≡ length out.old }
    ensures frames { OnOk result (map bytes_of out.new ≡ with_frames 0 replies (map bytes_of out.old)) }
    ensures behind { EachBegins (map bytes_of out.old) (map bytes_of out.new) }
    ensures front { OnErr result (EachBegins (map bytes_of out.new) (with_frames 0 replies (map bytes_of out.old))) }
    ensures room { EachHasRoom room out.old → EachHasRoom room out.new }
{
    let mut left = replies.frames();
    for mark in replies.marks() {
        let (frame, others) = left.split_at(mark.len as usize);
        put_frame(out, room, 0, mark.to, frame)?;
        left = others;
    }
    Ok(())
}
