//! Packets and their times, each call by itself.
use crate::line::Unanswered;
use sn_osc::{Body, Framer, Packet, PacketFault, PacketKind, Undecoded, decode};
use sn_queue::{at, due};
use std::alloc::Global;

/// `/sync 7`, framed.
const SYNC: [u8; 20] = *b"\0\0\0\x10/sync\0\0\0,i\0\0\0\0\0\x07";

/// Bytes that spell no packet, with the kind and the place of their first fault.
const FAULTS: [(&[u8], PacketKind, u32); 10] = [
    (b"", PacketKind::Size, 0),
    (b"A\0\0\0", PacketKind::Start, 0),
    (b"/abc", PacketKind::Unended, 0),
    (b"/a\0\x01,\0\0\0", PacketKind::Padding, 3),
    (b"/a\0\0i\0\0\0", PacketKind::NoTags, 4),
    (b"/a\0\0,i\0\0", PacketKind::ShortArgs, 8),
    (b"/a\0\0,\0\0\0\0\0\0\0", PacketKind::LongArgs, 8),
    (
        b"/a\0\0,b\0\0\0\0\0\x05\x01\x02\x03\x04",
        PacketKind::BlobSize,
        8,
    ),
    (
        b"#bundle\0\0\0\0\0\0\0\0\x01\0\0\0\x06/a\0\0",
        PacketKind::ElementSize,
        16,
    ),
    (b"#bu\0", PacketKind::Head, 0),
];

/// A quarter of a second lies at 187.5 blocks. Block 2 begins after two 375ths of a second.
pub fn timed() -> bool {
    due(1 << 30, 0, 48_000) == 187 && at(2, 0, 48_000) == 11_453_247
}

/// A packet that is fed byte by byte comes with its last byte.
pub fn framed_by_bytes(alloc: Global) -> Result<bool, Unanswered> {
    let mut framer = Framer::new(alloc);
    let mut before: u32 = 0;
    for byte in SYNC {
        framer.feed(&[byte])?;
        match framer.next() {
            Ok(None) => before += 1,
            Ok(Some(frame)) => {
                return Ok(before == 19 && frame.place == 4 && frame.bytes.as_slice() == &SYNC[4..]);
            }
            Err(_) => return Ok(false),
        }
    }
    Ok(false)
}

fn is_refused(alloc: Global, bytes: &[u8], kind: PacketKind, place: u32) -> bool {
    match decode(alloc, bytes) {
        Err(Undecoded::Bad(fault)) => fault == PacketFault { kind, place },
        _ => false,
    }
}

fn is_bare(alloc: Global, bytes: &[u8], address: &[u8]) -> bool {
    match decode(alloc, bytes) {
        Ok(Packet::Message(message)) => {
            message.address.as_slice() == address && matches!(message.body, Body::Bare)
        }
        _ => false,
    }
}

/// The first fault of bytes is found, and a message without tags has no body.
pub fn decoded(alloc: Global) -> bool {
    for (bytes, kind, place) in FAULTS {
        if !is_refused(alloc, bytes, kind, place) {
            return false;
        }
    }
    is_bare(alloc, b"/a\0\0", b"/a")
}
