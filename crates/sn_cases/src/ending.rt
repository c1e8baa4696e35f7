//! The lines that say how runs and connections ended.
use sn_osc::PacketKind;
use sn_ports::NoMemory;
use sn_server::{Ended, Outcome, StreamFault};
use std::alloc::Global;

/// How much of what a case says was written.
#[derive(Clone, Copy)]
pub enum Written {
    Whole,
    Prefix,
    Nothing,
}

fn number_of(fault: StreamFault) -> u32 {
    match fault {
        StreamFault::Packet(PacketKind::Size) => 1,
        StreamFault::Packet(PacketKind::Start) => 2,
        StreamFault::Packet(PacketKind::Unended) => 3,
        StreamFault::Packet(PacketKind::Padding) => 4,
        StreamFault::Packet(PacketKind::NoTags) => 5,
        StreamFault::Packet(PacketKind::ShortArgs) => 6,
        StreamFault::Packet(PacketKind::LongArgs) => 7,
        StreamFault::Packet(PacketKind::BlobSize) => 8,
        StreamFault::Packet(PacketKind::ElementSize) => 9,
        StreamFault::Packet(PacketKind::Head) => 10,
        StreamFault::Packet(PacketKind::NestedEarly) => 11,
        StreamFault::Packet(PacketKind::TooDeep) => 12,
        StreamFault::FrameSize => 13,
        StreamFault::FrameCut => 14,
    }
}

pub fn said(alloc: Global, line: &str) -> Result<String, NoMemory> {
    Ok(String::from_str(alloc, line)?)
}

/// A line with a number in it.
pub fn counted(alloc: Global, before: &str, number: i128, after: &str) -> Result<String, NoMemory> {
    Ok(format!(in alloc; "{before}{number}{after}")?)
}

/// The line of a stream that is no list of framed packets.
fn stream_line(
    alloc: Global,
    packet: u32,
    place: u64,
    fault: StreamFault,
) -> Result<String, NoMemory> {
    let number = number_of(fault);
    Ok(format!(in alloc; "bad stream: packet {packet}, byte {place}, fault P{number}")?)
}

/// The line of a run's end.
pub fn outcome_line(alloc: Global, outcome: Outcome) -> Result<String, NoMemory> {
    match outcome {
        Outcome::Done { blocks } => counted(alloc, "done ", i128::from(blocks), " blocks"),
        Outcome::NoMemory => Err(NoMemory),
        Outcome::BadWords { index } => counted(alloc, "bad word ", i128::from(index), ""),
        Outcome::BadStream {
            packet,
            place,
            fault,
        } => stream_line(alloc, packet, place, fault),
        Outcome::LongStream { bytes } => {
            counted(alloc, "stream over ", i128::from(bytes) - 1, " bytes")
        }
        Outcome::LongSound { blocks } => counted(
            alloc,
            "sound too long: ",
            i128::from(blocks),
            " blocks",
        ),
        Outcome::ReadFault => said(alloc, "read fault"),
        Outcome::SoundFault => said(alloc, "sound fault"),
        Outcome::ReplyFault => said(alloc, "reply fault"),
    }
}

/// How much a run with this outcome writes.
pub fn outcome_writes(outcome: Outcome) -> Written {
    match outcome {
        Outcome::Done { .. } => Written::Whole,
        Outcome::SoundFault | Outcome::ReplyFault => Written::Prefix,
        _ => Written::Nothing,
    }
}

/// The line of a connection's end.
pub fn ended_line(alloc: Global, ended: Ended) -> Result<String, NoMemory> {
    match ended {
        Ended::Quit => said(alloc, "quit"),
        Ended::NoMemory => Err(NoMemory),
        Ended::Closed => said(alloc, "closed"),
        Ended::Cut { kept } => counted(alloc, "cut after ", i128::from(kept), " bytes"),
        Ended::BadFrame { size } => counted(alloc, "bad frame size ", i128::from(size), ""),
        Ended::LinkFault => said(alloc, "link fault"),
        Ended::SoundFault => said(alloc, "sound fault"),
        Ended::Worn { .. } => said(alloc, "worn out"),
    }
}

/// How much a connection with this end writes.
pub fn ended_writes(ended: Ended) -> Written {
    match ended {
        Ended::LinkFault | Ended::SoundFault => Written::Prefix,
        _ => Written::Whole,
    }
}
