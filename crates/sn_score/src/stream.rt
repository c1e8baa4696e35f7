//! Packets as a stream, written.
ghost use Rattle.std.specs.Prelude.{◌≡◌, ◌≤◌, ◌++◌, length, map, flat_map, IfOk, OnOk};
ghost use Rattle.sn_ports.specs.Limits.{most_packet};
ghost use Rattle.sn_osc.specs.Bytes.{frame_bytes, packet_bytes};
ghost use Rattle.sn_osc.specs.Frames.{Frames};
ghost use Rattle.sn_osc.specs.Shape.{shape};
ghost use Rattle.sn_score.specs.Score.{AllFit, Fits};

use sn_osc::{Packet, encode};
use sn_ports::{NoMemory, Text};
use std::alloc::Global;

/// The bytes of a packet.
fn spelling(alloc: Global, packet: &Packet) -> Result<Text, NoMemory>
    requires { Fits (shape packet.now) }
    ensures bytes { IfOk result (λ t. t.bytes ≡ packet_bytes (shape packet.now)) }
    ensures few { IfOk result (λ t. length t.bytes ≤ most_packet) }
{
    encode(alloc, packet)
}

/// Appends the frame of a packet: its size as 4 bytes, and the packet.
fn put_frame(alloc: Global, out: &mut Text, packet: &Packet) -> Result<(), NoMemory>
    requires { Fits (shape packet.now) }
    ensures { OnOk result (out.new.bytes ≡ out.old.bytes ++ frame_bytes (packet_bytes (shape packet.now))) }
{
    let bytes = spelling(alloc, packet)?;
    out.append(&(bytes.len() as u32).to_be_bytes())?;
    out.append(bytes.as_slice())
}

fn put_frames(alloc: Global, out: &mut Text, packets: &[Packet]) -> Result<(), NoMemory>
    requires { AllFit (map shape packets.now) }
    ensures { OnOk result (out.new.bytes ≡ out.old.bytes ++ flat_map (λ x. frame_bytes (packet_bytes x)) (map shape packets.now)) }
{
    for packet in packets {
        put_frame(alloc, out, packet)?;
    }
    Ok(())
}

/// The stream of packets that each are no longer than a packet may be.
pub fn write_stream(alloc: Global, packets: &[Packet]) -> Result<Text, NoMemory>
    requires { AllFit (map shape packets.now) }
    ensures { IfOk result (λ t. Frames (map shape packets.now) t.bytes) }
{
    let mut out = Text::new(alloc);
    put_frames(alloc, &mut out, packets)?;
    Ok(out)
}
