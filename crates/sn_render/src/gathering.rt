//! A stream of commands is read to its end and decoded.
ghost use Rattle.std.specs.Prelude.{◌≡◌, ◌⊎◌, ◌≤◌, ℕ, List, Some, Err, IfOk, IfErr, OnOk, length, map};
ghost use Rattle.std.specs.Io.KnownBytes.{IsAtEnd};
ghost use Rattle.sn_ports.specs.Limits.{most_stream};
ghost use Rattle.sn_osc.specs.Frames.{Frames};
ghost use Rattle.sn_osc.specs.Shape.{Shape, shape};
ghost use Rattle.sn_ports.specs.Causes.{Rose};
ghost use Rattle.sn_render.specs.Gathering.{GathersOnly, HasRefusal, IsRefusalOf, TakesRefused};
ghost use Rattle.sn_render.specs.Outcomes.{ArePacketsOf};
ghost use Rattle.sn_render.specs.Stream.{AreFramed};
ghost use Rattle.sn_render.specs.declared.gathering.Ungathered.{Ungathered};

use crate::stream::{NoPackets, TOO_MANY_BYTES, Unread, decode_stream, read_stream};
use sn_osc::{Packet, StreamFault};
use sn_ports::Source;
use std::alloc::Global;

/// The packets of a stream, in order.
pub type Packets = Vec<Packet>;

/// Why a stream gave no packets.
#[derive(Clone, Copy, Debug, PartialEq, Eq)]
pub enum Ungathered {
    /// Memory ran out.
    NoMemory,
    /// The source failed.
    ReadFault,
    /// The stream has more bytes than it may. So many were taken from the source, one too many.
    LongStream {
        bytes: u64,
    },
    /// The stream is no list of framed packets. The packet's number counts from 0, and so does the place, in bytes of
    /// the stream.
    BadStream {
        packet: u32,
        place: u64,
        fault: StreamFault,
    },
}

fn gathered<S: Source>(alloc: Global, source: &mut S) -> Result<Packets, Ungathered>
    ensures packets { IfOk result (λ v. ArePacketsOf (S.left source.old) (map shape v.items)) }
    ensures framed { IfOk result (λ v. AreFramed (map shape v.items)) }
    ensures end { OnOk result (IsAtEnd (S.left source.new)) }
    ensures refused { IfErr result (λ e. IsRefusalOf (S.left source.old) e) }
    ensures taken { IfErr result (λ e. TakesRefused e (S.left source.old) (S.left source.new)) }
    ensures read { result ≡ Err Ungathered.ReadFault → Rose (S.faults source.old) (S.faults source.new) }
    ensures unfailed { (result ≡ Err Ungathered.ReadFault) ⊎ (S.faults source.new ≡ S.faults source.old) }
{
    let bytes = match read_stream(alloc, source) {
        Ok(bytes) => bytes,
        Err(Unread::NoMemory) => return Err(Ungathered::NoMemory),
        Err(Unread::TooLong) => return Err(Ungathered::LongStream {
            bytes: TOO_MANY_BYTES,
        }),
        Err(Unread::Failed) => return Err(Ungathered::ReadFault),
    };
    match decode_stream(alloc, &bytes) {
        Ok(packets) => Ok(packets),
        Err(NoPackets::NoMemory) => Err(Ungathered::NoMemory),
        Err(NoPackets::Bad(bad)) => Err(Ungathered::BadStream {
            packet: bad.packet,
            place: bad.place,
            fault: bad.fault,
        }),
    }
}

/// The packets of a stream, which is read to its end.
///
/// # Errors
///
/// `LongStream` comes exactly if 16,777,217 bytes were taken, `BadStream` exactly if the stream has a first fault, and
/// `ReadFault` only if the source's count of faults rose.
pub fn gather<S: Source>(alloc: Global, source: &mut S) -> Result<Packets, Ungathered>
    // The packets are those of the stream, if the source tells its bytes. Each has a spelling.
    ensures packets { IfOk result (λ v. ArePacketsOf (S.left source.old) (map shape v.items)) }
    ensures framed { IfOk result (λ v. AreFramed (map shape v.items)) }
    // Every refusal apart from `NoMemory` has its cause.
    ensures refused { IfErr result (λ e. IsRefusalOf (S.left source.old) e) }
    ensures read { result ≡ Err Ungathered.ReadFault → Rose (S.faults source.old) (S.faults source.new) }
    ensures unfailed { (result ≡ Err Ungathered.ReadFault) ⊎ (S.faults source.new ≡ S.faults source.old) }
    // What was read of the stream: all of it, or at a refusal what that says.
    ensures end { OnOk result (IsAtEnd (S.left source.new)) }
    ensures taken { IfErr result (λ e. TakesRefused e (S.left source.old) (S.left source.new)) }
    // If no count rises, the answer is the one that the stream has, or `NoMemory`.
    ensures only_packets { (bytes : List ℕ) (packets : List Shape) → S.left source.old ≡ Some bytes → length bytes ≤ most_stream → Frames packets bytes
        → (Rose (S.faults source.old) (S.faults source.new) → ⊥) → GathersOnly (λ v. map shape v.items) result packets }
    ensures only_refused { (bytes : List ℕ) (e : Ungathered) → S.left source.old ≡ Some bytes → HasRefusal bytes e
        → (Rose (S.faults source.old) (S.faults source.new) → ⊥) → (result ≡ Err e) ⊎ (result ≡ Err Ungathered.NoMemory) }
{
    gathered(alloc, source)
}
