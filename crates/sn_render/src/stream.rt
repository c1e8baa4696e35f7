ghost use Rattle.std.specs.Prelude.{◌≡◌, ◌≤◌, ◌<◌, ◌+◌, ◌++◌, List, ℕ, length, map, IfOk, IfSome, OnOk, OnErr, IsTrue};
ghost use Rattle.std.specs.Io.KnownBytes.{Consumes, IsAtEnd, Keeps};
ghost use Rattle.sn_ports.specs.Limits.{most_stream};
ghost use Rattle.sn_ports.specs.Causes.{HasCause, Rose};
ghost use Rattle.sn_osc.specs.Shape.{Shape, shape};
ghost use Rattle.sn_osc.specs.Grammar.{Spells};
ghost use Rattle.sn_osc.specs.Bytes.{frame_bytes};
ghost use Rattle.sn_osc.specs.declared.fault.StreamFault.{StreamFault};
ghost use Rattle.sn_osc.specs.Frames.{is_frame_size, Frames, first_frame, instead, FrameFault, StreamFaultAt};
ghost use Rattle.sn_render.specs.declared.stream.NoPackets.TheVariants as no_packets;
ghost use Rattle.sn_render.specs.Faults.{UnlessFailed};
ghost use Rattle.sn_render.specs.Outcomes.{Takes};
ghost use Rattle.sn_render.specs.Pieces.{IsPiece};
ghost use Rattle.sn_render.specs.Stream.{AreFramed, IfBad, IsFound, IsRefused};

use sn_osc::{Elements, NoFrame, Packet, StreamFault, Undecoded, decode, first_frame};
use sn_ports::limits::MOST_STREAM;
use sn_ports::{Failed, NoMemory, Source, Text, fill};
use std::alloc::{AllocError, AllocFailed, Global};

/// How many bytes are asked for at once.
const PIECE: usize = 65536;

/// So many bytes show that a stream is too long.
pub const TOO_MANY_BYTES: u64 = MOST_STREAM as u64 + 1;

/// The first frame that is at fault.
#[derive(Clone, Copy, Debug, PartialEq, Eq)]
pub struct BadFrame {
    /// The number of its packet, from 0.
    pub packet: u32,
    /// The place of the fault, in bytes of the stream.
    pub place: u64,
    /// What is at fault.
    pub fault: StreamFault,
}

/// Why a stream gave no packets.
#[derive(Clone, Copy, Debug, PartialEq, Eq)]
pub enum NoPackets {
    NoMemory,
    Bad(BadFrame),
}

impl<T: Drop> From<AllocFailed<T>> for NoPackets {
    ghost from_gives = { λ _ e. e ≡ no_packets.NoMemory };

    fn from(_: AllocFailed<T>) -> Self {
        NoPackets::NoMemory
    }
}

/// Why a source was not read to its end.
#[derive(Clone, Copy, Debug, PartialEq, Eq)]
pub enum Unread {
    /// Memory ran out.
    NoMemory,
    /// There are more bytes than a stream may have.
    TooLong,
    /// The source failed.
    Failed,
}

/// So many bytes to write over.
pub fn zeroed(alloc: Global, len: usize) -> Result<Vec<u8>, AllocError>
    ensures { IfOk result (λ v. length v.items ≡ len) }
{
    vec![in alloc; 0; len]
}

/// Reads as many bytes as the piece has room for, or fewer at the end of the source, and appends them to those that
/// were read. Returns whether there were as many.
fn read_piece<S: Source>(source: &mut S, piece: &mut [u8], bytes: &mut Text) -> Result<bool, Failed>
    requires room { length piece.old ≤ bytes.old.spare }
    ensures read { IfOk result (λ is_full. IsPiece (S.left source.old) (S.left source.new) bytes.old.bytes bytes.new.bytes (length piece.old) is_full) }
    ensures spare { bytes.old.spare + length bytes.old.bytes ≤ bytes.new.spare + length bytes.new.bytes }
    ensures some { OnErr result ((given : List ℕ) × Consumes (S.left source.old) (S.left source.new) given × (length given < length piece.old)) }
    ensures cause { HasCause (S.faults source.old) (S.faults source.new) result }
    ensures unfailed { OnOk result (S.faults source.new ≡ S.faults source.old) }
    ensures size { length piece.new ≡ length piece.old }
{
    let count = fill(source, piece)?;
    bytes.append_within(&piece[..count]);
    Ok(count == piece.len())
}

/// Reads a source to its end.
///
/// `TooLong` comes if one byte more was taken than a stream may have, and `Failed` only if the source's count of
/// faults rose and fewer were taken. Nothing was taken if memory ran out.
pub fn read_stream<S: Source>(alloc: Global, source: &mut S) -> Result<Vec<u8>, Unread>
    ensures bytes { IfOk result (λ v. IfSome (S.left source.old) (λ xs. v.items ≡ xs)) }
    ensures end { OnOk result (IsAtEnd (S.left source.new)) }
    ensures size { IfOk result (λ v. length v.items ≤ most_stream) }
    ensures too_long { result ≡ Err Unread.TooLong → IfSome (S.left source.old) (λ xs. most_stream < length xs) }
    ensures front { result ≡ Err Unread.TooLong → Takes (most_stream + 1) (S.left source.old) (S.left source.new) }
    ensures some { result ≡ Err Unread.Failed → (given : List ℕ) × Consumes (S.left source.old) (S.left source.new) given × (length given ≤ most_stream) }
    ensures none { result ≡ Err Unread.NoMemory → Keeps (S.left source.old) (S.left source.new) }
    ensures failed { result ≡ Err Unread.Failed → Rose (S.faults source.old) (S.faults source.new) }
    ensures unfailed { UnlessFailed result (S.faults source.new ≡ S.faults source.old) }
{
    let mut bytes = Text::new(alloc);
    let Ok(()) = bytes.reserve(MOST_STREAM as u32 + 1) else {
        return Err(Unread::NoMemory);
    };
    let Ok(mut piece) = zeroed(alloc, PIECE) else {
        return Err(Unread::NoMemory);
    };
    while bytes.len() <= MOST_STREAM {
        let most = PIECE.min(MOST_STREAM + 1 - bytes.len());
        let Ok(is_full) = read_piece(source, &mut piece[..most], &mut bytes) else {
            return Err(Unread::Failed);
        };
        if !is_full {
            return Ok(bytes.into_vec());
        }
    }
    Err(Unread::TooLong)
}

/// What is wrong if no whole frame stands there.
fn fault_of(none: NoFrame) -> StreamFault
    ensures { (bytes : List ℕ) (at : ℕ) → 0 < length bytes → first_frame bytes ≡ instead none → FrameFault at bytes at result }
{
    match none {
        NoFrame::Cut => StreamFault::FrameCut,
        NoFrame::BadSize(_) => StreamFault::FrameSize,
    }
}

/// The first packet, and the bytes after its frame. The bytes begin at the place `at` of the stream.
fn first_packet(
    alloc: Global,
    number: u32,
    at: u64,
    bytes: &[u8],
) -> Result<(Packet, &[u8]), NoPackets>
    requires some { 0 < length bytes.now }
    requires short { at + length bytes.now ≤ most_stream }
    ensures found { IfOk result (λ x. (front : List ℕ) × IsTrue (is_frame_size (length front)) × Spells (shape x.0) front × (bytes.now ≡ frame_bytes front ++ x.1.now)) }
    ensures number { IfBad result (λ f. f.packet ≡ number) }
    ensures fault { IfBad result (λ f. FrameFault at bytes.now f.place f.fault) }
{
    let (frame, rest) = match first_frame(bytes) {
        Ok(parts) => parts,
        Err(none) => return Err(NoPackets::Bad(BadFrame {
            packet: number,
            place: at,
            fault: fault_of(none),
        })),
    };
    match decode(alloc, frame) {
        Ok(packet) => Ok((packet, rest)),
        Err(Undecoded::NoMemory) => Err(NoPackets::NoMemory),
        Err(Undecoded::Bad(fault)) => Err(NoPackets::Bad(BadFrame {
            packet: number,
            place: at + 4 + u64::from(fault.place),
            fault: StreamFault::Packet(fault.kind),
        })),
    }
}

/// Decodes frame after frame.
fn decode_frames(alloc: Global, bytes: &[u8]) -> Result<Elements, NoPackets>
    requires { length bytes.now ≤ most_stream }
    ensures found { IfOk result (λ v. Frames (map shape v.items) bytes.now) }
    ensures bad { IfBad result (λ f. StreamFaultAt bytes.now f.packet f.place f.fault) }
{
    let mut packets = Vec::new(alloc);
    let mut rest = bytes;
    while !rest.is_empty() {
        let at = (bytes.len() - rest.len()) as u64;
        let number = packets.len() as u32;
        let (packet, after) = first_packet(alloc, number, at, rest)?;
        packets.push(packet)?;
        rest = after;
    }
    Ok(packets)
}

/// The packets of a stream, or its first fault. Each is the answer exactly if it is there, apart from `NoMemory`.
pub fn decode_stream(alloc: Global, bytes: &[u8]) -> Result<Elements, NoPackets>
    requires { length bytes.now ≤ most_stream }
    ensures found { IfOk result (λ v. Frames (map shape v.items) bytes.now) }
    ensures framed { IfOk result (λ v. AreFramed (map shape v.items)) }
    ensures bad { IfBad result (λ f. StreamFaultAt bytes.now f.packet f.place f.fault) }
    ensures only_found { (xs : List Shape) → Frames xs bytes.now → IsFound (λ v. map shape v.items) result xs }
    ensures only_bad { (number place : ℕ) (fault : StreamFault) → StreamFaultAt bytes.now number place fault → IsRefused result number place fault }
{
    decode_frames(alloc, bytes)
}
