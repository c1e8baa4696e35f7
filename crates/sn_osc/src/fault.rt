ghost use Rattle.std.specs.Prelude.{◌≡◌};
ghost use Rattle.sn_osc.specs.declared.fault.Undecoded.TheVariants as undecoded;

use sn_ports::NoMemory;
use std::alloc::{AllocError, AllocFailed};

/// What is wrong with bytes that spell no packet.
///
/// For one bundle `Head` comes before `TooDeep`, and that before `NestedEarly`. For one string `Unended` comes before
/// `NoTags`, and that before `Padding`.
#[derive(Clone, Copy, Debug, PartialEq, Eq)]
pub enum PacketKind {
    /// The bytes are none, more than 65,536, or no multiple of 4.
    Size,
    /// A packet or an element begins with neither `/` nor `#`.
    Start,
    /// A string has no null byte before the end of its message.
    Unended,
    /// A padding byte is not zero.
    Padding,
    /// The string after the address does not begin with `,`.
    NoTags,
    /// A tag's argument begins at the end of the message.
    ShortArgs,
    /// Bytes follow the last argument.
    LongArgs,
    /// A blob's size is negative or more than the bytes left after it.
    BlobSize,
    /// An element's size is below 4, no multiple of 4, or more than the bytes left after it.
    ElementSize,
    /// A packet that begins with `#` has fewer than 16 bytes or does not begin with `#bundle` and a null byte.
    Head,
    /// An enclosed tag is not 1, the enclosing bundle's tag counts as other than 1, and the enclosed is less.
    NestedEarly,
    /// A bundle stands inside eight others.
    TooDeep,
}

/// The first fault of bytes that spell no packet.
#[derive(Clone, Copy, Debug, PartialEq, Eq)]
pub struct PacketFault {
    /// What is wrong.
    pub kind: PacketKind,
    /// The byte of the fault, counted from the packet's first byte.
    pub place: u32,
}

/// The first fault of a stream that is no list of framed packets.
#[derive(Clone, Copy, Debug, PartialEq, Eq)]
pub enum StreamFault {
    /// A packet is at fault.
    Packet(PacketKind),
    /// A frame's size is below 4, above 65,536 or no multiple of 4.
    FrameSize,
    /// The stream ends inside a frame or its size.
    FrameCut,
}

/// Why bytes were not decoded.
#[derive(Clone, Copy, Debug, PartialEq, Eq)]
pub enum Undecoded {
    /// Memory ran out.
    NoMemory,
    /// The bytes spell no packet.
    Bad(PacketFault),
}

impl From<NoMemory> for Undecoded {
    ghost from_gives = { λ _ e. e ≡ undecoded.NoMemory };

    fn from(_: NoMemory) -> Self {
        Undecoded::NoMemory
    }
}

impl From<AllocError> for Undecoded {
    ghost from_gives = { λ _ e. e ≡ undecoded.NoMemory };

    fn from(_: AllocError) -> Self {
        Undecoded::NoMemory
    }
}

impl<T: Drop> From<AllocFailed<T>> for Undecoded {
    ghost from_gives = { λ _ e. e ≡ undecoded.NoMemory };

    fn from(_: AllocFailed<T>) -> Self {
        Undecoded::NoMemory
    }
}
