ghost use Rattle.std.specs.Prelude.{◌≡◌, ◌++◌, length, IfOk, IfErr, IsTrue};
ghost use Rattle.sn_osc.specs.declared.frame.Unframed.TheVariants as unframed;
ghost use Rattle.sn_osc.specs.Bytes.{frame_bytes};
ghost use Rattle.sn_osc.specs.Frames.{is_frame_size, first_frame, frame, instead};

use crate::reading::{int, size};
use sn_ports::limits::MOST_PACKET;
use sn_ports::{NoMemory, Text};

/// The greatest size of a packet.
const MOST_SIZE: u32 = MOST_PACKET as u32;

/// The bytes of one packet of a stream.
#[derive(Debug, Drop)]
pub struct Frame {
    /// The packet's bytes, without its size.
    pub bytes: Text,
    /// The place in the stream of the packet's first byte.
    pub place: u64,
}

/// Why no frame was given.
#[derive(Clone, Copy, Debug, PartialEq, Eq)]
pub enum Unframed {
    /// Memory ran out.
    NoMemory,
    /// The size is below 4, above 65,536 or no multiple of 4; its first byte is at `place` in the stream.
    Bad { size: i32, place: u64 },
}

impl From<NoMemory> for Unframed {
    ghost from_gives = { λ _ e. e ≡ unframed.NoMemory };

    fn from(_: NoMemory) -> Self {
        Unframed::NoMemory
    }
}

/// Why no whole frame stands first in a stream.
#[derive(Clone, Copy, Debug, PartialEq, Eq)]
pub enum NoFrame {
    /// There are no bytes, or they end inside the frame or its size.
    Cut,
    /// The size is below 4, above 65,536 or no multiple of 4.
    BadSize(i32),
}

/// Whether a packet in a stream may have `size` bytes.
fn is_frame_size(size: u32) -> bool
    ensures { result ≡ is_frame_size size }
{
    size >= 4 && size <= MOST_SIZE && size % 4 == 0
}

/// The packet's bytes of the first frame, and the bytes after the frame; or why there is none.
pub fn first_frame(bytes: &[u8]) -> Result<(&[u8], &[u8]), NoFrame>
    ensures found { IfOk result (λ x. first_frame bytes.now ≡ frame x.0.now x.1.now) }
    ensures stands { IfOk result (λ x. IsTrue (is_frame_size (length x.0.now)) × (bytes.now ≡ frame_bytes x.0.now ++ x.1.now)) }
    ensures none { IfErr result (λ e. first_frame bytes.now ≡ instead e) }
{
    if bytes.len() < 4 {
        return Err(NoFrame::Cut);
    }
    let size = size(bytes);
    if !is_frame_size(size) {
        return Err(NoFrame::BadSize(int(bytes)));
    }
    let rest = &bytes[4..];
    if rest.len() < size as usize {
        return Err(NoFrame::Cut);
    }
    Ok(rest.split_at(size as usize))
}
