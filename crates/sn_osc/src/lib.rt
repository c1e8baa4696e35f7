//! Packets of Open Sound Control 1.0.
#![tactic(auto)]

mod decoding;
mod encoding;
mod fault;
mod frame;
mod framer;
mod laws;
mod lengths;
mod packet;
mod reading;
mod spelling;

pub use decoding::{AT_ONCE, counts_as, decode, is_early};
pub use encoding::{append_frame, encode};
pub use fault::{PacketFault, PacketKind, StreamFault, Undecoded};
pub use frame::{Frame, NoFrame, Unframed, first_frame};
pub use framer::{Framer, frames_of};
pub use laws::{
    bad_for_good, decoded_again, first_fault, four_bytes_each, frame_found, frame_stands,
    joined_frames, no_fault, no_prefix, one_fault_of_a_stream, one_framing, one_list_of_packets,
    one_packet, one_spelling, whole_frames,
};
pub use lengths::packet_len;
pub use packet::{Address, Arg, Args, Body, Bundle, Elements, Message, Packet};
pub use spelling::spellable;
