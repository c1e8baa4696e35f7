//! A connection is served, event after event. What reads and renders a stream is handed on.
#![tactic(auto)]

mod ended;
mod joining;
mod receiving;
mod serving;
mod ticking;

pub use ended::Ended;
pub use joining::joined_pieces;
pub use serving::serve_one;
pub use sn_render::{
    Outcome, Packets, Reached, StreamFault, TOO_MANY_BYTES, Ungathered, Unread, gather, play,
    reach, read_packets, read_stream, render,
};
