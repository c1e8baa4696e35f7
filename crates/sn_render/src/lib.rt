//! Bytes in, bytes out: a stream of commands is read, decoded and played, and what comes of it is written to two sinks.
#![tactic(auto)]

mod dropping;
mod gathering;
mod outcome;
mod playing;
mod reaching;
mod rendering;
mod stream;
mod streaming;

pub use gathering::{Packets, Ungathered, gather};
pub use outcome::Outcome;
pub use playing::play;
pub use reaching::{Reached, reach};
pub use sn_osc::StreamFault;
pub use stream::{TOO_MANY_BYTES, Unread, read_stream, zeroed};
pub use streaming::{read_packets, render};
