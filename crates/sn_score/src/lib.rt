//! A stream of packets as text: one line for each message, and what stands between `[` and `]` for each bundle.
//! Each list of packets has one text, and each text one list of packets.
#![tactic(auto)]

mod draft;
mod fault;
mod fields;
mod laws;
mod lines;
mod stream;
mod text;
mod words;

pub use fault::Unscored;
pub use laws::{
    back_again, few_packets, first_fault, frames_fit, one_fault, one_list, one_text, read_again,
};
pub use lines::write_score;
pub use stream::write_stream;
pub use text::{Packets, read_score};
