//! A drill: a long stream of commands that a seed chooses, and the line that says what came of it.
#![tactic(auto)]

mod definitions;
mod grown;
mod laws;
mod line;
mod messages;
mod stream;

pub use grown::GrownSink;
pub use laws::framed_drill;
pub use line::line_of;
pub use stream::drill_packets;
