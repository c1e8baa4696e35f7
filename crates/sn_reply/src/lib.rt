//! Replies to clients: who gets which message, why a command was refused, and the bytes that are sent.
#![tactic(auto)]

mod answer;
mod events;
mod failing;
mod framing;
mod reason;
mod replies;

pub use answer::Answer;
pub use events::{Neighbours, Notice, event_frame};
pub use failing::fail;
pub use framing::send;
pub use reason::Reason;
pub use replies::{Replies, To};
