//! Entries that wait for their time. A queue means the plain list of its entries, in the order in which they act. It
//! keeps an ordered map, so putting and taking an entry costs time in the logarithm of the entries that wait.
#![tactic(auto)]

mod clock;
mod entry;
mod messages;
mod queue;
mod time;

pub use entry::{Entry, Unput};
pub use messages::Messages;
pub use queue::Queue;
pub use time::{at, due};
