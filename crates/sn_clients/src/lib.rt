//! Several clients at once: their frames come to one engine, each whole, once and in its client's order.
#![tactic(auto)]

mod clients;
mod desk;
mod ends;
mod looping;
mod notes;
mod playing;
mod presence;
mod pulse;
mod readers;
mod reading;
mod relay;
mod rule;
mod seats;
mod serving;
mod stopping;
mod turns;
mod watching;

pub use clients::{Client, ClientEnd, Clients};
pub use notes::{Full, Note, Sent};
pub use pulse::{ListPulse, Pulse};
pub use seats::{Inlet, Inlets, Outlet, Relay};
pub use serving::{Sinks, serve_many};
pub use turns::{How, Session, Turn, Turns};
pub use watching::{Unwatched, Watcher};
