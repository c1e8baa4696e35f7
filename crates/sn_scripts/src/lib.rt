//! Scripts of commands as text: reads their cases, each a stream with its settings and what is to come of it.
#![tactic(auto)]

mod bytes;
mod case;
mod script;

pub use bytes::{header, sum_of};
pub use case::{Again, Case, Connection, Hold, Port, Session, Step};
pub use script::{Script, read_cases};
