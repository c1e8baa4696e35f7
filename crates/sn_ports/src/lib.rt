//! The outside as the server sees it: where bytes come from, where they go, and what may stand between a job and its
//! worker.
#![tactic(auto)]

mod calls;
mod digits;
mod failed;
mod failing;
mod files;
mod gate;
pub mod limits;
mod links;
mod memory;
mod played;
mod sending;
mod text;
mod traits;
mod transfer;

pub use calls::Calls;
pub use digits::show;
pub use failed::{Failed, NoMemory};
pub use files::{FileSink, FileSource};
pub use gate::{Gate, Open};
pub use links::{Event, Events, Fed, Link};
pub use memory::{MemorySink, MemorySource};
pub use played::PlayedLink;
pub use sending::send_all;
pub use text::{Text, Word};
pub use traits::{Sink, Source};
pub use transfer::{fill, write_all};
