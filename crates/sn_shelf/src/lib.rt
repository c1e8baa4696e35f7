//! Sound files that commands name: a shelf of files, what a WAV file is, and `/b_allocRead` with the samples in place
//! of the name.
#![tactic(auto)]

mod asking;
mod expanding;
mod fault;
mod files;
mod folder;
mod laws;
mod memory;
mod parts;
mod reader;
mod requests;
mod traits;
mod waves;

pub use expanding::{expand, expand_all};
pub use fault::Unexpanded;
pub use files::read_file;
pub use folder::{FolderShelf, Unread};
pub use laws::one_wave;
pub use memory::{Files, MemoryShelf, ShelfFile};
pub use parts::{blob_of, part_in};
pub use requests::{Request, request_of};
pub use traits::{Shelf, Unshelved};
pub use waves::{Recording, recording_in};
