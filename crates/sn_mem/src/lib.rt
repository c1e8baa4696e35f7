//! Memory words: extents, feet, ports, and blocks of samples in them.
#![tactic(auto)]

mod below;
mod blocks;
mod buffers;
mod clashes;
mod done;
mod extents;
mod lanes;
mod local;
mod moves;
mod places;
mod plain;
mod port;
mod recurrence;
mod runs;
mod samples;
mod scratch;
mod stored;

pub use below::{Below, BelowRest};
pub use blocks::{Block, Blocks};
pub use buffers::{BufferPlace, Buffers};
pub use clashes::clash;
pub use done::ended;
pub use extents::{Extent, Extents, Foot};
pub use lanes::{LanePort, LaneRest};
pub use local::{LocalPort, LocalRest};
pub use moves::{AllMoves, Moved, Moves};
pub use places::{BUS_WORDS, LANE_WORDS, MOST_LANES, Places};
pub use plain::PlainPort;
pub use port::Port;
pub use recurrence::{Recurrence, run_recurrence};
pub use runs::{load_words, store_words};
pub use samples::{sample_of, word_of};
pub use scratch::{Scratch, Values};
pub use stored::Stored;
