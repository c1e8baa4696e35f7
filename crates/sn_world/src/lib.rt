//! What the world of a server is, and what a command does to it.
#![tactic(auto)]

mod addresses;
mod arguments;
mod bodies;
mod buffer_repetition;
mod choosing;
mod command;
mod defs;
mod emptying;
mod endings;
mod flags;
mod freed;
mod laws;
mod names;
mod node_repetition;
mod notices;
mod ordering;
mod repetition;
mod runs;
mod stage;
mod tree_query;

pub use addresses::command_of;
pub use arguments::{Pair, Single, Triple, pairs, singles, some_of, triples};
pub use bodies::arguments_of;
pub use buffer_repetition::{
    BufferNumber, NewBuffer, SampleFill, SampleIndex, SampleRun, SampleValue,
};
pub use choosing::{chosen_ids_are_free, chosen_ids_stay_below};
pub use command::{Command, Handled, MOST_COMPLETIONS, NodeCommand, ServerCommand};
pub use defs::Defs;
pub use emptying::{DeepFree, FreeAll};
pub use endings::{Ending, Endings, frees, pauses};
pub use flags::Flags;
pub use freed::{end_freed, give_back};
pub use laws::{
    control_runs_are_read, controls_are_mapped_in_turn, most_completions_are_deepest,
    samples_change_in_turn, value_runs_are_read,
};
pub use names::Names;
pub use node_repetition::{NodeMove, NodeQuery, RunFlag};
pub use notices::{NodeEvent, event_message, notify};
pub use ordering::NodePlace;
pub use repetition::{BusFill, BusNumber, BusValue, NewGroup, NewNode, NodeId, Run};
pub use runs::{ValueRun, value_runs};
pub use stage::{Held, Stage};
pub use tree_query::TreeQuery;
