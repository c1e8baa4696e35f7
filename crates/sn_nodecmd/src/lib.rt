//! The commands on nodes, and `/notify`.
#![tactic(auto)]

mod adding;
mod asked;
mod controls;
mod describing;
mod dispatch;
mod emptying;
mod faults;
mod folding;
mod freeing;
mod getting;
mod groups;
mod indexing;
mod judging;
mod latest;
mod laying;
mod making;
mod mappings;
mod moving;
mod names;
mod needed;
mod notifying;
mod ordering;
mod placing;
mod querying;
mod questions;
mod resolved;
mod runs;
mod setting;
mod telling;
mod turning;

pub use dispatch::run_node_command;
pub use names::{NamedControl, number_of};
pub use runs::{ReadRun, Run, RunForm, RunValues, read_run, value_count};
