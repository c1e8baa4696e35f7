//! The commands on control buses, on buffers, on definitions and on the server itself.
#![tactic(auto)]

mod asking;
mod asking_runs;
mod buffer_freeing;
mod buffer_holding;
mod buffer_making;
mod buffer_querying;
mod buffer_reading;
mod buffer_zeroing;
mod buffers;
mod completing;
mod counting;
mod dispatch;
mod ending;
mod filling;
mod fills;
mod freeing;
mod judging;
mod receiving;
mod repeating;
mod sample_changes;
mod sample_questions;
mod samples;
mod setting;
mod setting_runs;
mod status;
mod syncing;

pub use dispatch::run_bus_command;
