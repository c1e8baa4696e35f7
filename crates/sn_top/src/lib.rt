//! The calls that the program makes of its words, over any source, link, shelf and sink: what each subcommand does,
//! and the answers that come of it.
#![tactic(auto)]

mod converting;
mod drilling;
mod planning;
mod rendering;
mod serving;
mod shelving;

pub use converting::{Converted, convert};
pub use drilling::{drill, short_drill};
pub use planning::plan_run;
pub use rendering::run;
pub use serving::{Served, serve};
pub use shelving::{ShelfOutcome, run_shelf};
