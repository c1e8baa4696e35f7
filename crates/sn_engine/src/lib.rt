//! The engine: boundaries between blocks, blocks, and what is still to be written.
#![tactic(auto)]

mod acting;
mod before;
mod bounding;
mod clashing;
mod engine;
mod entry;
mod hearing;
mod laws;
mod memory;
mod offering;
mod planning;
mod refusing;
mod rendering;
mod room;
mod settling;
mod spans;
mod standing;
mod weighing;

pub use engine::Engine;
pub use laws::{chosen_ids_are_below, no_completion_is_left};
pub use standing::{Flow, Standing};
