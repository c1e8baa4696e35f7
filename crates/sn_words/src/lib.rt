//! The words of a command line, and the settings that they choose.
#![tactic(auto)]

mod choices;
mod convert;
mod drill;
mod keys;
mod laws;
mod lines;
mod paths;
mod plan;
mod render;
mod serve;

pub use convert::{Conversion, convert_words};
pub use drill::{DrillWords, drill_words};
pub use laws::{
    chosen_drill, chosen_plan, chosen_port, chosen_settings, defaults_stand, first_bad_word,
};
pub use lines::BadWord;
pub use plan::plan_words;
pub use render::settings;
pub use serve::{Pacing, ServeWords, serve_words};
