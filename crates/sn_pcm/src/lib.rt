//! Sound as bytes: the settings of a run, the header of a WAV file and its PCM samples.
#![tactic(auto)]

mod pcm;
mod settings;
mod wav;

pub use pcm::{frames, pcm_length};
pub use settings::Settings;
pub use wav::{header, too_long};
