//! What happens after a block: triggers are told, and units that ended pause or free their synths.
#![tactic(auto)]

mod acting;
mod eventful;
mod looking;
mod room;
mod settling;
mod telling;
mod words;

pub use eventful::{Eventful, EventfulSynth};
pub use settling::settle;
