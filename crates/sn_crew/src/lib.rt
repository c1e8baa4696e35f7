//! Workers that share the jobs of a round in threads of their own.
#![tactic(auto)]

mod crew;
mod deque_hints;
mod deques;
mod hands;
mod hints;
mod hold;
mod opening;
mod pace;
mod seating;
mod widths;
mod working;

pub use crew::Crew;
pub use deque_hints::DequeHints;
pub use hints::{Counts, Found, Hints, Look, Member};
pub use hold::HoldGate;
pub use seating::finish;
