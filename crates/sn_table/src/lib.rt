//! Words that the seats of a round share. A call of `Shared` is one atomic step of the round machine. But `open` takes
//! no step, nor does `release` if nothing is owed, and `arm` takes one for each job. A job that is run and a sweep take
//! many.
#![tactic(auto)]

mod job;
mod main_port;
mod mains;
mod port;
mod rule;
mod seats;
mod shared;
mod sweeps;

pub use job::run_job;
pub use main_port::{MainPort, MainRest};
pub use port::{SeatPort, SeatRest};
pub use seats::{Claim, MainSeat, Release, Shared, WorkerSeat};
pub use sweeps::{release_all, run_one, sweep};
