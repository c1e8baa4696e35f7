//! A TCP connection as a link: bytes as they come, and blocks as a clock says that they are due.
#![tactic(auto)]

mod laws;
mod line;
mod link;
mod pace;
mod steady;

pub use laws::blocks_come_due;
pub use line::PATIENCE;
pub use link::TcpLink;
pub use pace::Pace;
pub use steady::Steady;
