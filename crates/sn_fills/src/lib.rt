//! Fills of places in a row, and equal ones that set each place once.
#![tactic(auto)]

mod fill;
mod once;
mod order;
mod row;

pub use fill::Fill;
pub use once::once_each;
