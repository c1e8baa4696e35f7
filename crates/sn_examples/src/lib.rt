//! Examples of what the definitions say: laws that compute.
#![tactic(auto)]

mod buffers;
mod buses;
mod commands;
mod definitions;
mod numbers;
mod packets;
mod units;
