//! What a session holds between two turns.
use crate::seats::Outlet;
use crate::turns::Turns;
use sn_engine::Engine;

/// The engine, the outlet of the relay, the turns so far, and whether each client's sink has failed.
#[derive(Drop)]
pub(crate) struct Desk {
    pub(crate) engine: Engine,
    pub(crate) outlet: Outlet,
    pub(crate) turns: Turns,
    pub(crate) failed: Vec<bool>,
}
