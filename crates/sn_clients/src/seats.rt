//! A relay and its ends.
ghost use Rattle.std.specs.Prelude.{◌≡◌, []};
ghost use Rattle.crossbeam_queue.specs.Passes.{view};
ghost use Rattle.sn_clients.specs.Ends.{HasPutAs};
ghost use Rattle.sn_clients.specs.StopWord.{IsFinder};

use crate::rule::{Queue, QueuePass};
use crate::stopping::{StopSeat, StopTable};

/// Relays the frames of several clients, which may be put in threads of their own, to one that takes them.
#[derive(Drop)]
pub struct Relay {
    pub(crate) queue: Queue,
    pub(crate) stop: StopTable,
    ghost one_word: { stop.shared.table_id.words ≡ 1 },
}

/// Where one client's frames are put.
#[derive(Drop)]
pub struct Inlet {
    pub(crate) pass: QueuePass,
    pub(crate) seat: StopSeat,
    pub(crate) client: u32,
    pub(crate) count: u32,
    ghost knows: { HasPutAs client count (view pass) },
    ghost finder: { IsFinder seat.me.0 },
    ghost bare: { seat.me.1 ≡ [] },
}

/// Inlets, client 0's first.
pub type Inlets = Vec<Inlet>;

/// Where the frames of all clients are taken.
#[derive(Drop)]
pub struct Outlet {
    pub(crate) pass: QueuePass,
    pub(crate) seat: StopSeat,
    ghost first: { pass.id ≡ 0 },
    ghost setter: { seat.id ≡ 0 },
}
