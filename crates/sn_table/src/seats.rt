//! The words as threads share them, and the seats that step on them.
ghost use Rattle.std.specs.Prelude.{◌≡◌, ◌+◌, ◌^◌, ◌<◌, ◌≤◌, [], length};
ghost use Rattle.sn_ports.specs.Limits.{most_jobs};
ghost use Rattle.sn_machine.specs.Fits.{Fits, MainFits};
ghost use Rattle.sn_table.specs.Kept.{RunsAs, OwesAs};

use crate::rule::{SharedTable, TableSeat};

/// The memory words and the job words of rounds, as threads share them.
#[derive(Drop)]
pub struct Shared {
    pub(crate) table: SharedTable,
    pub(crate) words: u32,
    pub(crate) jobs: u32,
    ghost count: { table.shared.table_id.words ≡ words + jobs },
    ghost slots: { table.shared.table_id.slots ≡ 0 },
    ghost key_words: { table.shared.key.words ≡ words },
    ghost key_jobs: { table.shared.key.jobs ≡ jobs },
    ghost some: { 1 ≤ words },
    ghost small: { words < 2 ^ 31 },
    ghost few: { jobs ≤ most_jobs },
}

/// Main's seat while no round runs, and in a round.
#[derive(Drop)]
pub struct MainSeat {
    pub(crate) place: TableSeat,
    ghost first: { place.id ≡ 0 },
    ghost bare: { place.me.1 ≡ [] },
    ghost fits: { MainFits place.me.0 },
}

/// A worker's seat.
#[derive(Drop)]
pub struct WorkerSeat {
    pub(crate) place: TableSeat,
    // The job that it runs, or whose debts it pays.
    pub(crate) job: u32,
    // How many of them were paid.
    pub(crate) paid: u32,
    pub(crate) owing: bool,
    ghost bare: { place.me.1 ≡ [] },
    ghost fits: { Fits place.me.0 },
    ghost runs: { RunsAs place.me.0 job },
    ghost owes: { OwesAs place.me.0 job paid owing },
}

/// What a release returns.
pub enum Release {
    /// The word of this successor is 0 now.
    Ready(u32),
    /// This is left of the successor's word, more than 0.
    Held(u64),
    /// Nothing is owed.
    NoMore,
}

/// What a claim returns.
pub enum Claim {
    /// The word was 0, and the seat runs the job.
    Got,
    /// The word was this, and not 0.
    Busy { word: u64 },
}
