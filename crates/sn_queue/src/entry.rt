ghost use Rattle.std.specs.Prelude.{◌≡◌};
ghost use Rattle.sn_queue.specs.declared.entry.Unput.TheVariants as unput;
ghost use Rattle.sn_queue.specs.Meaning.{waiting_of, waiting_at};

use crate::messages::Messages;
use std::alloc::AllocFailed;

/// Messages that act together, one after another.
#[derive(Debug, Drop)]
pub struct Entry {
    /// When they act, as a time tag.
    pub key: u128,
    /// How many entries were put before.
    pub number: u64,
    /// The client that sent them.
    pub from: u32,
    /// What acts, in order.
    pub messages: Messages,
}

/// Why an entry was not put.
#[derive(Clone, Copy, Debug, PartialEq, Eq)]
pub enum Unput {
    /// As many entries wait as may.
    QueueFull,
    /// Memory ran out.
    NoMemory,
}

impl<T: Drop> From<AllocFailed<T>> for Unput {
    ghost from_gives = { λ _ e. e ≡ unput.NoMemory };

    fn from(_: AllocFailed<T>) -> Self {
        Unput::NoMemory
    }
}

/// Where an entry stands in the order: by time, and at one time by arrival.
#[derive(Clone, Copy, Debug, PartialEq, Eq, PartialOrd, Ord)]
pub(crate) struct Rank {
    /// The time, in units of 2^-32 seconds.
    pub(crate) key: u128,
    /// How many entries were put before.
    pub(crate) number: u64,
}

/// What waits at a rank.
#[derive(Debug, Drop)]
pub(crate) struct Batch {
    /// The client that sent them.
    pub(crate) from: u32,
    /// What acts, in order.
    pub(crate) messages: Messages,
}

impl Entry {
    /// The entry that waits at this rank.
    pub(crate) fn of(rank: Rank, batch: Batch) -> Self
        ensures { waiting_of result ≡ waiting_at (rank, batch) }
    {
        Entry {
            key: rank.key,
            number: rank.number,
            from: batch.from,
            messages: batch.messages,
        }
    }
}
