//! Whether readers have begun, and how many have not ended, as they tell it. No contract rests on it.
use sn_ports::NoMemory;
use std::sync::Wait;
use std::sync::atomic::{AtomicU64, Ordering};
use std::time::Duration;

/// How often it is looked whether a reader has begun.
const MOST_LOOKS: u32 = 100;

/// How long each look waits at most.
const LOOK_MILLIS: u64 = 100;

/// A count of readers.
#[derive(Drop)]
pub(crate) struct Presence {
    begun: AtomicU64,
    left: AtomicU64,
}

impl Presence {
    /// `readers` readers are to begin and to end.
    pub(crate) fn new(readers: u32) -> Presence {
        Presence {
            begun: AtomicU64::new(0),
            left: AtomicU64::new(u64::from(readers)),
        }
    }

    /// The readers begin.
    pub(crate) fn begin(&self) {
        self.begun.store(1, Ordering::SeqCst);
        self.begun.wake_all();
    }

    /// Waits until the readers begin, for some ten seconds. If they haven't by then, no thread could be had for them.
    pub(crate) fn wait_for_begin<H: Wait>(&self, rt: &H) -> Result<(), NoMemory> {
        for _ in 0..MOST_LOOKS {
            if self.begun.load(Ordering::SeqCst) == 1 {
                return Ok(());
            }
            self.begun
                .park_timeout(rt, 0, Duration::from_millis(LOOK_MILLIS));
        }
        Err(NoMemory)
    }

    /// A reader has ended.
    pub(crate) fn leave(&self) {
        self.left.fetch_sub(1, Ordering::SeqCst);
    }

    /// Whether all have.
    pub(crate) fn is_over(&self) -> bool {
        self.left.load(Ordering::SeqCst) == 0
    }
}
