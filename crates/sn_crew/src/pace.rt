//! How far a round has come, as its workers tell one another. No contract rests on it.
use std::hint::spin_loop;
use std::sync::atomic::{AtomicU64, Ordering};
use std::thread::yield_now;

/// How many turns a worker waits at most before a take.
const TURNS: u32 = 200_000;

/// In how many of them, the first ones, it keeps its processor.
const BUSY_TURNS: u32 = 100;

/// The first number that stands for less than none.
const LESS_THAN_NONE: u64 = 1 << 63;

/// What the workers of a round tell one another.
#[derive(Drop)]
pub struct Pace {
    // The hints that were given, and that no worker has reserved or taken. A hint that is taken before it is counted
    // makes it one less, so it may be less than none for a moment.
    hints: AtomicU64,
    // The jobs that have not ended.
    left: AtomicU64,
}

impl Pace {
    /// No hint was given, and no job has ended.
    pub fn new(jobs: u32) -> Pace {
        Pace {
            hints: AtomicU64::new(0),
            left: AtomicU64::new(u64::from(jobs)),
        }
    }

    /// Counts a hint that was given.
    pub fn count_hint(&self) {
        self.hints.fetch_add(1, Ordering::SeqCst);
    }

    /// Counts a job that has ended.
    pub fn count_end(&self) {
        self.left.fetch_sub(1, Ordering::SeqCst);
    }

    /// Waits for a hint, and reserves it. It returns whether it did: not if no job is left, or if all turns are over.
    pub fn reserve(&self) -> bool {
        for turn in 0..TURNS {
            let hints = self.hints.load(Ordering::SeqCst);
            if hints != 0 && hints < LESS_THAN_NONE {
                let reserved = self
                    .hints
                    .compare_exchange(hints, hints - 1, Ordering::SeqCst, Ordering::SeqCst);
                if reserved.is_ok() {
                    return true;
                }
            } else if self.left.load(Ordering::SeqCst) == 0 {
                return false;
            } else if turn < BUSY_TURNS {
                spin_loop();
            } else {
                yield_now();
            }
        }
        false
    }

    /// Puts the count right after a take: a hint that was reserved and not found is still there, and one that was found
    /// and not reserved is gone.
    pub fn settle(&self, is_reserved: bool, is_found: bool) {
        if is_reserved && !is_found {
            self.hints.fetch_add(1, Ordering::SeqCst);
        } else if is_found && !is_reserved {
            self.hints.fetch_sub(1, Ordering::SeqCst);
        }
    }
}
