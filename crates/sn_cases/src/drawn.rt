//! A gate at which each job waits for a drawn number of turns, or yields.
use sn_ports::Gate;
use std::hint::spin_loop;
use std::sync::atomic::{AtomicU64, Ordering};
use std::thread::yield_now;

/// What is added for each job that comes, and what makes a number of it.
const STEP: u64 = 0x9e37_79b9_7f4a_7c15;

const FACTOR: u64 = 0xbf58_476d_1ce4_e5b9;

/// For fewer turns than this a job waits.
const TURNS: u64 = 64;

/// A gate at which each job waits for a drawn number of turns. If none is drawn, its thread yields. Few do, since each
/// that yields gives up a whole slice of time to other work.
#[derive(Drop)]
pub struct DrawnGate {
    state: AtomicU64,
}

impl DrawnGate {
    /// A gate whose numbers begin with a seed.
    pub fn new(seed: u64) -> DrawnGate {
        DrawnGate {
            state: AtomicU64::new(seed),
        }
    }
}

/// A number below that of the turns.
fn turns_of(state: u64) -> u64 {
    let mixed = (state ^ (state >> 30)).wrapping_mul(FACTOR);
    (mixed >> 33) % TURNS
}

impl Gate for DrawnGate {
    fn pass(&self, _job: u32) {
        let turns = turns_of(self.state.fetch_add(STEP, Ordering::SeqCst));
        if turns == 0 {
            yield_now();
        }
        for _ in 0..turns {
            spin_loop();
        }
    }
}
