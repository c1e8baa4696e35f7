//! A gate that shows that two jobs ran at the same time.
use sn_ports::Gate;
use std::hint::spin_loop;
use std::sync::atomic::{AtomicU64, Ordering};
use std::thread::yield_now;

/// In how many turns of a hold the thread lets others run once.
const PATIENCE: u32 = 64;

/// A gate that holds each of two jobs until the other one has come to it too, or until a number of turns is over.
#[derive(Drop)]
pub struct HoldGate {
    one: u32,
    other: u32,
    turns: u32,
    // 1 after a job has come.
    one_came: AtomicU64,
    other_came: AtomicU64,
    // 1 after a hold ran out of turns.
    ran_out: AtomicU64,
}

impl HoldGate {
    /// A gate that holds these two jobs for at most `turns` turns.
    pub fn new(one: u32, other: u32, turns: u32) -> HoldGate {
        HoldGate {
            one,
            other,
            turns,
            one_came: AtomicU64::new(0),
            other_came: AtomicU64::new(0),
            ran_out: AtomicU64::new(0),
        }
    }

    /// Whether both jobs have come, and no hold ran out of turns.
    pub fn met(&self) -> bool {
        self.have_come() && self.ran_out.load(Ordering::SeqCst) == 0
    }

    fn have_come(&self) -> bool {
        self.one_came.load(Ordering::SeqCst) == 1 && self.other_came.load(Ordering::SeqCst) == 1
    }

    fn hold(&self) {
        for turn in 0..self.turns {
            if self.have_come() {
                return;
            }
            if turn % PATIENCE == 0 {
                yield_now();
            } else {
                spin_loop();
            }
        }
        if !self.have_come() {
            self.ran_out.store(1, Ordering::SeqCst);
        }
    }
}

impl Gate for HoldGate {
    fn pass(&self, job: u32) {
        if job == self.one {
            self.one_came.store(1, Ordering::SeqCst);
        }
        if job == self.other {
            self.other_came.store(1, Ordering::SeqCst);
        }
        if job == self.one || job == self.other {
            self.hold();
        }
    }
}
