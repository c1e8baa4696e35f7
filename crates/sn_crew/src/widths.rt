//! How many threads a round has work for.
ghost use Rattle.std.specs.Prelude.{◌<◌, length};

use sn_round::Plan;
use std::thread::{Threads, available_parallelism};

/// How many processors this thread may run on, or 1 if that can't be told.
pub fn processors(rt: &impl Threads) -> usize {
    match available_parallelism(rt) {
        Ok(count) => count.get(),
        Err(_) => 1,
    }
}

/// How many jobs have no predecessor.
fn entries(plan: &Plan) -> usize {
    let mut count: usize = 0;
    for job in 0..plan.jobs() {
        if plan.predecessors(job).as_slice().is_empty() {
            count = count.saturating_add(1);
        }
    }
    count
}

/// Whether a job is ready when another has ended and all before that one have.
fn is_ready_after(plan: &Plan, job: u32, last: u32) -> bool {
    job < plan.jobs()
        && plan
            .predecessors(job)
            .as_slice()
            .iter()
            .all(|before| *before <= last)
}

/// How many successors of a job are ready when it has ended and all before it have.
fn readied(plan: &Plan, job: u32) -> usize
    requires { job < length plan.now }
{
    let mut count: usize = 0;
    for next in plan.successors(job).as_slice() {
        if is_ready_after(plan, *next, job) {
            count = count.saturating_add(1);
        }
    }
    count
}

/// The most jobs that are ready at the same time while the jobs are run in order, at least 1 and at most a number. They
/// can all run at the same time.
pub fn width(plan: &Plan, most: usize) -> usize
    requires { 0 < most }
    ensures { 0 < result }
{
    let mut ready = entries(plan);
    let mut widest = ready.max(1);
    for job in 0..plan.jobs() {
        if widest >= most {
            break;
        }
        ready = ready.saturating_sub(1).saturating_add(readied(plan, job));
        widest = widest.max(ready);
    }
    widest.min(most)
}
