//! How many blocks come in a row.
ghost use Rattle.std.specs.Prelude.{◌≡◌, ◌<◌, ◌≤◌, ◌+◌, ◌-◌, ◌^◌, ℕ, false};
ghost use Rattle.std.specs.List.{list_any};
ghost use Rattle.sn_ports.specs.Limits.{most_span, most_jobs};
ghost use Rattle.sn_queue.specs.Steps.{is_due};
ghost use Rattle.sn_span.specs.Unrolling.{start};

use sn_ports::limits::{MOST_JOBS, MOST_SPAN};
use sn_queue::Queue;

/// The most blocks of a plan of so many jobs that a round has room for, with a capture in each.
pub fn most_blocks(jobs: u32) -> u32
    requires { jobs < 4294967295 }
    ensures few { result ≤ most_span }
    ensures room { start jobs result ≤ most_jobs }
    ensures most { (n : ℕ) → n ≤ most_span → start jobs n ≤ most_jobs → n ≤ result }
{
    MOST_SPAN.min(MOST_JOBS / (jobs + 1))
}

/// The most blocks, up to a number and at least one, between which no entry is due. Block `block` is the first.
pub fn blocks_before_due(queue: &Queue, block: u64, most: u32) -> u32
    requires { block + most < 2 ^ 63 }
    ensures some { 1 ≤ result }
    ensures few { 2 ≤ result → result ≤ most }
    ensures none_due { 2 ≤ result → list_any (is_due queue.now (block + result - 1)) queue.now.waiting ≡ false }
    ensures most { (n : ℕ) → 2 ≤ n → n ≤ most → list_any (is_due queue.now (block + n - 1)) queue.now.waiting ≡ false → n ≤ result }
{
    if most < 2 {
        return 1;
    }
    if !queue.has_due(block + u64::from(most) - 1) {
        return most;
    }
    blocks_before_due(queue, block, most - 1)
}
