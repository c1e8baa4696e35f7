//! How many values a message asks for.
ghost use Rattle.std.specs.Prelude.{◌≡◌, nat_le};
ghost use Rattle.sn_ports.specs.Limits.{most_values};
ghost use Rattle.sn_world.specs.Runs.{total_of};

use sn_ports::limits::MOST_VALUES;
use sn_world::{Run, SampleRun};

/// Places in a row.
pub trait Counted {
    ghost use Rattle.std.specs.Prelude.{ℕ, ◌≡◌};

    ghost places: { Self → ℕ };

    /// How many places there are.
    fn count(&self) -> u32
        ensures { result ≡ places self.now };
}

impl Counted for Run {
    ghost places = { λ r. r.count };

    fn count(&self) -> u32 {
        self.count
    }
}

impl Counted for SampleRun {
    ghost places = { λ r. r.count };

    fn count(&self) -> u32 {
        self.count
    }
}

/// Whether a message asks for no more values than it may.
pub fn asks_few<R: Counted>(runs: &[R]) -> bool
    ensures { result ≡ nat_le (total_of R.places runs.now) most_values }
{
    let mut left = MOST_VALUES;
    for run in runs {
        let count = run.count();
        if left < count {
            return false;
        }
        left -= count;
    }
    true
}
