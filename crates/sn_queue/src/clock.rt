ghost use Rattle.std.specs.Prelude.{◌≡◌, ◌<◌, ◌^◌};
ghost use Rattle.sn_ports.specs.Limits.{most_count};
ghost use Rattle.sn_queue.specs.Time.{due, at, key_of, acts_at, IsInReach};

use crate::time::at;

/// What time tags mean, and the time of the last boundary that was asked for.
#[derive(Clone, Copy, Debug)]
pub(crate) struct Clock {
    /// The time of block 0, as a time tag.
    pub(crate) base: u64,
    /// Frames a second.
    pub(crate) rate: u32,
    boundary: u64,
    time: u128,
    ghost some: { 0 < rate },
    ghost small: { rate < 2 ^ 32 },
    ghost known: { time ≡ at boundary base rate },
}

impl Clock {
    /// At boundary 0.
    pub(crate) fn new(base: u64, rate: u32) -> Clock
        requires { 0 < rate }
        ensures base { result.base ≡ base }
        ensures rate { result.rate ≡ rate }
    {
        Clock {
            base,
            rate,
            boundary: 0,
            time: at(0, base, rate),
        }
    }

    /// The tag of a boundary, rounded up. It is computed only if the boundary isn't the last one.
    fn at(&mut self, boundary: u64) -> u128
        requires { boundary < most_count }
        ensures value { result ≡ at boundary self.old.base self.old.rate }
        ensures base { self.new.base ≡ self.old.base }
        ensures rate { self.new.rate ≡ self.old.rate }
    {
        if boundary != self.boundary {
            let base = self.base;
            let rate = self.rate;
            *self = Clock {
                base,
                rate,
                boundary,
                time: at(boundary, base, rate),
            };
        }
        self.time
    }

    /// The time at which an entry acts that has this tag and arrives at this boundary.
    pub(crate) fn key(&mut self, tag: u64, boundary: u64) -> u128
        requires { boundary < most_count }
        ensures value { result ≡ key_of tag boundary self.old.base self.old.rate }
        ensures in_reach { IsInReach result self.old.base self.old.rate }
        ensures acts_at { due result self.old.base self.old.rate ≡ acts_at tag boundary self.old.base self.old.rate }
        ensures base { self.new.base ≡ self.old.base }
        ensures rate { self.new.rate ≡ self.old.rate }
    {
        let arrival = self.at(boundary);
        match tag {
            1 => arrival,
            _ => u128::from(tag).max(arrival),
        }
    }
}
