//! When blocks are due.
ghost use Rattle.std.specs.Prelude.{◌≡◌, ◌+◌, ◌-◌, ◌*◌, ◌^◌, ◌<◌, ◌≤◌, min, true, false};
ghost use Rattle.sn_ports.specs.Limits.{most_ticks};
ghost use Rattle.sn_tcp.specs.Pace.{blocks_due, blocks_to_come, most_given, IsUntilNext};

use sn_ports::limits::MOST_TICKS;

/// Nanoseconds that a block takes at one frame a second.
const BLOCK: u128 = 64_000_000_000;

/// How many blocks are asked for at once, at most.
const MOST_DUE: u128 = MOST_TICKS as u128;

/// How many blocks are asked for in all, at most.
const MOST_GIVEN: u128 = 1 << 127;

/// Blocks of 64 frames at a rate, of which the first were asked for. They are due by a clock, or by the sound: then one is
/// due as soon as what takes the sound took the one before, which it did when one more is asked for.
#[derive(Clone, Copy, Debug)]
pub struct Pace {
    /// Frames a second.
    pub(crate) rate: u32,
    /// How many blocks were asked for.
    pub(crate) given: u128,
    /// What takes the sound says when a block is due, and not a clock.
    pub(crate) by_sound: bool,
    pub(crate) ghost rate_is: { 0 < rate },
}

/// How many blocks are due `nanos` nanoseconds after the start.
fn blocks_due(rate: u32, nanos: u128) -> u128
    requires { nanos < 2 ^ 94 }
    ensures { result ≡ blocks_due rate nanos }
{
    nanos * u128::from(rate) / BLOCK + 1
}

/// How many blocks are due by the clock and were not given, up to the most at once.
fn due_by_clock(rate: u32, nanos: u128, given: u128) -> u32
    requires { nanos < 2 ^ 94 }
    ensures { result ≡ min (blocks_due rate nanos - given) most_ticks }
{
    let due = blocks_due(rate, nanos).saturating_sub(given);
    due.min(MOST_DUE) as u32
}

/// The next block, if it is one of the most that are given.
fn next_block(given: u128) -> u32
    ensures { result ≡ min 1 (most_given - given) }
{
    MOST_GIVEN.saturating_sub(given).min(1) as u32
}

impl Pace {
    /// The pace of a clock, at which no block was asked for.
    pub fn by_clock(rate: u32) -> Self
        requires { 0 < rate }
        ensures rate { result.rate ≡ rate }
        ensures given { result.given ≡ 0 }
        ensures clock { result.by_sound ≡ false }
    {
        Pace {
            rate,
            given: 0,
            by_sound: false,
        }
    }

    /// The pace of what takes the sound, at which no block was asked for.
    pub fn by_sound(rate: u32) -> Self
        requires { 0 < rate }
        ensures rate { result.rate ≡ rate }
        ensures given { result.given ≡ 0 }
        ensures sound { result.by_sound ≡ true }
    {
        Pace {
            rate,
            given: 0,
            by_sound: true,
        }
    }

    /// Asks for the blocks that are due `nanos` nanoseconds after the start and were not asked for, up to the most at
    /// once: by the sound, for one. Returns how many.
    pub fn take_due(&mut self, nanos: u128) -> u32
        requires { nanos < 2 ^ 94 }
        ensures count { result ≡ blocks_to_come self.old.by_sound self.old.rate nanos self.old.given }
        ensures given { self.new.given ≡ self.old.given + result }
        ensures kept { (self.new.rate ≡ self.old.rate) × (self.new.by_sound ≡ self.old.by_sound) }
    {
        let count = if self.by_sound {
            next_block(self.given)
        } else {
            due_by_clock(self.rate, nanos, self.given)
        };
        self.given += u128::from(count);
        count
    }

    /// Nanoseconds until one more block is due.
    pub fn until_next(&self, nanos: u128) -> u64
        requires { nanos < 2 ^ 94 }
        ensures wait { IsUntilNext self.now.rate nanos result }
        ensures bound { result ≤ 64000000000 }
    {
        let rate = u128::from(self.rate);
        let begun = nanos * rate % BLOCK;
        (BLOCK - begun).div_ceil(rate) as u64
    }
}

/// The milliseconds that hold `nanos` nanoseconds.
pub(crate) fn whole_millis(nanos: u64) -> u64
    ensures enough { nanos ≤ result * 1000000 }
    ensures least { result * 1000000 < nanos + 1000000 }
{
    nanos.div_ceil(1_000_000)
}
