//! The time of the system's clock as a time tag.
ghost use Rattle.std.specs.Prelude.{◌≡◌};
ghost use Rattle.std.specs.Duration.{as_nanos};
ghost use Rattle.snova.specs.Clock.{time_tag};

use std::io;
use std::time::{Clock, Duration};

/// Seconds from 1900 to 1970.
const TO_1970: u64 = 2_208_988_800;

/// A reading of the clock, and its time tag.
#[derive(Clone, Copy)]
pub(crate) struct Reading {
    since_1970: Duration,
    pub(crate) tag: u64,
    ghost tag_is: { tag ≡ time_tag (as_nanos since_1970) },
}

/// The time since 1970 as a time tag: the seconds since 1900 in the upper 32 bits, and their fraction in the lower. The
/// seconds begin again every 2^32.
fn time_tag(since_1970: Duration) -> u64
    ensures { result ≡ time_tag (as_nanos since_1970) }
{
    let seconds = (since_1970.as_secs() % (1 << 32) + TO_1970) % (1 << 32);
    let fraction = (u64::from(since_1970.subsec_nanos()) << 32) / 1_000_000_000;
    (seconds << 32) + fraction
}

/// The time now.
pub(crate) fn now<C: Clock>(clock: &C) -> io::Result<Reading> {
    let since_1970 = clock.since_1970()?;
    Ok(Reading {
        since_1970,
        tag: time_tag(since_1970),
    })
}
