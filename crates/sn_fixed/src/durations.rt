//! Times, from frame to frame.
ghost use Rattle.std.specs.Prelude.{◌≡◌};
ghost use Rattle.sn_fixed.specs.Fixed.{frames_of};

use crate::phases::frames_of;

/// The frames of the last time.
#[derive(Clone, Copy)]
pub struct TimeFrames {
    /// Frames a second.
    pub rate: u32,
    /// The last time, in milliseconds.
    ms: i32,
    frames: u32,
    ghost known: { frames ≡ frames_of ms rate },
}

impl TimeFrames {
    /// At a time of 0.
    pub fn new(rate: u32) -> TimeFrames
        ensures { result.rate ≡ rate }
    {
        TimeFrames {
            rate,
            ms: 0,
            frames: frames_of(0, rate),
        }
    }

    /// The frames of `ms` milliseconds, as `frames_of` gives them. They are computed only if the time isn't the last
    /// one.
    pub fn at(&mut self, ms: i32) -> u32
        ensures value { result ≡ frames_of ms self.old.rate }
        ensures rate { self.new.rate ≡ self.old.rate }
    {
        if ms != self.ms {
            let rate = self.rate;
            *self = TimeFrames {
                rate,
                ms,
                frames: frames_of(ms, rate),
            };
        }
        self.frames
    }
}
