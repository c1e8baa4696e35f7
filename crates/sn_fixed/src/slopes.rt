//! Straight lines, from frame to frame.
ghost use Rattle.std.specs.Prelude.{◌≡◌, ◌<◌, ◌≤◌, pos, ◌*ℤ◌, ◌-ℤ◌};
ghost use Rattle.sn_fixed.specs.Divisions.{IsDivided};
ghost use Rattle.sn_fixed.specs.Lines.{line_at};

use crate::division::Division;
use crate::lines::{distance, moved};

/// The samples between which a line goes.
#[derive(Clone, Copy)]
struct Ends {
    start: i32,
    end: i32,
}

/// A straight line at one of its frames. What it is at the next frame follows without a division.
#[derive(Clone, Copy)]
pub struct Slope {
    ends: Ends,
    frame: u32,
    frames: u32,
    /// How far it is from its start at this frame.
    gone: Division,
    /// How far it goes at each frame.
    each: Division,
    ghost within: { frame ≤ frames },
    ghost reached: { IsDivided ((ends.end -ℤ ends.start) *ℤ pos frame) frames gone.quotient gone.remainder },
    ghost grows: { IsDivided (ends.end -ℤ ends.start) frames each.quotient each.remainder },
}

impl Slope {
    /// A line of one frame.
    pub fn new() -> Slope {
        Slope {
            ends: Ends { start: 0, end: 0 },
            frame: 0,
            frames: 1,
            gone: Division {
                quotient: 0,
                remainder: 0,
            },
            each: Division {
                quotient: 0,
                remainder: 0,
            },
        }
    }

    /// A line of `frames` frames, at frame `frame`.
    #[cold]
    #[inline(never)]
    fn at(ends: Ends, frame: u32, frames: u32) -> Slope
        requires within { frame ≤ frames }
        requires some { 0 < frames }
        ensures ends { result.ends ≡ ends }
        ensures frame { result.frame ≡ frame }
        ensures frames { result.frames ≡ frames }
    {
        let whole = distance(ends.start, ends.end);
        let gone = Division::of_multiple(whole, frame, frames);
        let each = Division::new(whole, frames);
        Slope {
            ends,
            frame,
            frames,
            gone,
            each,
        }
    }

    /// The sample at this frame.
    #[tactic(auto, unfolding(crate::specs::Lines::line_at))]
    fn sample(&self) -> i32
        ensures { result ≡ line_at self.now.ends.start self.now.ends.end self.now.frame self.now.frames }
    {
        let ends = self.ends;
        moved(ends.start, self.gone.quotient)
    }

    /// The line at the frame after.
    fn after(self) -> Slope
        requires { self.frame < self.frames }
    {
        Slope {
            ends: self.ends,
            frame: self.frame + 1,
            frames: self.frames,
            gone: self.gone.plus(self.each, self.frames),
            each: self.each,
        }
    }

    /// The line at the frame before.
    fn before(self) -> Slope
        requires { 0 < self.frame }
    {
        Slope {
            ends: self.ends,
            frame: self.frame - 1,
            frames: self.frames,
            gone: self.gone.minus(self.each, self.frames),
            each: self.each,
        }
    }

    /// Goes to a frame of a line. It divides only if it isn't there already.
    fn go_to(&mut self, ends: Ends, frame: u32, frames: u32)
        requires within { frame ≤ frames }
        requires some { 0 < frames }
        ensures ends { self.new.ends ≡ ends }
        ensures frame { self.new.frame ≡ frame }
        ensures frames { self.new.frames ≡ frames }
    {
        if self.frame != frame
            || self.frames != frames
            || self.ends.start != ends.start
            || self.ends.end != ends.end
        {
            *self = Slope::at(ends, frame, frames);
        }
    }

    /// The sample at a frame of a line, as `line_at` gives it. It divides only if the last frame asked for isn't the
    /// one before it. It is inlined, so that a loop keeps the line in registers.
    #[inline(always)]
    pub fn forward(&mut self, start: i32, end: i32, frame: u32, frames: u32) -> i32
        requires { frame < frames }
        ensures { result ≡ line_at start end frame frames }
    {
        self.go_to(Ends { start, end }, frame, frames);
        let sample = self.sample();
        *self = self.after();
        sample
    }

    /// The same from the last frame towards the first one: it divides only if the last frame asked for isn't the one
    /// after it.
    #[inline(always)]
    pub fn backward(&mut self, start: i32, end: i32, frame: u32, frames: u32) -> i32
        requires some { 0 < frame }
        requires within { frame ≤ frames }
        ensures { result ≡ line_at start end frame frames }
    {
        self.go_to(Ends { start, end }, frame, frames);
        let sample = self.sample();
        *self = self.before();
        sample
    }
}
