//! 64 frames of a line that goes on after them.
ghost use Rattle.std.specs.Prelude.{◌≡◌, ◌<◌, ◌≤◌, ◌+◌, ◌-◌, ◌^◌, pos, ◌+ℤ◌, ◌*ℤ◌, ◌-ℤ◌, unsigned_abs, FitsSigned};
ghost use Rattle.std.specs.Int.{w32};
ghost use Rattle.sn_ports.specs.Limits.{block_frames};
ghost use Rattle.sn_fixed.specs.Divisions.{IsDivided};
ghost use Rattle.sn_fixed.specs.Lines.{line_at};
ghost use Rattle.sn_mem.specs.Blocks.{table};
ghost use Rattle.sn_gen.specs.Points.{IsPoint};

use crate::line::Sweep;
use sn_fixed::{Division, distance, moved};
use sn_mem::Block;
use sn_ports::limits::BLOCK_FRAMES;

/// The frames of a block.
pub(crate) const FRAMES: u32 = BLOCK_FRAMES as u32;

/// Lines go on in so many lanes: each frame is made of the one that is so many before it, so that a compiler makes
/// some at once.
const LANES: usize = 8;

/// A frame of a line: its sample, and the remainder of the division that gives it.
#[derive(Clone, Copy)]
pub(crate) struct Point {
    /// The sample.
    pub sample: i32,
    /// What the division leaves.
    pub remainder: u32,
}

/// How far a line goes in eight frames.
#[derive(Clone, Copy)]
struct Stride {
    /// The way of eight frames, divided by the number of frames.
    way: Division,
    /// The least remainder to which that of `way` can't be added.
    room: u32,
}

impl Stride {
    /// The point eight frames on.
    #[inline(always)]
    fn on(self, point: Point) -> Point
        requires way { unsigned_abs self.way.quotient ≤ 2 ^ 33 }
        requires room { self.room + self.way.remainder < 2 ^ 32 }
        requires low { point.remainder < self.room → FitsSigned w32 (point.sample +ℤ self.way.quotient) }
        requires high { self.room ≤ point.remainder → FitsSigned w32 (point.sample +ℤ (self.way.quotient +ℤ pos 1)) }
        ensures under { point.remainder < self.room → (result.sample ≡ point.sample +ℤ self.way.quotient) × (result.remainder ≡ point.remainder + self.way.remainder) }
        ensures over { self.room ≤ point.remainder → (result.sample ≡ point.sample +ℤ (self.way.quotient +ℤ pos 1)) × (result.remainder ≡ point.remainder - self.room) }
    {
        if point.remainder < self.room {
            Point {
                sample: moved(point.sample, self.way.quotient),
                remainder: point.remainder + self.way.remainder,
            }
        } else {
            Point {
                sample: moved(point.sample, self.way.quotient + 1),
                remainder: point.remainder - self.room,
            }
        }
    }
}

/// A line at its next frame. Unlike a `Slope` it isn't given its frame each time: it goes from each frame to the next
/// one.
#[derive(Clone, Copy)]
struct Course {
    line: Sweep,
    /// How far it is from its start at that frame.
    gone: Division,
    /// How far it goes at each frame.
    each: Division,
    ghost within: { line.frame ≤ line.frames },
    ghost reached: { IsDivided ((line.end -ℤ line.start) *ℤ pos line.frame) line.frames gone.quotient gone.remainder },
    ghost grows: { IsDivided (line.end -ℤ line.start) line.frames each.quotient each.remainder },
}

impl Course {
    fn new(line: Sweep) -> Course
        requires within { line.frame ≤ line.frames }
        requires some { 0 < line.frames }
        ensures { result.line ≡ line }
    {
        let whole = distance(line.start, line.end);
        let gone = Division::of_multiple(whole, line.frame, line.frames);
        let each = Division::new(whole, line.frames);
        Course { line, gone, each }
    }

    /// That frame.
    fn point(self) -> Point
        ensures { IsPoint self.line self.line.frame result }
    {
        let line = self.line;
        Point {
            sample: moved(line.start, self.gone.quotient),
            remainder: self.gone.remainder,
        }
    }

    /// How far it goes in eight frames.
    fn stride(self) -> Stride
        requires { 8 ≤ self.line.frames }
        ensures way { IsDivided ((self.line.end -ℤ self.line.start) *ℤ pos 8) self.line.frames result.way.quotient result.way.remainder }
        ensures room { result.room + result.way.remainder ≡ self.line.frames }
    {
        let line = self.line;
        let frames = line.frames;
        let two = self.each.plus(self.each, frames);
        let four = two.plus(two, frames);
        let way = four.plus(four, frames);
        Stride {
            way,
            room: frames - way.remainder,
        }
    }

    /// The line after that frame.
    fn after(self) -> Course
        requires { self.line.frame < self.line.frames }
        ensures { result.line ≡ record self.line { frame = self.line.frame + 1 } }
    {
        let line = self.line;
        let frame = line.frame + 1;
        Course {
            line: Sweep { frame, ..line },
            gone: self.gone.plus(self.each, line.frames),
            each: self.each,
        }
    }
}

/// The samples of 64 frames of a line. Returns the line after them.
pub(crate) fn run_course(line: Sweep, samples: &mut Block) -> Sweep
    requires { line.frame + block_frames ≤ line.frames }
    ensures line { result ≡ record line { frame = line.frame + block_frames } }
    ensures samples { samples.new ≡ table (λ k. line_at line.start line.end (line.frame + k) line.frames) block_frames }
{
    let mut course = Course::new(line);
    let stride = course.stride();
    let mut remainders = [0u32; BLOCK_FRAMES];
    for frame in 0..LANES {
        let point = course.point();
        samples[frame] = point.sample;
        remainders[frame] = point.remainder;
        course = course.after();
    }
    for frame in LANES..BLOCK_FRAMES {
        let before = frame - LANES;
        let (sample, remainder) = (samples[before], remainders[before]);
        let point = stride.on(Point { sample, remainder });
        samples[frame] = point.sample;
        remainders[frame] = point.remainder;
    }
    let frame = line.frame + FRAMES;
    Sweep { frame, ..line }
}
