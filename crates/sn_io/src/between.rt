//! The points between the frames of a buffer that units read, one or none at each frame of a block.
//!
//! A place is counted in parts of a frame: 2^24 of them are one frame.
ghost use Rattle.std.specs.Prelude.{◌≡◌, ◌<◌, ◌≤◌, ◌*◌, ◌^◌, ◌*ℤ◌, IfSome, length, pos, unsigned_abs};
ghost use Rattle.sn_fixed.specs.Fixed.{floor};
ghost use Rattle.sn_fixed.specs.Lines.{IsBetween};
ghost use Rattle.sn_io.specs.Between.{between, next_frame, point_of, point_at, wrapped, held_place, scaled_point, scaled_points};

use sn_fixed::{distance, moved};
use sn_mem::Blocks;
use sn_ports::limits::BLOCK_FRAMES;

/// A point between two frames of a buffer.
#[derive(Clone, Copy)]
pub(crate) struct Point {
    /// The frame before it.
    pub frame: u32,
    /// The frame after it.
    pub next: u32,
    /// How far it lies from the one to the other, of which 2^24 is the whole way.
    pub part: u32,
}

/// A point or none, for each frame of a block.
pub(crate) type Points = [Option<Point>; BLOCK_FRAMES];

fn scaled_part(way: i64, part: u32) -> i64
    requires way { unsigned_abs way ≤ 2 ^ 33 }
    requires part { part < 16777216 }
    ensures { result ≡ floor (way *ℤ pos part) 16777216 }
{
    (way * i64::from(part)).div_euclid(16_777_216)
}

/// A part of the way between two samples, rounded down.
fn part_of(way: i64, part: u32) -> i64
    requires way { unsigned_abs way ≤ 2 ^ 33 }
    requires part { part < 16777216 }
    ensures value { result ≡ floor (way *ℤ pos part) 16777216 }
    ensures between { IsBetween result way }
{
    scaled_part(way, part)
}

/// The sample on the straight line from `start` to `end`, `part` parts after the start, rounded down.
#[tactic(auto, unfolding(crate::specs::Between::between))]
pub(crate) fn between(start: i32, end: i32, part: u32) -> i32
    requires { part < 16777216 }
    ensures { result ≡ between start end part }
{
    moved(start, part_of(distance(start, end), part))
}

/// The parts of so many frames.
fn parts_of(frames: u32) -> i64
    ensures { result ≡ pos (frames * 16777216) }
{
    i64::from(frames) * 16_777_216
}

/// The frame after a frame: that after the last is the first if `looping` is above 0, else the last itself.
fn next_frame(frames: u32, looping: i32, frame: u32) -> u32
    requires { frame < frames }
    ensures { result ≡ next_frame frames looping frame }
{
    let next = frame + 1;
    if next != frames {
        next
    } else if looping > 0 {
        0
    } else {
        frame
    }
}

fn point_of(frames: u32, looping: i32, place: u64) -> Point
    requires { place < frames * 16777216 }
    ensures { result ≡ point_of frames looping place }
{
    let frame = (place / 16_777_216) as u32;
    Point {
        frame,
        next: next_frame(frames, looping, frame),
        part: (place % 16_777_216) as u32,
    }
}

/// The point at a place, if that lies in a buffer of `frames` frames.
pub(crate) fn point_at(frames: u32, looping: i32, place: i64) -> Option<Point>
    ensures { result ≡ point_at frames looping place }
{
    if place >= 0 && place < parts_of(frames) {
        Some(point_of(frames, looping, place as u64))
    } else {
        None
    }
}

/// A place modulo the frames.
pub(crate) fn wrapped(frames: u32, place: i64) -> i64
    requires { 1 ≤ frames }
    ensures { result ≡ wrapped frames place }
{
    place.rem_euclid(parts_of(frames))
}

/// A place modulo the frames if `looping` is above 0, else the nearest from that of the first frame to that of the
/// last.
fn held_place(frames: u32, looping: i32, place: i64) -> i64
    requires { 1 ≤ frames }
    ensures { result ≡ held_place frames looping place }
{
    if looping > 0 {
        wrapped(frames, place)
    } else {
        place.min(parts_of(frames - 1)).max(0)
    }
}

/// The exact product of two samples.
fn product(index: i32, scale: i32) -> i64
    ensures { result ≡ index *ℤ scale }
{
    i64::from(index) * i64::from(scale)
}

/// The point at `index` times `scale`, if there is a buffer.
fn scaled_point(frames: Option<u32>, index: i32, scale: i32, looping: i32) -> Option<Point>
    requires { IfSome frames (λ n. 1 ≤ n) }
    ensures { result ≡ scaled_point frames index scale looping }
{
    match frames {
        Some(frames) => {
            let place = held_place(frames, looping, product(index, scale));
            point_at(frames, looping, place)
        }
        None => None,
    }
}

/// BufRdL: the points that the second and the third input name.
pub(crate) fn scaled_points(frames: Option<u32>, inputs: &Blocks) -> Points
    requires some { IfSome frames (λ n. 1 ≤ n) }
    requires inputs { 4 ≤ length inputs.now }
    ensures { result ≡ scaled_points frames inputs.now }
{
    let mut found = [None; BLOCK_FRAMES];
    for frame in 0..BLOCK_FRAMES {
        let index = inputs.at(1, frame);
        let scale = inputs.at(2, frame);
        found[frame] = scaled_point(frames, index, scale, inputs.at(3, frame));
    }
    found
}
