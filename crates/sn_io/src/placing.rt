//! PlayBufL: a buffer at places that lie a step apart.
ghost use Rattle.std.specs.Prelude.{◌≡◌, ◌<◌, ◌≤◌, IfSome, cond, length};
ghost use Rattle.sn_ports.specs.Limits.{block_frames};
ghost use Rattle.sn_mem.specs.Words.{MayWrite, SameButWords};
ghost use Rattle.sn_mem.specs.Blocks.{put, window};
ghost use Rattle.sn_mem.specs.Done.{ended};
ghost use Rattle.sn_io.specs.Between.{place_of, first_place, started_place, looped_place, next_place, stepped, play_buf_l, play_points};

use crate::between::{Point, Points, point_at, wrapped};
use sn_fixed::rises;
use sn_mem::{Blocks, Port, Stored, ended, load_words, sample_of, store_words, word_of};
use sn_ports::limits::BLOCK_FRAMES;

/// How far a place can lie from the first frame: 2^62 parts.
const FARTHEST: i64 = 4_611_686_018_427_387_904;

/// Where a buffer is played.
#[derive(Clone, Copy)]
pub(crate) struct Placed {
    /// The done word, 0 until the end.
    pub done: u64,
    /// The last sample of the trigger.
    pub trigger: i32,
    /// The place, of which 2^24 is a frame; it may lie outside.
    pub place: i64,
    /// Whether the first frame has passed.
    pub begun: bool,
}

impl Stored for Placed {
    ghost use Rattle.sn_io.specs.Between.{placed_in, placed_words};

    ghost size = { 4 };

    ghost loaded = { placed_in };

    ghost stored = { placed_words };

    fn size() -> usize {
        4
    }

    fn load(words: &[u64]) -> Placed {
        Placed {
            done: words[0],
            trigger: sample_of(words[1]),
            place: words[2].cast_signed(),
            begun: words[3] != 0,
        }
    }

    fn store(self, words: &mut [u64]) {
        words.copy_from_slice(&[
            self.done,
            word_of(self.trigger),
            self.place.cast_unsigned(),
            if self.begun { 1 } else { 0 },
        ]);
    }
}

/// The place of a frame.
fn place_of(frame: i32) -> i64
    ensures { result ≡ place_of frame }
{
    i64::from(frame) * 16_777_216
}

fn first_place(playing: Placed, start: i32) -> i64
    ensures { result ≡ first_place playing start }
{
    if playing.begun {
        playing.place
    } else {
        place_of(start)
    }
}

fn started_place(playing: Placed, trigger: i32, start: i32) -> i64
    ensures { result ≡ started_place playing trigger start }
{
    if rises(playing.trigger, trigger) {
        place_of(start)
    } else {
        first_place(playing, start)
    }
}

/// A place outside of `frames` frames, modulo the frames if `looping` is above 0.
fn looped_place(frames: u32, looping: i32, place: i64) -> i64
    requires { 1 ≤ frames }
    ensures { result ≡ looped_place frames looping place }
{
    if point_at(frames, looping, place).is_none() && looping > 0 {
        wrapped(frames, place)
    } else {
        place
    }
}

/// The next place, at most 2^62 parts from the first frame.
fn next_place(place: i64, step: i32) -> i64
    ensures { result ≡ next_place place step }
{
    let next = place.saturating_add(i64::from(step));
    next.min(FARTHEST).max(-FARTHEST)
}

/// The done word after a frame that lies inside or outside.
fn done_after(done: u64, inside: bool) -> u64
    ensures { result ≡ cond inside done (ended done) }
{
    if inside { done } else { ended(done) }
}

fn stepped(
    frames: u32,
    playing: Placed,
    trigger: i32,
    step: i32,
    looping: i32,
    place: i64,
) -> (Placed, Option<Point>)
    ensures { result ≡ stepped frames playing trigger step looping place }
{
    let point = point_at(frames, looping, place);
    let after = Placed {
        done: done_after(playing.done, point.is_some()),
        trigger,
        place: next_place(place, step),
        begun: true,
    };
    (after, point)
}

/// PlayBufL buf# step trig start loop done!, with the number of frames of its buffer, if that can be used: one frame.
fn next_point(
    frames: Option<u32>,
    playing: Placed,
    inputs: &Blocks,
    frame: usize,
) -> (Placed, Option<Point>)
    requires some { IfSome frames (λ n. 1 ≤ n) }
    requires inputs { 5 ≤ length inputs.now }
    requires frame { frame < block_frames }
    ensures { result ≡ play_buf_l frames playing inputs.now frame }
{
    let trigger = inputs.at(2, frame);
    let start = inputs.at(3, frame);
    match frames {
        None => {
            let place = first_place(playing, start);
            (
                Placed {
                    trigger,
                    place,
                    begun: true,
                    ..playing
                },
                None,
            )
        }
        Some(frames) => {
            let looping = inputs.at(4, frame);
            let place = looped_place(frames, looping, started_place(playing, trigger, start));
            let step = inputs.at(1, frame);
            stepped(frames, playing, trigger, step, looping, place)
        }
    }
}

/// PlayBufL for a block, with its state in the words from `at` on: the points that it reads.
pub(crate) fn play_points<P: Port>(
    frames: Option<u32>,
    port: &mut P,
    at: u32,
    inputs: &Blocks,
) -> Points
    requires some { IfSome frames (λ n. 1 ≤ n) }
    requires inputs { 5 ≤ length inputs.now }
    requires state { MayWrite (P.foot port.old) at 4 }
    ensures words { P.words port.new ≡ put (P.words port.old) at (play_points frames (window (P.words port.old) at 4) inputs.now).0 }
    ensures points { result ≡ (play_points frames (window (P.words port.old) at 4) inputs.now).1 }
    ensures port { SameButWords P.foot P.rest port.old port.new }
{
    let mut words = [0u64; 4];
    load_words(port, at, &mut words);
    let mut state = Placed::load(&words);
    let mut points = [None; BLOCK_FRAMES];
    for frame in 0..BLOCK_FRAMES {
        let (after, point) = next_point(frames, state, inputs, frame);
        state = after;
        points[frame] = point;
    }
    state.store(&mut words);
    store_words(port, at, &words);
    points
}
