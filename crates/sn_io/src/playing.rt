//! PlayBuf: the frames of a buffer, one after the other.
ghost use Rattle.std.specs.Prelude.{◌≡◌, ◌<◌, ◌≤◌, ℕ, Some};
ghost use Rattle.sn_io.specs.Positions.{begun_at, started, looped, played, play_buf};

use crate::positions::{FrameStep, frame_at};
use sn_fixed::{add, rises};
use sn_mem::{Blocks, Stored, ended, sample_of, word_of};

/// How far a buffer is played.
#[derive(Clone, Copy)]
pub(crate) struct Playing {
    /// The done word, 0 until the end.
    pub done: u64,
    /// The last sample of the trigger.
    pub trigger: i32,
    /// A frame, or a number outside.
    pub position: i32,
    /// Whether the first frame has passed.
    pub begun: bool,
}

impl Stored for Playing {
    ghost use Rattle.sn_io.specs.Positions.{playing_in, playing_words};

    ghost size = { 4 };

    ghost loaded = { playing_in };

    ghost stored = { playing_words };

    fn size() -> usize {
        4
    }

    fn load(words: &[u64]) -> Playing {
        Playing {
            done: words[0],
            trigger: sample_of(words[1]),
            position: sample_of(words[2]),
            begun: words[3] != 0,
        }
    }

    fn store(self, words: &mut [u64]) {
        words.copy_from_slice(&[
            self.done,
            word_of(self.trigger),
            word_of(self.position),
            if self.begun { 1 } else { 0 },
        ]);
    }
}

fn begun_at(playing: Playing, start: i32) -> i32
    ensures { result ≡ begun_at playing start }
{
    if playing.begun {
        playing.position
    } else {
        start
    }
}

fn started(playing: Playing, trigger: i32, start: i32) -> i32
    ensures { result ≡ started playing trigger start }
{
    if rises(playing.trigger, trigger) {
        start
    } else {
        begun_at(playing, start)
    }
}

/// A position outside of `frames` frames, modulo the frames if `looping` is above 0.
fn looped(frames: u32, looping: i32, position: i32) -> i32
    requires some { 1 ≤ frames }
    requires few { frames < 2147483648 }
    ensures { result ≡ looped frames looping position }
{
    if frame_at(frames, position).is_none() && looping > 0 {
        i64::from(position).rem_euclid(i64::from(frames)) as i32
    } else {
        position
    }
}

fn played(
    frames: u32,
    playing: Playing,
    trigger: i32,
    step: i32,
    position: i32,
) -> (Playing, Option<u32>)
    ensures { result ≡ played frames playing trigger step position }
{
    let frame = frame_at(frames, position);
    let done = if frame.is_some() {
        playing.done
    } else {
        ended(playing.done)
    };
    let after = Playing {
        done,
        trigger,
        position: add(position, step),
        begun: true,
    };
    (after, frame)
}

/// PlayBuf buf# step trig start loop done!, with the number of frames of its buffer, if that can be used.
#[derive(Clone, Copy)]
pub(crate) struct PlayBuf {
    /// The number of frames of a buffer that can be used, 1 to 2^31 - 1.
    pub frames: Option<u32>,
    ghost some: { (n : ℕ) → frames ≡ Some n → 1 ≤ n },
    ghost few: { (n : ℕ) → frames ≡ Some n → n < 2147483648 },
}

impl FrameStep for PlayBuf {
    ghost use Rattle.sn_io.specs.Positions.{play_buf};

    type State = Playing;

    ghost arity = { λ _. 5 };

    ghost step = { λ u. play_buf u.frames };

    fn next(&self, playing: Playing, inputs: &Blocks, frame: usize) -> (Playing, Option<u32>) {
        let trigger = inputs.at(2, frame);
        let start = inputs.at(3, frame);
        match self.frames {
            None => {
                let position = begun_at(playing, start);
                (
                    Playing {
                        trigger,
                        position,
                        begun: true,
                        ..playing
                    },
                    None,
                )
            }
            Some(frames) => {
                let position = looped(
                    frames,
                    inputs.at(4, frame),
                    started(playing, trigger, start),
                );
                played(frames, playing, trigger, inputs.at(1, frame), position)
            }
        }
    }
}
