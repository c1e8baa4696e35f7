//! RecordBuf: the frames of a buffer, written one after the other.
ghost use Rattle.std.specs.Prelude.{◌≡◌, ◌<◌};
ghost use Rattle.sn_io.specs.Positions.{records, recorded, record_buf};

use crate::positions::FrameStep;
use sn_mem::{Blocks, Stored, ended};

/// How far a buffer is written.
#[derive(Clone, Copy)]
pub(crate) struct Recording {
    /// The done word, 0 until the end.
    pub done: u64,
    /// The next frame.
    pub position: u32,
}

impl Stored for Recording {
    ghost use Rattle.sn_io.specs.Positions.{recording_in, recording_words};

    ghost size = { 2 };

    ghost loaded = { recording_in };

    ghost stored = { recording_words };

    fn size() -> usize {
        2
    }

    fn load(words: &[u64]) -> Recording {
        Recording {
            done: words[0],
            position: (words[1] % 4_294_967_296) as u32,
        }
    }

    fn store(self, words: &mut [u64]) {
        words.copy_from_slice(&[self.done, u64::from(self.position)]);
    }
}

/// Whether the frame at the position is written.
fn records(frames: u32, recording: Recording, run: i32) -> bool
    ensures { result ≡ records frames recording run }
{
    run > 0 && recording.position < frames
}

/// After a frame was written.
fn recorded(frames: u32, looping: i32, recording: Recording) -> Recording
    requires { recording.position < frames }
    ensures { result ≡ recorded frames looping recording }
{
    let position = recording.position + 1;
    let done = recording.done;
    if position != frames {
        Recording { done, position }
    } else if looping > 0 {
        Recording { done, position: 0 }
    } else {
        Recording {
            done: ended(done),
            position,
        }
    }
}

/// RecordBuf buf# run loop done! signals, with the number of frames of its buffer, if that can be used.
#[derive(Clone, Copy)]
pub(crate) struct RecordBuf {
    /// The number of frames of a buffer that can be used.
    pub frames: Option<u32>,
}

impl FrameStep for RecordBuf {
    ghost use Rattle.sn_io.specs.Positions.{record_buf};

    type State = Recording;

    ghost arity = { λ _. 3 };

    ghost step = { λ u. record_buf u.frames };

    fn next(
        &self,
        recording: Recording,
        inputs: &Blocks,
        frame: usize,
    ) -> (Recording, Option<u32>) {
        match self.frames {
            None => (recording, None),
            Some(frames) => {
                if records(frames, recording, inputs.at(1, frame)) {
                    (
                        recorded(frames, inputs.at(2, frame), recording),
                        Some(recording.position),
                    )
                } else {
                    (recording, None)
                }
            }
        }
    }
}
