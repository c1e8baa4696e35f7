ghost use Rattle.std.specs.Prelude.{◌≡◌};
ghost use Rattle.sn_render.specs.Statuses.{outcome_status};

use sn_osc::StreamFault;

/// How a run ended.
#[derive(Clone, Copy, Debug, PartialEq, Eq)]
pub enum Outcome {
    /// The stream was read to its end, and all bytes were written: the sound has so many blocks of 64 frames.
    Done {
        blocks: u64,
    },
    /// Memory ran out.
    NoMemory,
    /// The words spell no settings. The first bad word has this index, from 0.
    BadWords {
        index: u32,
    },
    /// The stream is no list of framed packets. The packet's number counts from 0, and so does the place, in bytes of
    /// the stream.
    BadStream {
        packet: u32,
        place: u64,
        fault: StreamFault,
    },
    /// The stream has more than 16,777,216 bytes. So many were taken from the source: 16,777,217.
    LongStream {
        bytes: u64,
    },
    /// The sound has so many blocks that its length can't stand in a WAV header.
    LongSound {
        blocks: u64,
    },
    /// The source failed.
    ReadFault,
    /// The sink for the sound failed.
    SoundFault,
    /// The sink for the replies failed.
    ReplyFault,
}

impl Outcome {
    /// The status of the program.
    pub fn status(&self) -> u8
        ensures { result ≡ outcome_status self.now }
    {
        match self {
            Outcome::Done { .. } => 0,
            Outcome::NoMemory => 1,
            Outcome::BadWords { .. } => 2,
            Outcome::BadStream { .. } => 3,
            Outcome::LongStream { .. } => 4,
            Outcome::LongSound { .. } => 5,
            Outcome::ReadFault => 6,
            Outcome::SoundFault => 7,
            Outcome::ReplyFault => 8,
        }
    }
}
