ghost use Rattle.std.specs.Prelude.{◌≡◌};
ghost use Rattle.sn_server.specs.Statuses.{end_status};
ghost use Rattle.sn_server.specs.declared.ended.Ended.TheVariants as ends;

use sn_ports::NoMemory;

/// How a connection ended.
#[derive(Clone, Copy, Debug, PartialEq, Eq)]
pub enum Ended {
    /// `/quit` was accepted, and its replies were sent.
    Quit,
    /// Memory ran out.
    NoMemory,
    /// Nothing more came, and no unfinished frame was kept.
    Closed,
    /// Nothing more came, and `kept` bytes of an unfinished frame were kept.
    Cut { kept: u32 },
    /// A frame has a size that no packet has: below 4, above 65,536 or no multiple of 4.
    BadFrame { size: i32 },
    /// The link failed.
    LinkFault,
    /// The sink for the sound failed.
    SoundFault,
    /// 2^62 bytes came or 2^62 blocks were done, as many as may.
    Worn { bytes: u64, blocks: u64 },
}

impl Ended {
    /// The status of the program.
    pub fn status(&self) -> u8
        ensures { result ≡ end_status self.now }
    {
        match self {
            Ended::Quit | Ended::Closed => 0,
            Ended::NoMemory => 1,
            Ended::SoundFault => 7,
            Ended::Cut { .. } => 10,
            Ended::BadFrame { .. } => 11,
            Ended::LinkFault => 12,
            Ended::Worn { .. } => 17,
        }
    }
}

impl From<NoMemory> for Ended {
    ghost from_gives = { λ _ e. e ≡ ends.NoMemory };

    fn from(_: NoMemory) -> Self {
        Ended::NoMemory
    }
}
