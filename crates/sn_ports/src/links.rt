ghost use Rattle.std.specs.Prelude.{◌≡◌, ◌<◌, List, ℕ, OnOk, length};
ghost use Rattle.std.specs.Io.KnownBytes.{Keeps, WriteAppends};
ghost use Rattle.std.specs.declared.option.Option.{Option};
ghost use Rattle.sn_ports.specs.Causes.{HasCause};
ghost use Rattle.sn_ports.specs.Links.{LinkEvent, KeepsEvents, NextTakes, FeedsWithin};
ghost use Rattle.sn_ports.specs.Transfer.{WritesSome};

use crate::failed::Failed;
use crate::text::Text;

/// What comes over a connection. `PlayedLink` asks for pieces with a byte or more, and ticks of 1 to 1,024 blocks.
#[derive(Debug, Drop)]
pub enum Event {
    /// A piece of bytes.
    Bytes(Text),
    /// This many blocks are due.
    Ticks(u32),
}

/// Events, the next one first.
pub type Events = Vec<Event>;

/// What a link gave.
#[derive(Clone, Copy, Debug, PartialEq, Eq)]
pub enum Fed {
    /// This many bytes, one or more.
    Bytes(usize),
    /// This many blocks are due, 1 to 1,024.
    Ticks(u32),
    /// Nothing more comes.
    End,
}

/// A connection: what comes over it, in order, and where replies go.
pub trait Link {
    /// The events that are left, if they are known.
    ghost left: { Self → Option (List LinkEvent) };

    /// The bytes that were sent, if they are known.
    ghost sent: { Self → Option (List ℕ) };

    /// A count of failures: a call that answers leaves it, and one that fails raises it while it is below 2^64 - 1.
    ghost faults: { Self → ℕ };

    /// Moves a prefix of the bytes that come next into `into`, or takes the blocks that are due next.
    fn next(&mut self, into: &mut [u8]) -> Result<Fed, Failed>
        requires room { 0 < length into.old }
        ensures bound { FeedsWithin result into.new }
        ensures events { NextTakes (left self.old) (left self.new) result into.new }
        ensures sent { Keeps (sent self.old) (sent self.new) }
        ensures cause { HasCause (faults self.old) (faults self.new) result }
        ensures unfailed { OnOk result (faults self.new ≡ faults self.old) };

    /// Sends a prefix of the piece, of at least one byte if there is one.
    fn send(&mut self, piece: &[u8]) -> Result<usize, Failed>
        ensures bound { WritesSome result piece.now }
        ensures bytes { WriteAppends (sent self.old) (sent self.new) result piece.now }
        ensures events { KeepsEvents (left self.old) (left self.new) }
        ensures cause { HasCause (faults self.old) (faults self.new) result }
        ensures unfailed { OnOk result (faults self.new ≡ faults self.old) };
}
