//! A score of which some lines were read.
ghost use Rattle.std.specs.Prelude.{◌≡◌, ◌<◌, ◌^◌, ◌==◌, not, length, map, IfOk, IsTrue};
ghost use Rattle.std.specs.Option.{option_map};
ghost use Rattle.std.specs.Str.{bytes_eq};
ghost use Rattle.sn_osc.specs.Shape.{shape, message_of};
ghost use Rattle.sn_score.specs.Lines.{message_line, bundle_line};
ghost use Rattle.sn_score.specs.Reached.{score_row, inside, at_start, put, room_of, need_of, has_room, with_packet, has_place, opened, bundle_of, closed, after_message, after_opening, after_line, packets_of};
ghost use Rattle.sn_score.specs.Answers.{Gives, IsSpellingLen, row_of, reached};

use crate::fault::Refused;
use crate::fields::{begins_with, message, tag};
use crate::lines::{put_message, put_opening};
use sn_osc::{
    AT_ONCE, Bundle, Elements, Message, Packet, counts_as, is_early, packet_len, spellable,
};
use sn_ports::limits::{MOST_BUNDLES, MOST_PACKET};
use sn_ports::{NoMemory, Text};
use std::alloc::Global;

/// How deep bundles may nest.
const DEEPEST: usize = MOST_BUNDLES as usize;

/// Most lines have at most this many bytes.
const LINE_BYTES: u32 = 64;

/// Packets one after the other: those of the score, or the elements of a bundle that is open.
#[derive(Drop)]
pub(crate) struct Level {
    /// The bundle's tag.
    tag: u64,
    /// The tag that it counts as.
    around: u64,
    elements: Elements,
}

/// What has been read of a score.
#[derive(Drop)]
pub(crate) struct Draft {
    level: Level,
    /// The levels around it, the nearest last.
    outer: Vec<Level>,
    /// By how many bytes the open packet may still grow.
    room: usize,
}

impl Level {
    /// The packets of the score, of which none has come.
    fn score(alloc: Global) -> Self
        ensures { row_of result ≡ score_row }
    {
        Level {
            tag: AT_ONCE,
            around: AT_ONCE,
            elements: Vec::new(alloc),
        }
    }

    /// The elements of a bundle inside, of which none has come.
    fn inside(&self, alloc: Global, tag: u64) -> Self
        ensures { row_of result ≡ inside (row_of self.now) tag }
    {
        Level {
            tag,
            around: counts_as(self.around, tag),
            elements: Vec::new(alloc),
        }
    }

    /// One element more.
    fn with(self, packet: Packet) -> Result<Self, NoMemory>
        ensures { IfOk result (λ l. row_of l ≡ put (shape packet) (row_of self)) }
    {
        let mut level = self;
        level.elements.push(packet)?;
        Ok(level)
    }

    /// The bundle, which is whole.
    fn into_packet(self) -> Packet
        ensures { shape result ≡ bundle_of (row_of self) }
    {
        Packet::Bundle(Bundle {
            tag: self.tag,
            elements: self.elements,
        })
    }
}

/// Whether the line is the one of this message.
fn is_message_line(alloc: Global, message: &Message, line: &[u8]) -> Result<bool, NoMemory>
    ensures { IfOk result (λ b. b ≡ bytes_eq (message_line (message_of message.now)) line.now) }
{
    let mut written = Text::new(alloc);
    written.reserve(LINE_BYTES)?;
    put_message(&mut written, message)?;
    Ok(written.as_slice() == line)
}

/// Whether the line is the first of a bundle with this tag.
fn is_bundle_line(alloc: Global, tag: u64, line: &[u8]) -> Result<bool, NoMemory>
    ensures { IfOk result (λ b. b ≡ bytes_eq (bundle_line tag) line.now) }
{
    let mut written = Text::new(alloc);
    written.reserve(LINE_BYTES)?;
    put_opening(&mut written, tag)?;
    Ok(written.as_slice() == line)
}

/// How many bytes the packet spells in, if they are no more than a packet may have.
fn spelling_len(packet: &Packet) -> Option<usize>
    ensures { IsSpellingLen result (shape packet.now) }
{
    if !spellable(packet) {
        return None;
    }
    let len = packet_len(packet) as usize;
    if len > MOST_PACKET {
        return None;
    }
    Some(len)
}

impl Draft {
    /// Nothing has been read.
    pub fn new(alloc: Global) -> Self
        ensures { reached result ≡ at_start }
    {
        Draft {
            level: Level::score(alloc),
            outer: Vec::new(alloc),
            room: 0,
        }
    }

    /// Whether a bundle is open.
    fn is_open(&self) -> bool
        ensures { result ≡ not (length (reached self.now).outer == 0) }
    {
        !self.outer.is_empty()
    }

    /// The room of a packet that comes next.
    fn room(&self) -> usize
        ensures { result ≡ room_of (reached self.now) }
    {
        if self.is_open() {
            return self.room;
        }
        MOST_PACKET
    }

    /// How much room a packet of `bytes` bytes needs: an element stands after the 4 bytes of its size.
    fn need(&self, bytes: usize) -> usize
        requires { bytes < 2 ^ 31 }
        ensures { result ≡ need_of (reached self.now) bytes }
    {
        if self.is_open() {
            return 4 + bytes;
        }
        bytes
    }

    /// Whether there is room for a packet of `bytes` bytes.
    fn has_room(&self, bytes: usize) -> bool
        requires { bytes < 2 ^ 31 }
        ensures { result ≡ has_room (reached self.now) bytes }
    {
        self.need(bytes) <= self.room()
    }

    /// One more packet, of `bytes` bytes, if there is room for it.
    fn with_packet(self, packet: Packet, bytes: usize) -> Result<Self, Refused>
        requires { bytes < 2 ^ 31 }
        ensures { Gives result (with_packet (reached self) (shape packet) bytes) }
    {
        if !self.has_room(bytes) {
            return Err(Refused::Fault);
        }
        let room = self.room() - self.need(bytes);
        let level = self.level.with(packet)?;
        Ok(Draft {
            level,
            outer: self.outer,
            room,
        })
    }

    /// One more line, of a message.
    #[tactic(auto, unfolding(crate::specs::Reached::after_message_line))]
    fn with_message(self, alloc: Global, line: &[u8]) -> Result<Self, Refused>
        ensures { Gives result (after_message (reached self) line.now) }
    {
        let message = message(alloc, line)?;
        if !is_message_line(alloc, &message, line)? {
            return Err(Refused::Fault);
        }
        let packet = Packet::Message(message);
        match spelling_len(&packet) {
            Some(bytes) => self.with_packet(packet, bytes),
            None => Err(Refused::Fault),
        }
    }

    /// Whether a bundle of this tag may stand here, and has room.
    fn has_place(&self, tag: u64) -> bool
        ensures { result ≡ has_place (reached self.now) tag }
    {
        self.outer.len() < DEEPEST && !is_early(self.level.around, tag) && self.has_room(16)
    }

    /// One bundle more is open.
    fn opened(self, alloc: Global, tag: u64) -> Result<Self, NoMemory>
        requires { IsTrue (has_place (reached self) tag) }
        ensures { IfOk result (λ d. reached d ≡ opened (reached self) tag) }
    {
        let room = self.room() - self.need(16);
        let level = self.level.inside(alloc, tag);
        let mut outer = self.outer;
        outer.push(self.level)?;
        Ok(Draft { level, outer, room })
    }

    /// One more line, the first of a bundle.
    #[tactic(auto, unfolding(crate::specs::Reached::after_opening))]
    fn with_opening(self, alloc: Global, line: &[u8]) -> Result<Self, Refused>
        ensures { Gives result (after_opening (reached self) line.now) }
    {
        let tag = tag(line);
        if !is_bundle_line(alloc, tag, line)? {
            return Err(Refused::Fault);
        }
        if !self.has_place(tag) {
            return Err(Refused::Fault);
        }
        Ok(self.opened(alloc, tag)?)
    }

    /// The innermost bundle is whole.
    fn closed(self) -> Result<Self, Refused>
        ensures { Gives result (closed (reached self).row (reached self).outer (reached self).room) }
    {
        let mut outer = self.outer;
        match outer.pop() {
            Some(next) => {
                let level = next.with(self.level.into_packet())?;
                Ok(Draft {
                    level,
                    outer,
                    room: self.room,
                })
            }
            None => Err(Refused::Fault),
        }
    }

    /// One line more.
    #[tactic(auto, unfolding(crate::specs::Reached::after_line))]
    pub fn with_line(self, alloc: Global, line: &[u8]) -> Result<Self, Refused>
        ensures { Gives result (after_line (reached self) line.now) }
    {
        if line == b"]".as_slice() {
            return self.closed();
        }
        if begins_with(line, b'[') {
            return self.with_opening(alloc, line);
        }
        self.with_message(alloc, line)
    }

    /// The packets, if no bundle is open.
    pub fn into_packets(self) -> Option<Elements>
        ensures { option_map (λ v. map shape v.items) result ≡ packets_of (reached self) }
    {
        if !self.is_open() {
            return Some(self.level.elements);
        }
        None
    }
}
