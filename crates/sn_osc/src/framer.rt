//! A stream that comes in pieces, cut into frames.
ghost use Rattle.std.specs.Prelude.{◌≡◌, ◌⊎◌, ◌≤◌, ◌<◌, ◌+◌, ◌-◌, ◌^◌, ◌++◌, ◌∷◌, ℕ, List, [], length, drop, vec_len, vec_capacity, IfOk, OnOk, OnErr};
ghost use Rattle.sn_ports.specs.Limits.{most_count};
ghost use Rattle.sn_osc.specs.Framed.{fed_with, Next, NextWhole, HasNoFrame, AreFirst, joined_pieces};

use crate::frame::{Frame, NoFrame, Unframed, first_frame};
use sn_ports::{NoMemory, Text};
use std::alloc::Global;
use std::marker::Model;

/// Cuts a stream that is fed in pieces into frames.
///
/// A contract sees the bytes that are kept, and how many were fed.
#[derive(Drop)]
pub struct Framer {
    alloc: Global,
    /// The bytes that are kept, after some that were given.
    bytes: Vec<u8>,
    /// How many of the bytes were given.
    given: usize,
    fed: u64,
}

impl Model for Framer {
    ghost use Rattle.std.specs.Prelude.{◌≤◌, ◌<◌, ◌+◌, ◌^◌, length, drop};
    ghost use Rattle.sn_osc.specs.Framing.{Framing};

    ghost Value = { Framing };

    ghost view = { λ f. record { kept = drop f.given f.bytes.items; fed = f.fed } };

    ghost invariant = { λ f. (f.given ≤ length f.bytes.items) × (length f.bytes.items < f.given + 2 ^ 32) × (length f.bytes.items ≤ f.given + f.fed) };
}

/// Drops `count` bytes from the start.
fn remove_front(bytes: &mut Vec<u8>, count: usize)
    requires { count ≤ vec_len bytes.old }
    ensures { bytes.new.items ≡ drop count bytes.old.items }
{
    let len = bytes.len();
    bytes.as_mut_slice().copy_within(count..len, 0);
    bytes.truncate(len - count);
}

/// Puts a frame after the others. There must be room for it.
fn put_frame(frames: &mut Vec<Frame>, frame: Frame)
    requires { vec_len frames.old < vec_capacity frames.old }
    ensures { frames.new.items ≡ frames.old.items ++ frame ∷ [] }
{
    match frames.push(frame) {
        Ok(()) => {}
        Err(_) => unreachable!(),
    }
}

impl Framer {
    /// A framer that was fed nothing.
    pub fn new(alloc: Global) -> Self
        ensures { result ≡ record { kept = []; fed = 0 } }
    {
        Framer {
            alloc,
            bytes: Vec::new(alloc),
            given: 0,
            fed: 0,
        }
    }

    /// May move what is kept to the start of the memory. What contracts see stays as it was.
    fn compact(&mut self)
        ensures { self.new ≡ self.old }
    {
        if self.given >= self.bytes.len() - self.given {
            remove_front(&mut self.bytes, self.given);
            self.given = 0;
        }
    }

    /// Appends a piece of the stream to what is kept. After `NoMemory` all is as before.
    pub fn feed(&mut self, piece: &[u8]) -> Result<(), NoMemory>
        requires room { length self.old.kept + length piece.now < 2 ^ 32 }
        requires count { self.old.fed < most_count }
        ensures ok { OnOk result (self.new ≡ fed_with piece.now self.old) }
        ensures err { OnErr result (self.new ≡ self.old) }
    {
        self.compact();
        self.bytes.extend_from_slice(piece)?;
        self.fed += piece.len() as u64;
        Ok(())
    }

    /// The next whole frame, or `None` if what is kept begins with no whole frame and no bad size.
    ///
    /// At a bad size this call and each later one answer `Bad`: what is kept stays, and what is fed comes after it.
    /// After `NoMemory` all is as before.
    pub fn next(&mut self) -> Result<Option<Frame>, Unframed>
        ensures { Next self.old self.new result }
    {
        let kept = self.bytes.len() - self.given;
        let at = self.fed - kept as u64;
        match first_frame(&self.bytes[self.given..]) {
            Ok((packet, _)) => {
                let bytes = Text::from_slice(self.alloc, packet)?;
                self.given += 4 + packet.len();
                Ok(Some(Frame {
                    bytes,
                    place: at + 4,
                }))
            }
            Err(NoFrame::Cut) => Ok(None),
            Err(NoFrame::BadSize(size)) => Err(Unframed::Bad { size, place: at }),
        }
    }

    /// How many bytes are kept.
    pub fn kept(&self) -> u32
        ensures value { result ≡ length self.now.kept }
        ensures inside { length self.now.kept ≤ self.now.fed }
    {
        (self.bytes.len() - self.given) as u32
    }

    /// How many bytes were fed.
    pub fn fed(&self) -> u64
        ensures { result ≡ self.now.fed }
    {
        self.fed
    }

    /// The next whole frame, if one is kept.
    fn next_whole(&mut self) -> Result<Option<Frame>, NoMemory>
        ensures { NextWhole self.old self.new result }
    {
        match self.next() {
            Ok(frame) => Ok(frame),
            Err(Unframed::Bad { .. }) => Ok(None),
            Err(Unframed::NoMemory) => Err(NoMemory),
        }
    }

    /// The next whole frame, if one is kept. Then there is room for it after the frames that were taken before. After
    /// `NoMemory` all is as before.
    fn next_with_room(&mut self, frames: &mut Vec<Frame>) -> Result<Option<Frame>, NoMemory>
        ensures next { NextWhole self.old self.new result }
        ensures frames { frames.new.items ≡ frames.old.items }
        ensures room { OnOk result (vec_len frames.new < vec_capacity frames.new) }
    {
        frames.reserve(1)?;
        self.next_whole()
    }

    /// Takes every whole frame that is kept, and puts it after the frames that were taken before. After `NoMemory`
    /// those that were taken stand there.
    fn take_frames(&mut self, frames: &mut Vec<Frame>) -> Result<(), NoMemory>
        ensures first { (stream : List ℕ) → AreFirst stream frames.old.items self.old → AreFirst stream frames.new.items self.new }
        ensures whole { OnOk result (HasNoFrame self.new.kept) }
    {
        while let Some(frame) = self.next_with_room(frames)? {
            put_frame(frames, frame);
        }
        Ok(())
    }

    /// Feeds a piece, takes every frame that is then whole, and puts it after the frames that were taken before. All of
    /// them are the first frames of the stream up to here, in order, and the rest is kept. After `NoMemory` they are
    /// the first frames too, and the rest is kept, with the piece or without it.
    pub fn feed_and_take(&mut self, piece: &[u8], frames: &mut Vec<Frame>) -> Result<(), NoMemory>
        requires room { length self.old.kept + length piece.now < 2 ^ 32 }
        requires count { self.old.fed < most_count }
        ensures ok { (stream : List ℕ) → AreFirst stream frames.old.items self.old → OnOk result (AreFirst (stream ++ piece.now) frames.new.items self.new × HasNoFrame self.new.kept) }
        ensures err { (stream : List ℕ) → AreFirst stream frames.old.items self.old → OnErr result (AreFirst stream frames.new.items self.new ⊎ AreFirst (stream ++ piece.now) frames.new.items self.new) }
    {
        self.feed(piece)?;
        self.take_frames(frames)
    }
}

/// The frames of a stream that comes in pieces, and the framer that keeps the rest. Whatever the pieces are, these are
/// the first frames of all of them joined, in order.
pub fn frames_of(alloc: Global, pieces: &[Text]) -> Result<(Vec<Frame>, Framer), NoMemory>
    requires { length (joined_pieces pieces.now) < 2 ^ 32 }
    ensures { IfOk result (λ x. AreFirst (joined_pieces pieces.now) x.0.items x.1 × HasNoFrame x.1.kept) }
{
    let mut framer = Framer::new(alloc);
    let mut frames = Vec::new(alloc);
    for piece in pieces {
        framer.feed_and_take(piece.as_slice(), &mut frames)?;
    }
    Ok((frames, framer))
}
