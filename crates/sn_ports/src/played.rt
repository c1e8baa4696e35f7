ghost use Rattle.std.specs.Prelude.{◌≡◌, ◌⊎◌, ◌↔◌, ◌<◌, ◌+◌, [], Some, IsTrue, IfOk, OnOk, OnErr, is_err, length, take, min, map};
ghost use Rattle.std.specs.Io.KnownBytes.{Keeps, WriteAppends};
ghost use Rattle.sn_ports.specs.Causes.{HasCause};
ghost use Rattle.sn_ports.specs.Fake.{FailsNext, counted};
ghost use Rattle.sn_ports.specs.Links.{KeepsEvents, NextTakes, FeedsWithin, GivesWhatFits, ArePlayable, event_of};
ghost use Rattle.sn_ports.specs.Transfer.{WritesSome};

use crate::calls::Calls;
use crate::failed::{Failed, NoMemory};
use crate::failing::Failing;
use crate::links::{Event, Events, Fed, Link};
use crate::text::Text;
use std::alloc::Global;
use std::marker::Model;

/// A link that plays events from memory, and keeps what is sent.
///
/// At most `capacity` bytes are sent in all. The calls whose numbers, from 0, stand in `fails` fail, and so does each
/// send that the capacity can't hold. `next` and `send` are numbered together.
#[derive(Debug, Drop)]
pub struct PlayedLink {
    events: Events,
    /// The number of the next event.
    at: usize,
    /// How many of its bytes were given.
    given: usize,
    sent: Text,
    capacity: u32,
    failing: Failing,
}

impl Model for PlayedLink {
    ghost use Rattle.std.specs.Prelude.{◌≤◌, ◌+◌, length, drop};
    ghost use Rattle.sn_ports.specs.Links.{PlayedEvents, events_left, AreLeft};

    ghost Value = { PlayedEvents };

    ghost view = { λ l. record { left = events_left l.given (drop l.at l.events.items); sent = l.sent.bytes; capacity = l.capacity; fails = l.failing.fails; calls = l.failing.calls; faults = l.failing.faults } };

    ghost invariant = { λ l. (l.at ≤ length l.events.items) × AreLeft l.given (drop l.at l.events.items) × (length l.sent.bytes ≤ l.capacity) × (l.capacity ≤ length l.sent.bytes + l.sent.spare) };
}

/// Moves as many of the bytes as there is room for, and returns how many.
fn give(bytes: &[u8], into: &mut [u8]) -> usize
    ensures count { result ≡ min (length bytes.now) (length into.new) }
    ensures bytes { take result into.new ≡ take result bytes.now }
{
    let count = bytes.len().min(into.len());
    into[..count].copy_from_slice(&bytes[..count]);
    count
}

impl PlayedLink {
    /// A link over these events, over which nothing was sent. No call was made yet.
    pub fn new(alloc: Global, events: Events, capacity: u32, fails: Calls) -> Result<Self, NoMemory>
        requires { ArePlayable events.items }
        ensures { IfOk result (λ l. l ≡ record { left = map event_of events.items; sent = []; capacity = capacity; fails = fails; calls = 0; faults = 0 }) }
    {
        let mut sent = Text::new(alloc);
        sent.reserve(capacity)?;
        Ok(PlayedLink {
            events,
            at: 0,
            given: 0,
            sent,
            capacity,
            failing: Failing::new(fails),
        })
    }

    /// The bytes that were sent.
    pub fn sent(&self) -> &[u8]
        ensures { result.now ≡ self.now.sent }
    {
        self.sent.as_slice()
    }

    /// How many calls failed.
    pub fn faults(&self) -> u64
        ensures { result ≡ self.now.faults }
    {
        self.failing.faults
    }
}

impl Link for PlayedLink {
    ghost left = { λ l. Some l.left };

    ghost sent = { λ l. Some l.sent };

    ghost faults = { λ l. l.faults };

    fn next(&mut self, into: &mut [u8]) -> Result<Fed, Failed>
        requires room { 0 < length into.old }
        ensures bound { FeedsWithin result into.new }
        ensures events { NextTakes (Some self.old.left) (Some self.new.left) result into.new }
        ensures given { IfOk result (GivesWhatFits self.old.left (length into.new)) }
        ensures sent { Keeps (Some self.old.sent) (Some self.new.sent) }
        ensures cause { HasCause self.old.faults self.new.faults result }
        // It fails exactly if the number of the call is one of those that fail.
        ensures fails { IsTrue (is_err result) ↔ FailsNext self.old.fails self.old.calls }
        ensures capacity { self.new.capacity ≡ self.old.capacity }
        ensures listed { self.new.fails ≡ self.old.fails }
        ensures calls { self.new.calls ≡ counted 32 self.old.calls }
        ensures faults { OnErr result (self.new.faults ≡ counted 64 self.old.faults) }
        ensures unfailed { OnOk result (self.new.faults ≡ self.old.faults) }
    {
        if self.failing.begins() {
            return Err(self.failing.fail());
        }
        match self.events.get(self.at) {
            None => Ok(Fed::End),
            Some(Event::Ticks(count)) => {
                let count = *count;
                self.at += 1;
                Ok(Fed::Ticks(count))
            }
            Some(Event::Bytes(text)) => {
                let left = &text.as_slice()[self.given..];
                let count = give(left, into);
                if count < left.len() {
                    self.given += count;
                } else {
                    self.at += 1;
                    self.given = 0;
                }
                Ok(Fed::Bytes(count))
            }
        }
    }

    fn send(&mut self, piece: &[u8]) -> Result<usize, Failed>
        ensures bound { WritesSome result piece.now }
        ensures bytes { WriteAppends (Some self.old.sent) (Some self.new.sent) result piece.now }
        ensures events { KeepsEvents (Some self.old.left) (Some self.new.left) }
        ensures cause { HasCause self.old.faults self.new.faults result }
        // It fails exactly if the number of the call is one of those that fail, or the capacity can't hold the piece.
        ensures fails { IsTrue (is_err result) ↔ (FailsNext self.old.fails self.old.calls ⊎ (self.old.capacity < length self.old.sent + length piece.now)) }
        ensures whole { IfOk result (λ n. n ≡ length piece.now) }
        ensures capacity { self.new.capacity ≡ self.old.capacity }
        ensures listed { self.new.fails ≡ self.old.fails }
        ensures calls { self.new.calls ≡ counted 32 self.old.calls }
        ensures faults { OnErr result (self.new.faults ≡ counted 64 self.old.faults) }
        ensures unfailed { OnOk result (self.new.faults ≡ self.old.faults) }
    {
        let room = self.capacity as usize - self.sent.len();
        if self.failing.begins() || piece.len() > room {
            return Err(self.failing.fail());
        }
        self.sent.append_within(piece);
        Ok(piece.len())
    }
}
