ghost use Rattle.std.specs.Prelude.{◌≡◌, ◌⊎◌, ◌↔◌, ◌≤◌, ◌+◌, ◌-◌, [], Some, IsTrue, IfOk, OnOk, OnErr, is_err, length, drop, min};
ghost use Rattle.std.specs.Io.{ReadsAtMost};
ghost use Rattle.std.specs.Io.KnownBytes.{ReadConsumes, WriteAppends};
ghost use Rattle.sn_ports.specs.Causes.{HasCause};
ghost use Rattle.sn_ports.specs.Fake.{Played, Kept, FailsNext, counted};
ghost use Rattle.sn_ports.specs.Transfer.{WritesSome};

use crate::calls::Calls;
use crate::failed::{Failed, NoMemory};
use crate::failing::Failing;
use crate::text::Text;
use crate::traits::{Sink, Source};
use std::alloc::Global;
use std::marker::Model;

/// A source over bytes in memory.
///
/// A call gives at most `piece` bytes. The calls whose numbers, from 0, stand in `fails` fail.
#[derive(Debug, Drop)]
pub struct MemorySource {
    bytes: Text,
    at: usize,
    piece: u32,
    failing: Failing,
}

impl Model for MemorySource {
    ghost Value = { Played };

    ghost view = { λ s. record { left = drop s.at s.bytes.bytes; piece = s.piece; fails = s.failing.fails; calls = s.failing.calls; faults = s.failing.faults } };

    ghost invariant = { λ s. (1 ≤ s.piece) × (s.at ≤ length s.bytes.bytes) };
}

impl MemorySource {
    /// A source of these bytes. No call was made yet.
    pub fn new(bytes: Text, piece: u32, fails: Calls) -> Self
        requires { 1 ≤ piece }
        ensures { result ≡ record { left = bytes.bytes; piece = piece; fails = fails; calls = 0; faults = 0 } }
    {
        MemorySource {
            bytes,
            at: 0,
            piece,
            failing: Failing::new(fails),
        }
    }

    /// How many calls failed.
    pub fn faults(&self) -> u64
        ensures { result ≡ self.now.faults }
    {
        self.failing.faults
    }
}

impl Source for MemorySource {
    ghost left = { λ s. Some s.left };

    ghost faults = { λ s. s.faults };

    fn read(&mut self, into: &mut [u8]) -> Result<usize, Failed>
        ensures bound { ReadsAtMost result into.new }
        ensures bytes { ReadConsumes (Some self.old.left) (Some self.new.left) result into.new }
        ensures cause { HasCause self.old.faults self.new.faults result }
        // It fails exactly if the number of the call is one of those that fail.
        ensures fails { IsTrue (is_err result) ↔ FailsNext self.old.fails self.old.calls }
        ensures count { IfOk result (λ n. n ≡ min (min (length self.old.left) self.old.piece) (length into.new)) }
        ensures piece { self.new.piece ≡ self.old.piece }
        ensures listed { self.new.fails ≡ self.old.fails }
        ensures calls { self.new.calls ≡ counted 32 self.old.calls }
        ensures faults { OnErr result (self.new.faults ≡ counted 64 self.old.faults) }
        ensures unfailed { OnOk result (self.new.faults ≡ self.old.faults) }
    {
        if self.failing.begins() {
            return Err(self.failing.fail());
        }
        let left = &self.bytes.as_slice()[self.at..];
        let count = left.len().min(self.piece as usize).min(into.len());
        into[..count].copy_from_slice(&left[..count]);
        self.at += count;
        Ok(count)
    }
}

/// A sink into memory.
///
/// It takes at most `piece` bytes a call, and `capacity` bytes in all. The calls whose numbers, from 0, stand in
/// `fails` fail, and so does each call after the capacity is used up.
#[derive(Debug, Drop)]
pub struct MemorySink {
    bytes: Text,
    capacity: u32,
    piece: u32,
    failing: Failing,
}

impl Model for MemorySink {
    ghost Value = { Kept };

    ghost view = { λ s. record { taken = s.bytes.bytes; capacity = s.capacity; piece = s.piece; fails = s.failing.fails; calls = s.failing.calls; faults = s.failing.faults } };

    ghost invariant = { λ s. (1 ≤ s.piece) × (length s.bytes.bytes ≤ s.capacity) × (s.capacity ≤ length s.bytes.bytes + s.bytes.spare) };
}

impl MemorySink {
    /// An empty sink. No call was made yet.
    pub fn new(alloc: Global, capacity: u32, piece: u32, fails: Calls) -> Result<Self, NoMemory>
        requires { 1 ≤ piece }
        ensures { IfOk result (λ s. s ≡ record { taken = []; capacity = capacity; piece = piece; fails = fails; calls = 0; faults = 0 }) }
    {
        let mut bytes = Text::new(alloc);
        bytes.reserve(capacity)?;
        Ok(MemorySink {
            bytes,
            capacity,
            piece,
            failing: Failing::new(fails),
        })
    }

    /// The bytes that it took.
    pub fn taken(&self) -> &[u8]
        ensures { result.now ≡ self.now.taken }
    {
        self.bytes.as_slice()
    }

    /// How many calls failed.
    pub fn faults(&self) -> u64
        ensures { result ≡ self.now.faults }
    {
        self.failing.faults
    }
}

impl Sink for MemorySink {
    ghost taken = { λ s. Some s.taken };

    ghost faults = { λ s. s.faults };

    fn write(&mut self, piece: &[u8]) -> Result<usize, Failed>
        ensures bound { WritesSome result piece.now }
        ensures bytes { WriteAppends (Some self.old.taken) (Some self.new.taken) result piece.now }
        ensures cause { HasCause self.old.faults self.new.faults result }
        // It fails exactly if the number of the call is one of those that fail, or no capacity is left.
        ensures fails { IsTrue (is_err result) ↔ (FailsNext self.old.fails self.old.calls ⊎ (self.old.capacity ≡ length self.old.taken)) }
        ensures count { IfOk result (λ n. n ≡ min (min (length piece.now) self.old.piece) (self.old.capacity - length self.old.taken)) }
        ensures capacity { self.new.capacity ≡ self.old.capacity }
        ensures at_once { self.new.piece ≡ self.old.piece }
        ensures listed { self.new.fails ≡ self.old.fails }
        ensures calls { self.new.calls ≡ counted 32 self.old.calls }
        ensures faults { OnErr result (self.new.faults ≡ counted 64 self.old.faults) }
        ensures unfailed { OnOk result (self.new.faults ≡ self.old.faults) }
    {
        let room = self.capacity as usize - self.bytes.len();
        if self.failing.begins() || room == 0 {
            return Err(self.failing.fail());
        }
        let count = piece.len().min(self.piece as usize).min(room);
        self.bytes.append_within(&piece[..count]);
        Ok(count)
    }
}
