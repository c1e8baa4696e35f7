ghost use Rattle.std.specs.Prelude.{◌≡◌, ◌<◌, ◌+◌, ◌↔◌, IsTrue, List, [], map, length, false, OnOk, OnErr};
ghost use Rattle.std.specs.List.{AllByRecursion, list_any};
ghost use Rattle.std.specs.Option.{option_map};
ghost use Rattle.sn_ports.specs.Limits.{most_count};
ghost use Rattle.sn_osc.specs.Shape.{message_of};
ghost use Rattle.sn_queue.specs.Time.{due, key_of, acts_at};
ghost use Rattle.sn_queue.specs.Waiting.{WaitingList, IsInOrder};
ghost use Rattle.sn_queue.specs.Meaning.{waiting_of};
ghost use Rattle.sn_queue.specs.Steps.{put, due_of, first_due, without_first_due, is_due, last_due, clear_after, count_after};

use crate::clock::Clock;
use crate::entry::{Batch, Entry, Rank, Unput};
use crate::messages::Messages;
use crate::time::due;
use std::alloc::Global;
use std::collections::BTreeMap;
use std::marker::Model;

/// Entries that wait for their time.
#[derive(Debug, Drop)]
pub struct Queue {
    clock: Clock,
    limit: Option<u32>,
    puts: u64,
    waiting: BTreeMap<Rank, Batch>,
}

impl Model for Queue {
    ghost use Rattle.sn_queue.specs.Waiting.{WaitingList};

    ghost Value = { WaitingList };

    ghost use Rattle.sn_queue.specs.Meaning.{meaning, IsKept};

    ghost view = { meaning };

    ghost invariant = { IsKept };
}

impl Queue {
    /// An empty queue, in which at most `limit` entries wait. `base` is the time of block 0 as a time tag, and `rate`
    /// is in frames a second.
    pub fn new(alloc: Global, base: u64, rate: u32, limit: Option<u32>) -> Self
        requires { 0 < rate }
        ensures { result ≡ record { base = base; rate = rate; limit = limit; puts = 0; waiting = [] } }
    {
        Queue {
            clock: Clock::new(base, rate),
            limit,
            puts: 0,
            waiting: BTreeMap::new(alloc),
        }
    }

    /// How many entries wait.
    pub fn len(&self) -> u64
        ensures value { result ≡ length self.now.waiting }
        ensures order { IsInOrder self.now }
    {
        self.waiting.len() as u64
    }

    /// How many entries were ever put.
    pub fn puts(&self) -> u64
        ensures { result ≡ self.now.puts }
    {
        self.puts
    }

    /// Whether as many entries wait as may.
    pub fn is_full(&self) -> bool
        ensures { IsTrue result ↔ (self.now.limit ≡ Some (length self.now.waiting)) }
    {
        match self.limit {
            Some(limit) => self.len() == u64::from(limit),
            None => false,
        }
    }

    /// Puts messages that arrive at `boundary`. They act by their tag, or at `boundary` if that is later; a tag of 1
    /// counts as the time of `boundary`.
    ///
    /// `QueueFull` comes exactly if as many entries wait as may. A queue that refuses stays as it was, and drops the
    /// messages.
    pub fn put(
        &mut self,
        tag: u64,
        boundary: u64,
        from: u32,
        messages: Messages,
    ) -> Result<(), Unput>
        requires boundary { boundary < most_count }
        requires puts { self.old.puts < most_count }
        ensures full { (result ≡ Err Unput.QueueFull) ↔ (self.old.limit ≡ Some (length self.old.waiting)) }
        ensures put { OnOk result (self.new ≡ put self.old tag boundary from (map message_of messages)) }
        ensures refused { OnErr result (self.new ≡ self.old) }
        ensures order { IsInOrder self.new }
        ensures acts_at { OnOk result (due (key_of tag boundary self.old.base self.old.rate) self.old.base self.old.rate ≡ acts_at tag boundary self.old.base self.old.rate) }
    {
        if self.is_full() {
            return Err(Unput::QueueFull);
        }
        let rank = Rank {
            key: self.clock.key(tag, boundary),
            number: self.puts,
        };
        self.waiting.insert(rank, Batch { from, messages })?;
        self.puts += 1;
        Ok(())
    }

    /// Whether an entry waits that is due at boundary `now` or before.
    pub fn has_due(&self, now: u64) -> bool
        ensures { result ≡ list_any (is_due self.now now) self.now.waiting }
    {
        match self.waiting.first_key_value() {
            Some((rank, _)) => due(rank.key, self.clock.base, self.clock.rate) <= now,
            None => false,
        }
    }

    /// Takes the first entry that is due at boundary `now` or before. `None` comes exactly if none is, and then the
    /// queue is as it was.
    pub fn take_due(&mut self, now: u64) -> Option<Entry>
        ensures taken { option_map waiting_of result ≡ first_due self.old now }
        ensures left { self.new ≡ without_first_due self.old now }
        ensures none { (result ≡ None) ↔ AllByRecursion (λ w. now < due_of self.old w) self.old.waiting }
        ensures order { IsInOrder self.new }
    {
        if !self.has_due(now) {
            return None;
        }
        let (rank, batch) = self.waiting.pop_first()?;
        Some(Entry::of(rank, batch))
    }

    /// The greatest due number of the entries that wait. `None` comes exactly if none waits.
    pub fn last(&self) -> Option<u64>
        ensures value { result ≡ last_due self.now }
        ensures none { (result ≡ None) ↔ (self.now.waiting ≡ []) }
    {
        let (rank, _) = self.waiting.last_key_value()?;
        Some(due(rank.key, self.clock.base, self.clock.rate))
    }

    /// Drops the last entry if it is due after `now`, and returns whether it did.
    fn drop_last_after(&mut self, now: u64) -> bool
        ensures same { clear_after self.new now ≡ clear_after self.old now }
        ensures shorter { IsTrue result → length self.new.waiting < length self.old.waiting }
        ensures done { result ≡ false → clear_after self.new now ≡ self.new }
    {
        match self.last() {
            Some(last) if last > now => self.waiting.pop_last().is_some(),
            _ => false,
        }
    }

    /// Drops the entries that are due after boundary `now`, and returns how many they were.
    pub fn clear_after(&mut self, now: u64) -> u64
        ensures left { self.new ≡ clear_after self.old now }
        ensures dropped { result ≡ count_after self.old now }
        ensures order { IsInOrder self.new }
    {
        let before = self.len();
        while self.drop_last_after(now) {}
        before - self.len()
    }
}
