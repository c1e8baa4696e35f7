//! A region of words: its live extents, and the runs of free words between them.
ghost use Rattle.std.specs.Prelude.{◌≡◌, ◌<◌, ◌≤◌, ◌+◌, ◌^◌, [], OnOk, IfOk, length};
ghost use Rattle.sn_mem.specs.declared.extents.Extent.{Extent};
ghost use Rattle.sn_pool.specs.Pools.{AreLaidOut, times, with_extent, without_extent};
ghost use Rattle.sn_pool.specs.Gaps.{words_of as all_words_of};
ghost use Rattle.sn_pool.specs.Regions.{IsFree, IsLongestRun, LeastPlace, count_free};

use crate::holes::Holes;
use crate::sorted::{Order, Sorted};
use sn_mem::Extent;
use sn_ports::NoMemory;
use std::alloc::Global;
use std::marker::Model;

/// The number of words in no live extent.
#[tactic(auto, using(crate::proofs::LaidOut::words_later, crate::proofs::LaidOut::laid_out_words))]
fn free_words(words: Extent, live: &[Extent]) -> u32
    requires { AreLaidOut words.at (words.at + words.len) live.now }
    ensures { result + all_words_of live.now ≡ words.len }
{
    let mut free = words.len;
    for extent in live {
        free -= extent.len;
    }
    free
}

/// A region, its live extents and its free words. No word is in two live extents, and each other word is free.
#[derive(Drop)]
pub struct Region {
    words: Extent,
    live: Sorted,
    holes: Holes,
}

impl Model for Region {
    ghost use Rattle.std.specs.Prelude.{min, ◌-◌};
    ghost use Rattle.sn_pool.specs.Pools.{RegionState};
    ghost use Rattle.sn_pool.specs.RegionKept.{IsRegion};

    ghost Value = { RegionState };

    ghost view = { λ r. record { words = r.words; live = r.live.items; room = min r.live.room (r.holes.room - 2) } };

    ghost invariant = { IsRegion };
}

impl Region {
    /// The region of an extent without a live one.
    pub fn new(alloc: Global, words: Extent) -> Result<Region, NoMemory>
        requires { words.at + words.len < 2 ^ 32 }
        ensures words { IfOk result (λ region. region.words ≡ words) }
        ensures live { IfOk result (λ region. region.live ≡ []) }
    {
        Ok(Region {
            words,
            live: Sorted::new(alloc, Order::Place),
            holes: Holes::new(alloc, words)?,
        })
    }

    /// Makes room for `more` live extents besides those that are there. No room is lost.
    pub fn reserve(&mut self, more: usize) -> Result<(), NoMemory>
        requires { more ≤ 2 ^ 63 + 1 }
        ensures words { self.new.words ≡ self.old.words }
        ensures live { self.new.live ≡ self.old.live }
        ensures room { OnOk result (length self.old.live + more ≤ self.new.room) }
        ensures grows { self.old.room ≤ self.new.room }
    {
        let total = self.live.as_slice().len() + more;
        self.live.reserve(total)?;
        self.holes.reserve(total + 2)
    }

    /// Makes free words a live extent, for which there is room.
    pub fn fill(&mut self, extent: Extent)
        requires some { 1 ≤ extent.len }
        requires free { IsFree self.old.words self.old.live extent.len extent.at }
        requires room { length self.old.live < self.old.room }
        ensures layout { AreLaidOut self.old.words.at (self.old.words.at + self.old.words.len) self.old.live }
        ensures filled { self.new ≡ record self.old { live = with_extent extent self.old.live } }
        ensures len { length self.new.live ≡ length self.old.live + 1 }
    {
        self.holes.layout();
        self.holes.fill(extent);
        self.live.insert(extent);
    }

    /// Makes a live extent's words free.
    pub fn release(&mut self, extent: Extent)
        requires live { 0 < times extent self.old.live }
        requires room { length self.old.live ≤ self.old.room }
        ensures layout { AreLaidOut self.old.words.at (self.old.words.at + self.old.words.len) self.old.live }
        ensures released { self.new ≡ record self.old { live = without_extent extent self.old.live } }
        ensures len { length self.new.live + 1 ≡ length self.old.live }
    {
        self.holes.layout();
        self.live.remove(extent);
        self.holes.release(extent);
    }

    /// The least place of `n` free words.
    pub fn least(&self, n: u32) -> Option<u32>
        requires { 1 ≤ n }
        ensures { LeastPlace self.now.words self.now.live n result }
    {
        self.holes.least(n)
    }

    /// The number of words of the longest run of free words.
    pub fn longest(&self) -> u32
        ensures { IsLongestRun self.now.words self.now.live result }
    {
        self.holes.longest()
    }

    /// The number of free words.
    pub fn free(&self) -> u32
        ensures { result ≡ count_free self.now.live self.now.words.at self.now.words.len }
    {
        free_words(self.words, self.live.as_slice())
    }

    /// States that the live extents lie in the region, in order and apart. It does nothing.
    pub fn layout(&self)
        ensures live { AreLaidOut self.now.words.at (self.now.words.at + self.now.words.len) self.now.live }
        ensures fits { self.now.words.at + self.now.words.len < 2 ^ 32 }
    {
        let _ = &self.live;
    }
}
