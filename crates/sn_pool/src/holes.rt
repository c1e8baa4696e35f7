//! The free words of a region, as runs that are as long as they can be.
ghost use Rattle.std.specs.Prelude.{◌≡◌, ◌<◌, ◌≤◌, ◌+◌, ◌^◌, ◌||◌, ◌&&◌, ◌⊎◌, not, true, false, ℕ, [], OnOk, IfOk, length};
ghost use Rattle.sn_mem.specs.declared.extents.Extent.{Extent};
ghost use Rattle.sn_mem.specs.Words.{covers, has};
ghost use Rattle.sn_pool.specs.declared.sorted.Order.TheVariants.{Place, Size};
ghost use Rattle.sn_pool.specs.Pools.{times};
ghost use Rattle.sn_pool.specs.Sorting.{AreInOrder, IsOneMore};
ghost use Rattle.sn_pool.specs.Holes.{AreIn, AreParted, AreRuns, IsBeginningAt, IsBeside, IsEndingAt, IsJoined, IsLastTo, IsLeastIn, IsLongestIn, IsPartedBefore, first_of as first_of_runs, least_of as least_of_all, least_place_of};

use crate::sorted::{Order, Sorted};
use sn_mem::Extent;
use sn_ports::NoMemory;
use std::alloc::Global;
use std::marker::Model;

/// The last run that begins at a place or before it, out of runs in the order of their places.
fn last_to(runs: &[Extent], place: u32) -> Option<Extent>
    requires { AreInOrder Place runs.now }
    ensures { IsLastTo place runs.now result }
{
    let number = runs.partition_point(|run| run.at <= place);
    if number == 0 {
        None
    } else {
        Some(runs[number - 1])
    }
}

/// The runs of at least `n` words, out of runs in the order of their lengths.
fn long_runs(runs: &[Extent], n: u32) -> &[Extent]
    requires { AreInOrder Size runs.now }
    ensures long { (e : Extent) → 0 < times e result.now → n ≤ e.len }
    ensures some { (e : Extent) → 0 < times e result.now → 0 < times e runs.now }
    ensures all { (e : Extent) → 0 < times e runs.now → n ≤ e.len → 0 < times e result.now }
{
    let short = runs.partition_point(|run| run.len < n);
    &runs[short..]
}

/// The least of a place and the places of the runs.
fn least_of(place: u32, runs: &[Extent]) -> u32
    ensures { result ≡ least_of_all place runs.now }
{
    let mut least = place;
    for run in runs {
        least = least.min(run.at);
    }
    least
}

/// The least place of the runs.
fn least_place(runs: &[Extent]) -> Option<u32>
    ensures { result ≡ least_place_of runs.now }
{
    let (first, others) = runs.split_first()?;
    Some(least_of(first.at, others))
}

/// The place of the first run of at least `n` words.
fn first_of(runs: &[Extent], n: u32) -> Option<u32>
    ensures { result ≡ first_of_runs n runs.now }
{
    for run in runs {
        if run.len >= n {
            return Some(run.at);
        }
    }
    None
}

/// Runs of free words, by their places and by their lengths. Between two of them stands a word that isn't free.
#[derive(Drop)]
pub struct Holes {
    by_place: Sorted,
    by_size: Sorted,
}

impl Model for Holes {
    ghost use Rattle.std.specs.Prelude.{min};
    ghost use Rattle.sn_pool.specs.Holes.{HolesState};
    ghost use Rattle.sn_pool.specs.HolesKept.{AreHoles};

    ghost Value = { HolesState };

    ghost view = { λ h. record { runs = h.by_place.items; room = min h.by_place.room h.by_size.room } };

    ghost invariant = { AreHoles };
}

impl Holes {
    /// All words of an extent, as one run if there are any.
    pub fn new(alloc: Global, words: Extent) -> Result<Holes, NoMemory>
        requires { words.at + words.len < 2 ^ 32 }
        ensures { IfOk result (λ holes. (x : ℕ) → has holes.runs x ≡ covers words x) }
    {
        let mut holes = Holes {
            by_place: Sorted::new(alloc, Order::Place),
            by_size: Sorted::new(alloc, Order::Size),
        };
        holes.reserve(1)?;
        holes.add(words);
        Ok(holes)
    }

    /// Makes room for `total` runs in all. No room is lost.
    pub fn reserve(&mut self, total: usize) -> Result<(), NoMemory>
        ensures runs { self.new.runs ≡ self.old.runs }
        ensures room { OnOk result (total ≤ self.new.room) }
        ensures grows { self.old.room ≤ self.new.room }
    {
        self.by_place.reserve(total)?;
        self.by_size.reserve(total)
    }

    /// Adds a run that stands apart from the others, if it has a word.
    fn add(&mut self, run: Extent)
        requires fits { run.at + run.len < 2 ^ 32 }
        requires parted { (e : Extent) → 0 < times e self.old.runs → 1 ≤ run.len → AreParted e run }
        requires room { length self.old.runs < self.old.room }
        ensures words { (x : ℕ) → has self.new.runs x ≡ (covers run x || has self.old.runs x) }
        ensures runs { (e : Extent) → 0 < times e self.new.runs → (e ≡ run) ⊎ (0 < times e self.old.runs) }
        ensures len { length self.new.runs ≤ length self.old.runs + 1 }
        ensures room { self.new.room ≡ self.old.room }
    {
        if run.len > 0 {
            self.by_place.insert(run);
            self.by_size.insert(run);
        }
    }

    /// Takes a run out.
    fn remove(&mut self, run: Extent)
        requires { 0 < times run self.old.runs }
        ensures removed { IsOneMore run self.new.runs self.old.runs }
        ensures runs { AreRuns self.old.runs }
        ensures len { length self.new.runs + 1 ≡ length self.old.runs }
        ensures room { self.new.room ≡ self.old.room }
    {
        self.by_place.remove(run);
        self.by_size.remove(run);
    }

    /// The run that ends at a place.
    fn ending_at(&self, place: u32) -> Option<Extent>
        ensures { IsEndingAt place self.now.runs result }
    {
        match last_to(self.by_place.as_slice(), place) {
            Some(run) if run.at + run.len == place => Some(run),
            _ => None,
        }
    }

    /// The run that begins at a place.
    fn beginning_at(&self, place: u32) -> Option<Extent>
        ensures { IsBeginningAt place self.now.runs result }
    {
        match last_to(self.by_place.as_slice(), place) {
            Some(run) if run.at == place => Some(run),
            _ => None,
        }
    }

    /// The run together with the one that ends where it begins, which is taken out, if there is one.
    fn joined_before(&mut self, run: Extent) -> Extent
        requires fits { run.at + run.len < 2 ^ 32 }
        requires beside { IsBeside self.old.runs run }
        ensures joined { IsJoined self.old.runs run self.new.runs result }
        ensures end { result.at + result.len ≡ run.at + run.len }
        ensures beside { IsPartedBefore self.new.runs result }
        ensures room { self.new.room ≡ self.old.room }
    {
        match self.ending_at(run.at) {
            Some(other) => {
                self.remove(other);
                Extent {
                    at: other.at,
                    len: other.len + run.len,
                }
            }
            None => run,
        }
    }

    /// The run together with the one that begins where it ends, which is taken out, if there is one.
    fn joined_after(&mut self, run: Extent) -> Extent
        requires fits { run.at + run.len < 2 ^ 32 }
        requires beside { IsPartedBefore self.old.runs run }
        ensures joined { IsJoined self.old.runs run self.new.runs result }
        ensures fits { result.at + result.len < 2 ^ 32 }
        ensures parted { (e : Extent) → 0 < times e self.new.runs → AreParted e result }
        ensures room { self.new.room ≡ self.old.room }
    {
        match self.beginning_at(run.at + run.len) {
            Some(other) => {
                self.remove(other);
                Extent {
                    at: run.at,
                    len: run.len + other.len,
                }
            }
            None => run,
        }
    }

    /// Makes the words of an extent free. None of them may be free before.
    pub fn release(&mut self, extent: Extent)
        requires some { 1 ≤ extent.len }
        requires fits { extent.at + extent.len < 2 ^ 32 }
        requires used { (x : ℕ) → covers extent x ≡ true → has self.old.runs x ≡ false }
        requires room { length self.old.runs < self.old.room }
        ensures words { (x : ℕ) → has self.new.runs x ≡ (covers extent x || has self.old.runs x) }
        ensures room { self.new.room ≡ self.old.room }
    {
        self.layout();
        let run = self.joined_before(extent);
        let run = self.joined_after(run);
        self.add(run);
    }

    /// Takes words out of a run that they lie in.
    fn split(&mut self, run: Extent, extent: Extent)
        requires run { 0 < times run self.old.runs }
        requires some { 1 ≤ extent.len }
        requires inside { (run.at ≤ extent.at) × (extent.at + extent.len ≤ run.at + run.len) }
        requires room { length self.old.runs < self.old.room }
        ensures words { (x : ℕ) → has self.new.runs x ≡ (has self.old.runs x && not (covers extent x)) }
        ensures room { self.new.room ≡ self.old.room }
    {
        self.remove(run);
        let end = extent.at + extent.len;
        self.add(Extent {
            at: run.at,
            len: extent.at - run.at,
        });
        self.add(Extent {
            at: end,
            len: run.at + run.len - end,
        });
    }

    /// Makes the words of an extent used. Each of them must be free.
    pub fn fill(&mut self, extent: Extent)
        requires some { 1 ≤ extent.len }
        requires free { AreIn self.old.runs extent.at extent.len }
        requires room { length self.old.runs < self.old.room }
        ensures words { (x : ℕ) → has self.new.runs x ≡ (has self.old.runs x && not (covers extent x)) }
        ensures room { self.new.room ≡ self.old.room }
    {
        match last_to(self.by_place.as_slice(), extent.at) {
            Some(run) => self.split(run, extent),
            None => unreachable!(),
        }
    }

    /// The least place of `n` free words, found in the shorter of two ways: among the runs that are long enough, or by
    /// place.
    pub fn least(&self, n: u32) -> Option<u32>
        requires { 1 ≤ n }
        ensures { IsLeastIn self.now.runs n result }
    {
        let by_place = self.by_place.as_slice();
        let long = long_runs(self.by_size.as_slice(), n);
        if long.len() <= by_place.len() / 2 {
            least_place(long)
        } else {
            first_of(by_place, n)
        }
    }

    /// The number of words of the longest run, or 0 if there is none.
    pub fn longest(&self) -> u32
        ensures { IsLongestIn self.now.runs result }
    {
        let runs = self.by_size.as_slice();
        let number = runs.len();
        if number == 0 { 0 } else { runs[number - 1].len }
    }

    /// States what holds of the runs of every value. It does nothing.
    pub fn layout(&self)
        ensures runs { AreRuns self.now.runs }
        ensures sorted { AreInOrder Place self.now.runs }
    {
        let _ = self.by_place.as_slice();
    }
}
