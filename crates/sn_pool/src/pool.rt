//! The pool.
ghost use Rattle.std.specs.Prelude.{◌≡◌, ◌≢◌, ◌<◌, ◌≤◌, ◌+◌, ◌^◌, ◌↔◌, ◌++◌, ◌∷◌, if◌then◌else◌, [], IfOk, IfErr, IfSome, OnOk, IsErrOf, AllPairs, Some, None, ℕ, List, length, vec_capacity};
ghost use Rattle.sn_mem.specs.declared.extents.Extent.{Extent};
ghost use Rattle.sn_pool.specs.Pools.{with_extent, without_extent, times, same_extent, mark_of, saved_of, HasRoom, one_given as one_given_of, LiesIn, AreDisjoint, GivesPlace};
ghost use Rattle.sn_pool.specs.Changes.{AreUndoable, IsUndoable, before_change, undone};
ghost use Rattle.sn_pool.specs.Represents.{spent};
ghost use Rattle.sn_pool.specs.declared.pool.Untaken.TheVariants.{NoMemory};
ghost use Rattle.sn_pool.specs.Regions.{LeastPlace, IsLongestRun, count_free, least_place};

use crate::changes::Change;
use crate::region::Region;
use sn_mem::Extent;
use sn_ports::NoMemory;
use std::alloc::Global;
use std::marker::Model;

/// A token for an open journal. Only `begin` makes one, and `undo` or `commit` takes it.
#[derive(Debug, Drop)]
pub struct Mark {
    number: u64,
}

/// Why the pool gave no words.
#[derive(Clone, Copy, Debug, PartialEq, Eq)]
pub enum Untaken {
    /// No run of free words is long enough.
    Full,
    /// Memory ran out.
    NoMemory,
}

impl From<NoMemory> for Untaken {
    ghost from_gives = { λ _ e. e ≡ NoMemory };

    fn from(_: NoMemory) -> Self {
        Untaken::NoMemory
    }
}

/// The number of the open journal, and for how many more calls of `give_back` it has room.
#[derive(Clone, Copy)]
struct OpenJournal {
    number: u64,
    room: u32,
}

/// The journal with room for one call fewer.
fn one_given(journal: Option<OpenJournal>) -> Option<OpenJournal>
    ensures { result ≡ spent journal }
{
    match journal {
        Some(open) => Some(OpenJournal {
            number: open.number,
            room: open.room.saturating_sub(1),
        }),
        None => None,
    }
}

/// Undoes a change.
fn undo_change(region: &mut Region, change: Change)
    requires may { IsUndoable region.old.words region.old.live change }
    requires room { length region.old.live < region.old.room }
    ensures undone { region.new ≡ record region.old { live = before_change change region.old.live } }
    ensures len { length region.new.live ≤ length region.old.live + 1 }
{
    match change {
        Change::Taken(extent) => region.release(extent),
        Change::Given(extent) => region.fill(extent),
    }
}

/// Undoes the changes, the last first, and forgets them.
fn undo_changes(region: &mut Region, changes: &mut Vec<Change>)
    requires may { AreUndoable region.old.words changes.old.items region.old.live }
    requires room { length region.old.live + length changes.old.items ≤ region.old.room }
    ensures undone { region.new ≡ record region.old { live = undone changes.old.items region.old.live } }
    ensures room { length region.new.live ≤ region.new.room }
{
    while let Some(change) = changes.pop() {
        undo_change(region, change);
    }
}

/// Notes a change, if a journal is open. There must be room for it.
fn note(journal: Option<OpenJournal>, changes: &mut Vec<Change>, change: Change)
    requires { IfSome journal (λ _. length changes.old.items < vec_capacity changes.old) }
    ensures noted { IfSome journal (λ _. changes.new.items ≡ changes.old.items ++ change ∷ []) }
    ensures room { vec_capacity changes.new ≡ vec_capacity changes.old }
{
    if journal.is_some() {
        changes.push_reserved(change);
    }
}

/// Makes room for one more live extent and for its change, besides what the open journal may still need.
fn make_room(
    region: &mut Region,
    changes: &mut Vec<Change>,
    journal: Option<OpenJournal>,
) -> Result<(), NoMemory>
    ensures words { region.new.words ≡ region.old.words }
    ensures live { region.new.live ≡ region.old.live }
    ensures changes { changes.new.items ≡ changes.old.items }
    ensures room { OnOk result (length region.old.live + length changes.old.items + 2 ≤ region.new.room) }
    ensures notes { OnOk result (IfSome journal (λ j. length changes.old.items + j.room + 1 ≤ vec_capacity changes.new)) }
    ensures grows { (region.old.room ≤ region.new.room) × (vec_capacity changes.old ≤ vec_capacity changes.new) }
{
    let gives = journal.map_or(0, |open| open.room);
    changes.reserve(gives as usize + 1)?;
    region.reserve(changes.len() + 2)
}

/// The allocator of a region of words: it always gives the least place that is free.
///
/// Contracts see its region, the live extents in the order of their places, and the open journal. The live extents lie
/// in the region, have at least one word each, and no word is in two of them.
#[derive(Drop)]
pub struct Pool {
    region: Region,
    journal: Option<OpenJournal>,
    // Those since the open journal began, the first one first.
    changes: Vec<Change>,
    // The number of the last journal.
    begun: u64,
}

impl Model for Pool {
    ghost use Rattle.sn_pool.specs.Pools.{PoolState};

    ghost Value = { PoolState };

    ghost use Rattle.sn_pool.specs.Represents.{state_of, IsSound};

    ghost view = { state_of };

    ghost invariant = { IsSound };
}

impl Pool {
    /// The pool of the `len` words from `base` on, all of them free.
    pub fn new(alloc: Global, base: u32, len: u32) -> Result<Pool, NoMemory>
        requires { base + len < 2 ^ 32 }
        ensures { IfOk result (λ pool. pool ≡ record { region = record { at = base; len = len }; live = []; journal = None }) }
    {
        Ok(Pool {
            region: Region::new(alloc, Extent { at: base, len })?,
            journal: None,
            changes: Vec::new(alloc),
            begun: 0,
        })
    }

    /// Begins a journal with room for `gives` calls of `give_back`, if none is open. After `NoMemory` the pool is as it
    /// was.
    pub fn begin(&mut self, gives: u32) -> Result<Mark, NoMemory>
        requires { self.old.journal ≡ None }
        ensures begun { IfOk result (λ mark. self.new ≡ record self.old { journal = Some (record { mark = mark; saved = self.old.live; room = gives }) }) }
        ensures refused { IfErr result (λ _. self.new ≡ self.old) }
    {
        self.changes.clear();
        self.changes.reserve(gives as usize)?;
        self.begun = self.begun.wrapping_add(1);
        let number = self.begun;
        self.journal = Some(OpenJournal {
            number,
            room: gives,
        });
        Ok(Mark { number })
    }

    /// Takes `n` words, of which there is at least one, at the least place where they are free. `Full` comes exactly if
    /// there is no such place. After a refusal the pool is as it was.
    pub fn take(&mut self, n: u32) -> Result<Extent, Untaken>
        requires { 1 ≤ n }
        ensures least { IfOk result (λ extent. (extent.len ≡ n) × LeastPlace self.old.region self.old.live n (Some extent.at)) }
        ensures taken { IfOk result (λ extent. self.new ≡ record self.old { live = with_extent extent self.old.live }) }
        ensures counted { IfOk result (λ extent. (e : Extent) → times e self.new.live ≡ (if same_extent e extent then 1 else 0) + times e self.old.live) }
        ensures full { IsErrOf result Untaken.Full ↔ LeastPlace self.old.region self.old.live n None }
        ensures refused { IfErr result (λ _. self.new ≡ self.old) }
        ensures by_trial { GivesPlace result (least_place self.old.region self.old.live n) }
    {
        let Some(at) = self.region.least(n) else {
            return Err(Untaken::Full);
        };
        make_room(&mut self.region, &mut self.changes, self.journal)?;
        let extent = Extent { at, len: n };
        self.region.fill(extent);
        note(self.journal, &mut self.changes, Change::Taken(extent));
        Ok(extent)
    }

    /// Gives back a live extent, for which an open journal has room. It takes no memory.
    #[tactic(auto, using(crate::proofs::Counts::times_without))]
    pub fn give_back(&mut self, extent: Extent)
        requires live { 0 < times extent self.old.live }
        requires room { HasRoom self.old.journal }
        ensures counted { (e : Extent) → times e self.old.live ≡ (if same_extent e extent then 1 else 0) + times e self.new.live }
        ensures given { self.new ≡ record self.old { live = without_extent extent self.old.live; journal = one_given_of self.old.journal } }
    {
        self.region.release(extent);
        note(self.journal, &mut self.changes, Change::Given(extent));
        self.journal = one_given(self.journal);
    }

    /// Ends the journal. The live extents are again those of `begin`. It takes no memory.
    pub fn undo(&mut self, mark: Mark)
        requires { mark_of self.old.journal ≡ Some mark }
        ensures { self.new ≡ record self.old { live = saved_of self.old.journal; journal = None } }
    {
        undo_changes(&mut self.region, &mut self.changes);
        self.journal = None;
    }

    /// Ends the journal. The live extents stay. It takes no memory.
    pub fn commit(&mut self, mark: Mark)
        requires { mark_of self.old.journal ≡ Some mark }
        ensures { self.new ≡ record self.old { journal = None } }
    {
        self.journal = None;
    }

    /// The number of words of the longest run of free words.
    pub fn largest(&self) -> u32
        ensures { IsLongestRun self.now.region self.now.live result }
    {
        self.region.longest()
    }

    /// The number of free words.
    pub fn free(&self) -> u32
        ensures { result ≡ count_free self.now.live self.now.region.at self.now.region.len }
    {
        self.region.free()
    }

    /// States what holds of the live extents of every pool. It does nothing.
    pub fn layout(&self)
        ensures inside { (e : Extent) → 0 < times e self.now.live → LiesIn self.now.region e × (1 ≤ e.len) }
        ensures once { (e : Extent) → times e self.now.live ≤ 1 }
        ensures disjoint { (a b : Extent) → 0 < times a self.now.live → 0 < times b self.now.live → a ≢ b → AreDisjoint a b }
        ensures in_order { AllPairs (λ a b. a.at < b.at) self.now.live }
    {
        self.region.layout();
    }
}
