//! Rows of calls of a pool.
ghost use Rattle.std.specs.Prelude.{◌≡◌, ◌≤◌, ◌<◌, ◌+◌, ◌^◌, if◌then◌else◌, None, IfOk, IfSome, OnOk, OnErr, length};
ghost use Rattle.sn_mem.specs.declared.extents.Extent.{Extent};
ghost use Rattle.sn_pool.specs.Pools.{same_extent, times};
ghost use Rattle.sn_calls.specs.Holding.{AreLive};

use crate::line::{Answer, Line, Rows, Unanswered, natural_if_any, number, said};
use sn_mem::Extent;
use sn_pool::{POOL_BASE, Places, Pool, Untaken};
use sn_ports::NoMemory;
use sn_ports::limits::{AUDIO_BUS_COUNT, CONTROL_BUS_COUNT};
use std::alloc::Global;

/// The extents that a pool gave.
type TakenExtents = Vec<Extent>;

/// A pool with no open journal, and the extents that it gave.
#[derive(Drop)]
pub struct PoolRows {
    alloc: Global,
    pool: Pool,
    held: TakenExtents,
}

impl PoolRows {
    /// A pool of 100 words.
    pub fn new(alloc: Global) -> Result<PoolRows, NoMemory>
        ensures { IfOk result (λ rows. (rows.pool.journal ≡ None) × AreLive rows.held.items rows.pool.live) }
    {
        Ok(PoolRows {
            alloc,
            pool: Pool::new(alloc, 0, 100)?,
            held: Vec::new(alloc),
        })
    }
}

/// Where the extent from a word on is among those that are held.
fn place_of(held: &[Extent], at: u32) -> Option<usize>
    ensures { IfSome result (λ i. i < length held.now) }
{
    held.iter().position(|extent| extent.at == at)
}

/// Puts an extent after those that are held.
#[tactic(auto, using(crate::proofs::Counts::counted_in))]
fn hold(held: &mut TakenExtents, extent: Extent) -> Result<(), NoMemory>
    ensures ok { OnOk result ((e : Extent) → times e held.new.items ≡ (if same_extent e extent then 1 else 0) + times e held.old.items) }
    ensures err { OnErr result (held.new.items ≡ held.old.items) }
{
    held.push(extent)?;
    Ok(())
}

/// Takes `n` words, and returns where, if there is a place for them.
#[tactic(auto, using(crate::proofs::Counts::taken_live, crate::proofs::Counts::still_live))]
fn take(pool: &mut Pool, held: &mut TakenExtents, n: u32) -> Result<Option<u32>, Unanswered>
    requires closed { pool.old.journal ≡ None }
    requires live { AreLive held.old.items pool.old.live }
    ensures closed { pool.new.journal ≡ None }
    ensures live { AreLive held.new.items pool.new.live }
{
    if n == 0 {
        return Err(Unanswered::NoRow);
    }
    match pool.take(n) {
        Ok(extent) => {
            hold(held, extent)?;
            Ok(Some(extent.at))
        }
        Err(Untaken::Full) => Ok(None),
        Err(Untaken::NoMemory) => Err(Unanswered::NoMemory),
    }
}

/// A place as a row says it.
fn place_or_full(alloc: Global, place: Option<u32>) -> Answer {
    match place {
        Some(at) => number(alloc, i128::from(at)),
        None => said(alloc, "full"),
    }
}

/// Takes an extent out of those that are held.
#[tactic(auto, using(crate::proofs::Counts::times_at, crate::proofs::Counts::counted_out))]
fn let_go(held: &mut TakenExtents, index: usize) -> Extent
    requires { index < length held.old.items }
    ensures counted { (e : Extent) → times e held.old.items ≡ (if same_extent e result then 1 else 0) + times e held.new.items }
    ensures some { 0 < times result held.old.items }
{
    held.remove(index)
}

/// Gives back the extent that begins at a word.
#[tactic(auto, using(crate::proofs::Counts::live_too, crate::proofs::Counts::given_live))]
fn give(pool: &mut Pool, held: &mut TakenExtents, at: u32) -> Option<u32>
    requires closed { pool.old.journal ≡ None }
    requires live { AreLive held.old.items pool.old.live }
    ensures closed { pool.new.journal ≡ None }
    ensures live { AreLive held.new.items pool.new.live }
{
    let index = place_of(held, at)?;
    let extent = let_go(held, index);
    pool.give_back(extent);
    Some(extent.len)
}

/// Takes `n` words in an open journal.
fn take_more(pool: &mut Pool, n: u32) -> Option<u32>
    requires { 1 ≤ n }
    ensures journal { pool.new.journal ≡ pool.old.journal }
    ensures region { pool.new.region ≡ pool.old.region }
    ensures live { (e : Extent) → times e pool.old.live ≤ times e pool.new.live }
{
    match pool.take(n) {
        Ok(extent) => Some(extent.at),
        Err(_) => None,
    }
}

/// In a journal that is undone: takes `n` words, and gives back an extent that is held. It returns where it took them,
/// and how many words were free before and after it gave the extent back.
fn undone(pool: &mut Pool, extent: Extent, n: u32) -> Result<(Option<u32>, u32, u32), NoMemory>
    requires closed { pool.old.journal ≡ None }
    requires live { 0 < times extent pool.old.live }
    requires some { 1 ≤ n }
    ensures journal { pool.new.journal ≡ None }
    ensures live { pool.new.live ≡ pool.old.live }
{
    let mark = pool.begin(1)?;
    let taken = take_more(pool, n);
    let between = pool.free();
    pool.give_back(extent);
    let after = pool.free();
    pool.undo(mark);
    Ok((taken, between, after))
}

/// In a journal that is kept: takes `n` words.
fn kept(pool: &mut Pool, n: u32) -> Result<Option<u32>, NoMemory>
    requires closed { pool.old.journal ≡ None }
    requires some { 1 ≤ n }
    ensures journal { pool.new.journal ≡ None }
    ensures live { (e : Extent) → times e pool.old.live ≤ times e pool.new.live }
{
    let mark = pool.begin(0)?;
    let taken = take_more(pool, n);
    pool.commit(mark);
    Ok(taken)
}

/// Whether `n` words from a place on are there and not in use.
fn are_free(used: &[bool], from: usize, n: usize) -> bool {
    let words = used.iter().skip(from).take(n);
    words.filter(|word| !**word).count() == n
}

/// The first place where `n` words are free, found by trying each.
fn first_place(used: &[bool], n: usize) -> Option<usize> {
    (0..used.len()).find(|from| are_free(used, *from, n))
}

/// The greatest number of words for which there is such a place.
fn longest(used: &[bool]) -> usize {
    let mut longest = 0;
    for n in 1..=used.len() {
        if first_place(used, n).is_some() {
            longest = n;
        }
    }
    longest
}

/// Marks `n` words from a place on as in use or not.
fn mark(used: &mut [bool], from: usize, n: usize, is_used: bool) {
    for word in used.iter_mut().skip(from).take(n) {
        *word = is_used;
    }
}

/// Whether the pool counts the free words as the search does.
fn counts_agree(pool: &Pool, used: &[bool]) -> bool {
    let free = used.iter().filter(|word| !**word).count();
    pool.free() as usize == free && pool.largest() as usize == longest(used)
}

/// Whether words were taken at a place, or not taken if there is none.
fn is_at(taken: Option<u32>, place: Option<usize>) -> bool {
    match (taken, place) {
        (Some(at), Some(from)) => at as usize == from,
        (None, None) => true,
        _ => false,
    }
}

/// Takes words where the search finds them, or gives back the first extent that is held.
fn turn(
    pool: &mut Pool,
    held: &mut TakenExtents,
    used: &mut [bool],
    number: u32,
) -> Result<bool, Unanswered>
    requires closed { pool.old.journal ≡ None }
    requires live { AreLive held.old.items pool.old.live }
    ensures closed { pool.new.journal ≡ None }
    ensures live { AreLive held.new.items pool.new.live }
{
    let n = number % 7 + 1;
    if number % 5 < 2 {
        if let Some(first) = held.first().copied() {
            let len = give(pool, held, first.at).unwrap_or(0);
            mark(used, first.at as usize, len as usize, false);
        }
        return Ok(true);
    }
    let expected = first_place(used, n as usize);
    let place = take(pool, held, n)?;
    if let Some(from) = expected {
        mark(used, from, n as usize, true);
    }
    Ok(is_at(place, expected))
}

/// `turns` turns, by the numbers of a generator (Numerical Recipes). It returns in how many of them the pool and a
/// search over every place agree.
fn compared(alloc: Global, words: u32, turns: u32) -> Result<u32, Unanswered> {
    let mut pool = Pool::new(alloc, 0, words)?;
    let mut held: TakenExtents = Vec::new(alloc);
    let mut used = vec![in alloc; false; words as usize]?;
    let mut number = 1u32;
    let mut count: u32 = 0;
    for _ in 0..turns {
        number = number.wrapping_mul(1_664_525).wrapping_add(1_013_904_223);
        let agrees = turn(&mut pool, &mut held, &mut used, number >> 16)?;
        if agrees && counts_agree(&pool, &used) {
            count = count.saturating_add(1);
        }
    }
    Ok(count)
}

fn place_said(alloc: Global, place: Extent) -> Answer {
    Ok(format!(in alloc; "{} {}", place.at, place.len)?)
}

/// Where a bus lies, or the pool's region begins.
fn bus(alloc: Global, verb: &str, line: &mut Line<'_>) -> Answer {
    if verb == "base" {
        return number(alloc, i128::from(POOL_BASE));
    }
    let place = line.natural()?;
    match verb {
        "audio" if place < AUDIO_BUS_COUNT => place_said(alloc, Places::audio(place)),
        "control" if place < CONTROL_BUS_COUNT => place_said(alloc, Places::control(place)),
        _ => Err(Unanswered::NoRow),
    }
}

impl PoolRows {
    /// A new pool of `words` words from a base on.
    fn renew(&mut self, base: u32, words: u32) -> Answer
        requires { (self.old.pool.journal ≡ None) × AreLive self.old.held.items self.old.pool.live }
        ensures { (self.new.pool.journal ≡ None) × AreLive self.new.held.items self.new.pool.live }
    {
        if base >= 1 << 31 || words >= 1 << 31 {
            return Err(Unanswered::NoRow);
        }
        let pool = Pool::new(self.alloc, base, words)?;
        self.held = Vec::new(self.alloc);
        self.pool = pool;
        said(self.alloc, "ok")
    }

    /// A step in a journal that is undone, with the first extent that is held.
    #[tactic(auto, using(crate::proofs::Counts::first_counted, crate::proofs::Counts::live_too))]
    fn undone(&mut self, n: u32) -> Answer
        requires { (self.old.pool.journal ≡ None) × AreLive self.old.held.items self.old.pool.live }
        ensures { (self.new.pool.journal ≡ None) × AreLive self.new.held.items self.new.pool.live }
    {
        let Some(first) = self.held.first().copied() else {
            return Err(Unanswered::NoRow);
        };
        if n == 0 {
            return Err(Unanswered::NoRow);
        }
        let (taken, between, after) = undone(&mut self.pool, first, n)?;
        let alloc = self.alloc;
        Ok(format!(in alloc; "{taken:?} {between} {after}")?)
    }

    /// A step in a journal that is kept. What it takes is not held.
    #[tactic(auto, using(crate::proofs::Counts::more_live))]
    fn kept(&mut self, n: u32) -> Answer
        requires { (self.old.pool.journal ≡ None) × AreLive self.old.held.items self.old.pool.live }
        ensures { (self.new.pool.journal ≡ None) × AreLive self.new.held.items self.new.pool.live }
    {
        if n == 0 {
            return Err(Unanswered::NoRow);
        }
        let taken = kept(&mut self.pool, n)?;
        natural_if_any(self.alloc, taken)
    }

    fn call(&mut self, verb: &str, line: &mut Line<'_>) -> Answer
        requires { (self.old.pool.journal ≡ None) × AreLive self.old.held.items self.old.pool.live }
        ensures { (self.new.pool.journal ≡ None) × AreLive self.new.held.items self.new.pool.live }
    {
        let alloc = self.alloc;
        match verb {
            "pool" => self.renew(line.natural()?, line.natural()?),
            "take" => {
                let place = take(&mut self.pool, &mut self.held, line.natural()?)?;
                place_or_full(alloc, place)
            }
            "give" => {
                let given = give(&mut self.pool, &mut self.held, line.natural()?);
                natural_if_any(alloc, given)
            }
            "undone" => self.undone(line.natural()?),
            "kept" => self.kept(line.natural()?),
            "largest" => number(alloc, i128::from(self.pool.largest())),
            "free" => number(alloc, i128::from(self.pool.free())),
            "compare" => number(alloc, i128::from(compared(alloc, 24, line.natural()?)?)),
            _ => bus(alloc, verb, line),
        }
    }
}

impl Rows for PoolRows {
    ghost ready = { λ rows. (rows.pool.journal ≡ None) × AreLive rows.held.items rows.pool.live };

    fn answer(&mut self, line: &mut Line<'_>) -> Answer {
        let verb = line.word();
        self.call(verb, line)
    }
}
