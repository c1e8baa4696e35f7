//! Which of the audio buses of a synth are only mixed.
ghost use Rattle.std.specs.Prelude.{◌≡◌, ◌<◌, ◌≤◌, ◌==◌, ◌++◌, length, take, drop, slice_index_or, slice_set, ℕ, IfOk, OnOk};
ghost use Rattle.sn_ports.specs.Limits.{control_bus_count};
ghost use Rattle.sn_foot.specs.declared.resource.Resource.TheVariants.{Audio};
ghost use Rattle.sn_foot.specs.Judging.{counted, counted_all, is_alone, is_counted, judged, judged_one, more, role_if, times};
ghost use Rattle.sn_foot.specs.Uses.{is_same};

use crate::resource::Resource;
use crate::uses::{Role, Use};
use sn_ports::NoMemory;
use sn_ports::limits::CONTROL_BUS_COUNT;
use std::alloc::Global;
use std::marker::Model;

/// How many numbers of audio buses are counted: no use has a higher one.
const NUMBERS: usize = CONTROL_BUS_COUNT as usize;

/// Looking at so few uses for each of them takes less time than a table of all audio buses.
const FEW: usize = 8;

/// One more, up to two.
fn more(count: u8) -> u8
    ensures { result ≡ more count }
{
    if count < 2 { count + 1 } else { 2 }
}

/// So many counts of nothing.
fn no_counts(alloc: Global, numbers: usize) -> Result<Vec<u8>, NoMemory>
    ensures long { IfOk result (λ counts. length counts.items ≡ numbers) }
    ensures none { IfOk result (λ counts. (n : ℕ) → slice_index_or counts.items n 0 ≡ 0) }
{
    Ok(vec![in alloc; 0u8; numbers]?)
}

/// How often each audio bus is named, up to two, by its number.
#[derive(Drop)]
struct BusCounts {
    counts: Vec<u8>,
}

impl Model for BusCounts {
    ghost use Rattle.std.specs.Prelude.{List, ℕ};

    ghost Value = { List ℕ };

    ghost view = { λ c. c.counts.items };
}

impl BusCounts {
    /// Nothing is counted.
    fn new(alloc: Global) -> Result<BusCounts, NoMemory>
        ensures long { IfOk result (λ counts. length counts ≡ control_bus_count) }
        ensures none { IfOk result (λ counts. (n : ℕ) → slice_index_or counts n 0 ≡ 0) }
    {
        let counts = no_counts(alloc, NUMBERS)?;
        Ok(BusCounts { counts })
    }

    /// The count of a number.
    fn at(&self, number: u32) -> u8
        ensures { result ≡ slice_index_or self.now number 0 }
    {
        self.counts.get(number as usize).copied().unwrap_or(0)
    }

    /// Counts a number, if there is room for it.
    #[tactic(auto, using(std::proofs::lemmas::List::set_past))]
    fn count_number(&mut self, number: u32)
        ensures { self.new ≡ slice_set self.old number (more (slice_index_or self.old number 0)) }
    {
        let place = number as usize;
        if place >= self.counts.len() {
            return;
        }
        self.counts[place] = more(self.at(number));
    }

    /// Counts a resource, if it is an audio bus.
    fn count(&mut self, resource: Resource)
        ensures { self.new ≡ counted resource self.old }
    {
        match resource {
            Resource::Audio(number) => self.count_number(number),
            Resource::Control(_) => {}
            Resource::Buffer(_) => {}
        }
    }

    /// Counts what uses name.
    fn count_all(&mut self, uses: &[Use])
        ensures { self.new ≡ counted_all uses.now self.old }
    {
        for used in uses {
            self.count(used.resource);
        }
    }

    /// How often uses name each audio bus.
    fn of_uses(alloc: Global, uses: &[Use]) -> Result<BusCounts, NoMemory>
        ensures long { IfOk result (λ counts. length counts ≡ control_bus_count) }
        ensures once { IfOk result (λ counts. (n : ℕ) → n < control_bus_count → (slice_index_or counts n 0 == 1) ≡ (times uses.now (Audio n) == 1)) }
    {
        let mut counts = BusCounts::new(alloc)?;
        counts.count_all(uses);
        Ok(counts)
    }

    /// Whether a resource is an audio bus that was counted once.
    fn is_once(&self, resource: Resource) -> bool
        ensures { result ≡ is_counted self.now resource }
    {
        match resource {
            Resource::Audio(number) => self.at(number) == 1,
            Resource::Control(_) => false,
            Resource::Buffer(_) => false,
        }
    }
}

/// What is mixed, if nothing else names it, and written otherwise.
fn role_if(alone: bool, role: Role) -> Role
    ensures { result ≡ role_if alone role }
{
    match role {
        Role::Read => Role::Read,
        Role::Write => Role::Write,
        Role::Mix => { if alone { Role::Mix } else { Role::Write } }
    }
}

/// A use, judged by the counts.
fn judged_one(counts: &BusCounts, used: &Use) -> Use
    ensures { result ≡ judged_one (is_counted counts.now) used.now }
{
    Use {
        role: role_if(counts.is_once(used.resource), used.role),
        resource: used.resource,
    }
}

/// Appends uses, judged by the counts.
#[tactic(auto, using(crate::proofs::Judged::one_judged))]
fn push_counted(uses: &mut Vec<Use>, counts: &BusCounts, own: &[Use]) -> Result<(), NoMemory>
    ensures { OnOk result (uses.new.items ≡ uses.old.items ++ judged (is_counted counts.now) own.now) }
{
    for used in own {
        uses.push(judged_one(counts, used))?;
    }
    Ok(())
}

/// Appends uses, judged by a table of all audio buses.
fn push_many(alloc: Global, uses: &mut Vec<Use>, own: &[Use]) -> Result<(), NoMemory>
    ensures { OnOk result (uses.new.items ≡ uses.old.items ++ judged (is_alone own.now) own.now) }
{
    let counts = BusCounts::of_uses(alloc, own)?;
    push_counted(uses, &counts, own)
}

/// Whether a resource is the audio bus of this number.
fn is_audio(resource: Resource, bus: u32) -> bool
    ensures { result ≡ is_same resource (Audio bus) }
{
    match resource {
        Resource::Audio(number) => number == bus,
        Resource::Control(_) => false,
        Resource::Buffer(_) => false,
    }
}

/// How often uses name an audio bus.
#[tactic(auto, using(crate::proofs::Judged::times_counts))]
fn times(own: &[Use], bus: u32) -> usize
    ensures { result ≡ times own.now (Audio bus) }
{
    own.iter()
        .filter(|used| is_audio(used.resource, bus))
        .count()
}

/// Whether a resource is an audio bus that uses name once.
fn is_alone(own: &[Use], resource: Resource) -> bool
    ensures { result ≡ is_alone own.now resource }
{
    match resource {
        Resource::Audio(number) => number < CONTROL_BUS_COUNT && times(own, number) == 1,
        Resource::Control(_) => false,
        Resource::Buffer(_) => false,
    }
}

/// How one of some uses uses its resource. What isn't mixed needs no look at the others.
fn judged_role(own: &[Use], used: &Use) -> Role
    ensures { result ≡ role_if (is_alone own.now used.now.resource) used.now.role }
{
    match used.role {
        Role::Read => Role::Read,
        Role::Write => Role::Write,
        Role::Mix => role_if(is_alone(own, used.resource), Role::Mix),
    }
}

/// One of some uses, judged by a look at all of them.
fn judged_among(own: &[Use], used: Use) -> Use
    ensures { result ≡ judged_one (is_alone own.now) used }
{
    Use {
        role: judged_role(own, &used),
        resource: used.resource,
    }
}

/// Judges uses, each by a look at all of them. The judged ones still name the same buses.
fn judge_few(own: &mut [Use])
    ensures { own.new ≡ judged (is_alone own.old) own.old }
{
    for place in 0..own.len() {
        let used = own[place];
        own[place] = judged_among(own, used);
    }
}

/// Judges the uses from `first` on by a table of all audio buses.
fn judge_many(alloc: Global, uses: &mut Vec<Use>, first: usize) -> Result<(), NoMemory>
    requires { first ≤ length uses.old.items }
    ensures { let own = drop first uses.old.items in OnOk result (uses.new.items ≡ take first uses.old.items ++ judged (is_alone own) own) }
{
    let own = uses.split_off(first)?;
    push_many(alloc, uses, &own)
}

/// Judges the uses from `first` on, which are all that a synth has. A signal that is added to an audio bus mixes it,
/// if nothing else of the synth names the bus, and writes it otherwise.
pub fn judge(alloc: Global, uses: &mut Vec<Use>, first: usize) -> Result<(), NoMemory>
    requires { first ≤ length uses.old.items }
    ensures { let own = drop first uses.old.items in OnOk result (uses.new.items ≡ take first uses.old.items ++ judged (is_alone own) own) }
{
    if uses.len() - first <= FEW {
        judge_few(&mut uses[first..]);
        Ok(())
    } else {
        judge_many(alloc, uses, first)
    }
}
