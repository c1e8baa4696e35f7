//! Whether jobs, a script and words are such that a round of them may begin.
ghost use Rattle.std.specs.Prelude.{◌≡◌, ◌<◌, ◌≤◌, ◌+◌, ℕ, true, IsTrue, IfOk, false, length, slice_index, slice_index_or};
ghost use Rattle.std.specs.List.{list_all};
ghost use Rattle.sn_mem.specs.Words.{Clash, touches};
ghost use Rattle.sn_round.specs.Jobs.{AreWithin, IsRaceFree, Ordered, foot_at, predecessors};
ghost use Rattle.sn_round.specs.Scripts.{IsScript};
ghost use Rattle.sn_machine.specs.Calls.{ends_below};

use crate::feet::agree_outside;
use crate::lists::{Script, Words};
use sn_mem::{Extent, Foot, clash};
use sn_ports::NoMemory;
use sn_round::Plan;
use std::alloc::Global;

/// Whether a job is ordered before another. `later` says it of the jobs between the two.
fn is_ordered(plan: &Plan, first: u32, second: u32, later: &[bool]) -> bool
    requires second { second < length plan.now }
    requires long { length later.now ≡ length plan.now }
    requires between { (j : ℕ) → first < j → j < second → slice_index_or later.now j false ≡ true → Ordered plan.now first j }
    ensures { IsTrue result → Ordered plan.now first second }
{
    plan.is_well_formed();
    for before in plan.predecessors(second).as_slice() {
        if *before == first {
            return true;
        }
        if *before > first && later[*before as usize] {
            return true;
        }
    }
    false
}

/// Whether a job is ordered before each later one with which it clashes. What `later` holds for those jobs is replaced.
fn comes_first(plan: &Plan, first: u32, later: &mut [bool]) -> bool
    requires first { first < length plan.now }
    requires long { length later.old ≡ length plan.now }
    ensures long { length later.new ≡ length later.old }
    ensures ordered { IsTrue result → (j : ℕ) → first < j → j < length plan.now → Clash (foot_at plan.now first) (foot_at plan.now j) → Ordered plan.now first j }
{
    plan.is_well_formed();
    for second in first + 1..plan.jobs() {
        let ordered = is_ordered(plan, first, second, later);
        later[second as usize] = ordered;
        if !ordered && clash(plan.foot(first), plan.foot(second)) {
            return false;
        }
    }
    true
}

/// Whether of each two jobs that clash the lower is ordered before the higher.
///
/// It looks at each pair of jobs, and for each job at each predecessor of those after it, with a flag a job as memory.
pub fn is_race_free(alloc: Global, plan: &Plan) -> Result<bool, NoMemory>
    ensures { IfOk result (λ free. IsTrue free → IsRaceFree plan.now) }
{
    let mut later = vec![in alloc; false; plan.jobs() as usize]?;
    for first in 0..plan.jobs() {
        if !comes_first(plan, first, &mut later) {
            return Ok(false);
        }
    }
    Ok(true)
}

fn end_below(extents: &[Extent], size: u64) -> bool
    ensures { result ≡ list_all (ends_below size) extents.now }
{
    extents
        .iter()
        .all(|extent| extent.at as u64 + extent.len as u64 <= size)
}

fn lies_in(foot: &Foot, size: u64) -> bool
    ensures { IsTrue result → (x : ℕ) → touches foot.now x ≡ true → x < size }
{
    end_below(foot.writes.as_slice(), size) && end_below(foot.reads.as_slice(), size)
}

/// Whether each foot lies in a memory of `size` words.
pub fn are_within(plan: &Plan, size: u64) -> bool
    ensures { IsTrue result → AreWithin size plan.now }
{
    for job in 0..plan.jobs() {
        if !lies_in(plan.foot(job), size) {
            return false;
        }
    }
    true
}

/// Whether there is one list more than jobs, all lists have one length, and each agrees with the one before outside
/// what its job may write.
pub fn is_script(plan: &Plan, size: usize, script: &Script) -> bool
    ensures { IsTrue result → IsScript plan.now size script.now }
{
    if script.len() != plan.jobs() as usize + 1 || script.list(0).len() != size {
        return false;
    }
    for job in 0..plan.jobs() {
        let before = script.list(job as usize);
        let after = script.list(job as usize + 1);
        if !agree_outside(plan.foot(job), after, before) {
            return false;
        }
    }
    true
}

/// Whether the word of each job is the number of its predecessors.
pub fn are_armed(plan: &Plan, counts: &Words) -> bool
    ensures { IsTrue result → (j : ℕ) → j < length plan.now → slice_index counts.now j ≡ length (predecessors plan.now j) }
{
    for job in 0..plan.jobs() {
        if counts.word(job as usize) != plan.predecessors(job).as_slice().len() as u64 {
            return false;
        }
    }
    true
}
