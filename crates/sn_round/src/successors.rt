//! The successors of jobs.
ghost use Rattle.std.specs.Prelude.{◌≡◌, ◌<◌, ◌++◌, ◌∷◌, [], IfOk, OnOk, length, replicate, slice_index_or, slice_set};
ghost use Rattle.std.specs.List.{All};
ghost use Rattle.sn_round.specs.Jobs.{AreJobs, all_successors};
ghost use Rattle.sn_round.specs.Inverting.{put_in_each};

use crate::jobs::{Job, Jobs};
use sn_ports::NoMemory;
use std::alloc::Global;

/// So many empty lists.
fn empty_lists(alloc: Global, count: usize) -> Result<Vec<Jobs>, NoMemory>
    ensures { IfOk result (λ lists. lists.items ≡ replicate count []) }
{
    let mut lists = Vec::new(alloc);
    for _ in 0..count {
        lists.push(Jobs::new(alloc))?;
    }
    Ok(lists)
}

/// Appends a job to one of the lists.
fn put_at(lists: &mut Vec<Jobs>, at: u32, job: u32) -> Result<(), NoMemory>
    requires { at < length lists.old.items }
    ensures { OnOk result (lists.new.items ≡ slice_set lists.old.items at (slice_index_or lists.old.items at [] ++ job ∷ [])) }
{
    let list = &mut lists[at as usize];
    list.push(job)?;
    Ok(())
}

/// Appends a job to the lists of its predecessors.
fn put_in_each(lists: &mut Vec<Jobs>, before: &[u32], job: u32) -> Result<(), NoMemory>
    requires { All (λ p. p < length lists.old.items) before.now }
    ensures { OnOk result (lists.new.items ≡ put_in_each job before.now lists.old.items) }
{
    for predecessor in before {
        put_at(lists, *predecessor, job)?;
    }
    Ok(())
}

/// For each job the jobs of which it is a predecessor, in order.
pub fn successors_of(alloc: Global, jobs: &[Job]) -> Result<Vec<Jobs>, NoMemory>
    requires { AreJobs jobs.now }
    ensures { IfOk result (λ after. after.items ≡ all_successors jobs.now) }
{
    let mut after = empty_lists(alloc, jobs.len())?;
    for (number, job) in jobs.iter().enumerate() {
        put_in_each(&mut after, job.before.as_slice(), number as u32)?;
    }
    Ok(after)
}
