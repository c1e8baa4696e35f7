//! Jobs that are put one after another.
ghost use Rattle.std.specs.Prelude.{◌≡◌, ◌<◌, ◌≤◌, ◌+◌, ◌++◌, ◌∷◌, [], ℕ, true, false, Ok, length};
ghost use Rattle.std.specs.List.{All};
ghost use Rattle.sn_round.specs.Jobs.{AreJobs, times};

use sn_ports::NoMemory;
use sn_round::Job;
use std::alloc::Global;

/// No jobs.
#[tactic(auto, using(crate::proofs::Rising::no_jobs_are))]
pub fn no_jobs(alloc: Global) -> Vec<Job>
    ensures none { result.items ≡ [] }
    ensures jobs { AreJobs result.items }
{
    Vec::new(alloc)
}

/// Whether numbers rise, and each is at least `from` and below `end`.
fn rise(from: u32, end: u32, numbers: &[u32]) -> bool
    ensures from { result ≡ true → All (λ n. from ≤ n) numbers.now }
    ensures below { result ≡ true → All (λ n. n < end) numbers.now }
    ensures once { result ≡ true → (n : ℕ) → times n numbers.now ≤ 1 }
{
    match numbers {
        [] => true,
        [first, rest @ ..] => from <= *first && *first < end && rise(*first + 1, end, rest),
    }
}

/// Appends a job, if there are at most 1,000 jobs and its predecessors rise and stand before it. It returns whether it
/// was put. If it wasn't, nothing changes.
#[tactic(auto, using(crate::proofs::Rising::jobs_more))]
pub fn put(jobs: &mut Vec<Job>, job: Job) -> Result<bool, NoMemory>
    requires jobs { AreJobs jobs.old.items }
    ensures jobs { AreJobs jobs.new.items }
    ensures put { result ≡ Ok true → jobs.new.items ≡ jobs.old.items ++ job ∷ [] }
    ensures same { result ≡ Ok false → jobs.new.items ≡ jobs.old.items }
{
    if jobs.len() > 1000 || !rise(0, jobs.len() as u32, job.before.as_slice()) {
        return Ok(false);
    }
    jobs.push(job)?;
    Ok(true)
}
