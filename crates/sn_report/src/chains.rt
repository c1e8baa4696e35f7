//! Chains of jobs, traced by levels.
ghost use Rattle.std.specs.Prelude.{◌≡◌, ◌≤◌, length, reverse, IfOk};
ghost use Rattle.sn_report.specs.Certificates.{below};
ghost use Rattle.sn_report.specs.Tracing.{Comes, better, ceiling, first_greatest};

use crate::levels::level_at;
use sn_ports::NoMemory;
use sn_round::Plan;
use std::alloc::Global;

fn better(levels: &[u64], first: u32, later: Option<u32>) -> u32
    ensures { result ≡ better levels.now first later }
{
    let Some(job) = later else {
        return first;
    };
    if level_at(levels, first) < level_at(levels, job) {
        job
    } else {
        first
    }
}

/// The first of some jobs that have the greatest level.
fn first_greatest(levels: &[u64], jobs: &[u32]) -> Option<u32>
    ensures { result ≡ first_greatest levels.now jobs.now }
{
    let mut best = None;
    let mut left = jobs.len();
    while left > 0 {
        left -= 1;
        best = Some(better(levels, jobs[left], best));
    }
    best
}

/// The jobs below a number, from the last to the first.
fn below(alloc: Global, jobs: u32) -> Result<Vec<u32>, NoMemory>
    ensures { IfOk result (λ all. all.items ≡ below jobs) }
{
    let mut all = Vec::new(alloc);
    let mut left = jobs;
    while left > 0 {
        left -= 1;
        all.push(left)?;
    }
    Ok(all)
}

/// A chain from its end. Of some jobs, the first with the greatest level ends it. Of its predecessors, the first with
/// the greatest level comes before it, and so on.
fn traced_back(
    alloc: Global,
    plan: &Plan,
    levels: &[u64],
    jobs: &[u32],
) -> Result<Vec<u32>, NoMemory>
    requires { ceiling jobs.now ≤ length plan.now }
    ensures { IfOk result (λ chain. Comes plan.now levels.now jobs.now (reverse chain.items)) }
{
    // A hint for the proof alone: the predecessors of a job stand before it.
    plan.is_well_formed();
    let mut chain = Vec::new(alloc);
    let mut rest = jobs;
    while let Some(job) = first_greatest(levels, rest) {
        chain.push(job)?;
        rest = plan.predecessors(job).as_slice();
    }
    Ok(chain)
}

/// The chain that is traced from all jobs of a plan.
pub fn traced(alloc: Global, plan: &Plan, levels: &[u64]) -> Result<Vec<u32>, NoMemory>
    ensures { IfOk result (λ chain. Comes plan.now levels.now (below (length plan.now)) chain.items) }
{
    let all = below(alloc, plan.jobs())?;
    let mut chain = traced_back(alloc, plan, levels, &all)?;
    chain.reverse();
    Ok(chain)
}
