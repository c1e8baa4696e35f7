//! The least levels of the jobs of a plan.
ghost use Rattle.std.specs.Prelude.{◌≡◌, ◌<◌, length, IfOk};
ghost use Rattle.sn_report.specs.Costs.{units_in};
ghost use Rattle.sn_report.specs.Certificates.{below, cost_after, greatest_of, level_at};
ghost use Rattle.sn_report.specs.Tracing.{AreLeast};

use crate::certificate::Levels;
use crate::costs::job_cost;
use sn_ports::NoMemory;
use sn_round::Plan;
use sn_world::Stage;
use std::alloc::Global;

/// The level of a job, 0 if it has none.
pub fn level_at(levels: &[u64], job: u32) -> u64
    ensures { result ≡ level_at levels.now job }
{
    levels.get(job as usize).copied().unwrap_or(0)
}

/// The greatest of the levels of some jobs, 0 if there are none.
pub fn greatest_of(levels: &[u64], jobs: &[u32]) -> u64
    ensures { result ≡ greatest_of levels.now jobs.now }
{
    let mut greatest = 0u64;
    for job in jobs {
        greatest = greatest.max(level_at(levels, *job));
    }
    greatest
}

/// The greatest level of the jobs below a number, 0 if there are none.
pub fn greatest_below(levels: &[u64], jobs: u32) -> u64
    ensures { result ≡ greatest_of levels.now (below jobs) }
{
    let mut greatest = 0u64;
    for job in 0..jobs {
        greatest = greatest.max(level_at(levels, job));
    }
    greatest
}

/// The level of the next job, given those of the jobs before it. Sums of 2^64 and more count as out of memory, since no
/// memory holds so many units.
fn next_level(plan: &Plan, stage: &Stage, levels: &[u64], job: u32) -> Result<u64, NoMemory>
    requires { job < length plan.now }
    ensures { IfOk result (λ level. level ≡ cost_after (units_in stage.now) plan.now levels.now job) }
{
    let Some(cost) = job_cost(plan, stage, job) else {
        return Err(NoMemory);
    };
    let before = greatest_of(levels, plan.predecessors(job).as_slice());
    let Some(level) = cost.checked_add(before) else {
        return Err(NoMemory);
    };
    Ok(level)
}

/// The least levels of the jobs of a plan.
pub fn least_levels(alloc: Global, plan: &Plan, stage: &Stage) -> Result<Levels, NoMemory>
    ensures { IfOk result (λ levels. AreLeast (units_in stage.now) plan.now (length plan.now) levels.items) }
{
    // A hint for the proof alone: the predecessors of a job stand before it.
    plan.is_well_formed();
    let mut levels = Vec::new(alloc);
    for job in 0..plan.jobs() {
        let level = next_level(plan, stage, &levels, job)?;
        levels.push(level)?;
    }
    Ok(levels)
}
