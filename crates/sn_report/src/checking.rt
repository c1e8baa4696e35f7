//! Whether a certificate shows that its chain is the longest.
ghost use Rattle.std.specs.Prelude.{◌≡◌, ◌==◌, ◌<◌, nat_le, length};
ghost use Rattle.std.specs.List.{list_all, list_any};
ghost use Rattle.sn_report.specs.Costs.{units_in};
ghost use Rattle.sn_report.specs.Certificates.{are_levels, below, certifies, chain_cost, cost_after, is_chain, level_at, may_follow};

use crate::certificate::Certificate;
use crate::costs::{chain_cost, job_cost};
use crate::levels::{greatest_below, greatest_of, level_at};
use sn_round::Plan;
use sn_world::Stage;

fn has(jobs: &[u32], job: u32) -> bool
    ensures { result ≡ list_any (λ x. x == job) jobs.now }
{
    jobs.iter().any(|x| *x == job)
}

/// Whether a job may stand in a chain after this one, or as the first one.
fn may_follow(plan: &Plan, before: Option<u32>, job: u32) -> bool
    ensures { result ≡ may_follow plan.now before job }
{
    if job >= plan.jobs() {
        return false;
    }
    match before {
        Some(last) => has(plan.predecessors(job).as_slice(), last),
        None => true,
    }
}

fn is_chain(plan: &Plan, chain: &[u32]) -> bool
    ensures { result ≡ is_chain plan.now chain.now }
{
    let mut before = None;
    for job in chain {
        if !may_follow(plan, before, *job) {
            return false;
        }
        before = Some(*job);
    }
    true
}

/// Whether a job costs no more than its level, after the greatest level of its predecessors.
fn is_level(plan: &Plan, stage: &Stage, levels: &[u64], job: u32) -> bool
    requires { job < length plan.now }
    ensures { result ≡ nat_le (cost_after (units_in stage.now) plan.now levels.now job) (level_at levels.now job) }
{
    let before = greatest_of(levels, plan.predecessors(job).as_slice());
    let level = level_at(levels, job);
    let Some(cost) = job_cost(plan, stage, job) else {
        return false;
    };
    let Some(least) = cost.checked_add(before) else {
        return false;
    };
    least <= level
}

fn have_levels(plan: &Plan, stage: &Stage, levels: &[u64]) -> bool
    ensures { result ≡ list_all (λ j. nat_le (cost_after (units_in stage.now) plan.now levels.now j) (level_at levels.now j)) (below (length plan.now)) }
{
    for job in 0..plan.jobs() {
        if !is_level(plan, stage, levels, job) {
            return false;
        }
    }
    true
}

fn are_levels(plan: &Plan, stage: &Stage, levels: &[u64]) -> bool
    ensures { result ≡ are_levels (units_in stage.now) plan.now levels.now }
{
    levels.len() == plan.jobs() as usize && have_levels(plan, stage, levels)
}

/// Whether a chain costs this much.
fn costs(plan: &Plan, stage: &Stage, chain: &[u32], cost: u64) -> bool
    ensures { result ≡ (chain_cost (units_in stage.now) plan.now chain.now == cost) }
{
    match chain_cost(plan, stage, chain) {
        Some(sum) => sum == cost,
        None => false,
    }
}

/// Whether the chain is a chain, the levels are those of the jobs, and the chain costs as much as the greatest of them.
/// Then no chain of the plan costs more.
pub fn check(plan: &Plan, stage: &Stage, certificate: &Certificate) -> bool
    ensures { result ≡ certifies (units_in stage.now) plan.now certificate.now.chain certificate.now.levels.items }
{
    let chain = certificate.chain.as_slice();
    let levels = certificate.levels.as_slice();
    is_chain(plan, chain)
        && (are_levels(plan, stage, levels)
            && costs(plan, stage, chain, greatest_below(levels, plan.jobs())))
}
