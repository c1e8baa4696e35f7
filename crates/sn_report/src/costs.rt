//! What synths cost: as much as they have units.
ghost use Rattle.std.specs.Prelude.{◌≡◌, ◌≤◌, ◌^◌, None, IfSome};
ghost use Rattle.std.specs.Option.{option_copied};
ghost use Rattle.sn_round.specs.Jobs.{job_at};
ghost use Rattle.sn_report.specs.Costs.{cost_of, units_in, units_or_none};
ghost use Rattle.sn_report.specs.Certificates.{chain_cost};

use sn_round::Plan;
use sn_world::{Held, Stage};

/// How many units a node has that holds this, 0 if there is nothing.
fn units_or_none(held: Option<&Held>) -> u64
    ensures { result ≡ units_or_none (option_copied held.entry) }
{
    match held {
        Some(held) => held.units() as u64,
        None => 0,
    }
}

/// How many units the node with an id has, 0 if there is no such node.
fn units_in(stage: &Stage, id: &i32) -> u64
    ensures { result ≡ units_in stage.now id.now }
{
    units_or_none(stage.tree.payload(*id))
}

/// What synths cost together, if the sum is below 2^64.
pub fn cost_of(stage: &Stage, synths: &[i32]) -> Option<u64>
    ensures some { IfSome result (λ cost. cost ≡ cost_of (units_in stage.now) synths.now) }
    ensures none { result ≡ None → 2 ^ 64 ≤ cost_of (units_in stage.now) synths.now }
{
    let mut cost = 0u64;
    for id in synths {
        let Some(sum) = cost.checked_add(units_in(stage, id)) else {
            return None;
        };
        cost = sum;
    }
    Some(cost)
}

/// What the jobs of a chain cost together, if the sum is below 2^64. A job that the plan doesn't have costs nothing.
pub fn chain_cost(plan: &Plan, stage: &Stage, chain: &[u32]) -> Option<u64>
    ensures some { IfSome result (λ cost. cost ≡ chain_cost (units_in stage.now) plan.now chain.now) }
    ensures none { result ≡ None → 2 ^ 64 ≤ chain_cost (units_in stage.now) plan.now chain.now }
{
    let mut cost = 0u64;
    for job in chain {
        let Some(own) = job_cost(plan, stage, *job) else {
            return None;
        };
        let Some(sum) = cost.checked_add(own) else {
            return None;
        };
        cost = sum;
    }
    Some(cost)
}

/// What a job costs, if that is below 2^64. A job that the plan doesn't have costs nothing.
pub fn job_cost(plan: &Plan, stage: &Stage, job: u32) -> Option<u64>
    ensures some { IfSome result (λ cost. cost ≡ cost_of (units_in stage.now) (job_at plan.now job).synths) }
    ensures none { result ≡ None → 2 ^ 64 ≤ cost_of (units_in stage.now) (job_at plan.now job).synths }
{
    if job >= plan.jobs() {
        return Some(0);
    }
    cost_of(stage, plan.synths(job).as_slice())
}
