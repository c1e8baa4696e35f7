//! The report of a stage.
ghost use Rattle.std.specs.Prelude.{◌≡◌, ◌++◌, IfOk, OnOk};
ghost use Rattle.sn_round.specs.Jobs.{job_at};
ghost use Rattle.sn_report.specs.Costs.{units_in};
ghost use Rattle.sn_report.specs.Certificates.{played};
ghost use Rattle.sn_report.specs.Lines.{EachHasLongest, IsLongest, IsPictured, IsPlanIn, TellsEach};
ghost use Rattle.sn_report.specs.Reports.{report_in, stage_weight};

use crate::certifying::longest;
use crate::costs::cost_of;
use crate::lines::{put_chain_line, put_head, put_nodes, running, synths_among, units_among};
use sn_clash::clashes;
use sn_graph::{Lanes, plan, worlds_are_disjoint};
use sn_mem::MOST_LANES;
use sn_ports::{NoMemory, Text};
use sn_round::{Ids, Plan};
use sn_world::Stage;
use std::alloc::Global;

/// Appends the synths of a job, if the plan has it.
fn put_synths(plan: &Plan, job: u32, ids: &mut Ids) -> Result<(), NoMemory>
    ensures { OnOk result (ids.new ≡ ids.old ++ (job_at plan.now job).synths) }
{
    if job >= plan.jobs() {
        return Ok(());
    }
    ids.extend(plan.synths(job).as_slice())
}

/// The synths of some jobs, in their order.
fn played(alloc: Global, plan: &Plan, chain: &[u32]) -> Result<Ids, NoMemory>
    ensures { IfOk result (λ ids. ids ≡ played plan.now chain.now) }
{
    let mut ids = Ids::new(alloc);
    for job in chain {
        put_synths(plan, *job, &mut ids)?;
    }
    Ok(ids)
}

/// The synths of the longest chain.
fn longest_synths(alloc: Global, plan: &Plan, stage: &Stage) -> Result<Ids, NoMemory>
    requires { IsPlanIn stage.now plan.now }
    ensures chain { IfOk result (λ ids. ids ≡ (stage_weight stage.now).chain) }
    ensures longest { OnOk result (IsLongest (units_in stage.now) plan.now (stage_weight stage.now)) }
{
    // Hints for the proof alone: no two nodes have the same id, the root holds all, and the predecessors of a job stand
    // before it.
    stage.tree.ids_are_distinct();
    stage.tree.root_holds_all();
    plan.is_well_formed();
    let certificate = longest(alloc, plan, stage)?;
    played(alloc, plan, certificate.chain.as_slice())
}

/// The report of a stage, given its plan: how many synths and units run, what each of the synths uses, and the longest
/// chain.
///
/// # Errors
///
/// Memory runs out. A sum of 2^64 units or more counts as this too, since no memory holds so many.
pub fn report(alloc: Global, plan: &Plan, stage: &Stage) -> Result<Text, NoMemory>
    requires { IsPlanIn stage.now plan.now }
    ensures text { IfOk result (λ text. text.bytes ≡ report_in stage.now) }
    ensures longest { OnOk result (IsLongest (units_in stage.now) plan.now (stage_weight stage.now)) }
{
    let chain = longest_synths(alloc, plan, stage)?;
    let visits = running(alloc, &stage.tree)?;
    let units = units_among(&visits)?;
    let Some(cost) = cost_of(stage, chain.as_slice()) else {
        return Err(NoMemory);
    };
    let mut text = Text::new(alloc);
    put_head(&mut text, synths_among(&visits) as u64, units, cost)?;
    put_nodes(alloc, &mut text, &stage.buffers, &visits)?;
    put_chain_line(&mut text, chain.as_slice())?;
    Ok(text)
}

/// The report of a stage that stands for a world. A parallel group is told as split, so that its members may run beside
/// each other, unless two of them clash, or the lanes that are left are too few. Where the lanes begin is the same for
/// the report.
///
/// # Errors
///
/// As of [`report`].
pub fn stage_report(alloc: Global, stage: &Stage) -> Result<Text, NoMemory>
    requires { IsPictured stage.now }
    ensures text { IfOk result (λ text. TellsEach stage.now text.bytes) }
    ensures longest { OnOk result (EachHasLongest stage.now) }
{
    // Hints for the proof alone: what a stage that stands for a world meets.
    worlds_are_disjoint(stage);
    let clashes = clashes(alloc, stage)?;
    let lanes = Lanes {
        first: 0,
        most: MOST_LANES,
    };
    let plan = plan(alloc, stage, clashes.as_slice(), lanes)?;
    report(alloc, &plan, stage)
}
