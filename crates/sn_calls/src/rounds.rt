//! Rows of plans of rounds.
ghost use Rattle.std.specs.Prelude.{◌≡◌, IfOk};
ghost use Rattle.sn_round.specs.Jobs.{AreJobs};

use crate::line::{Answer, Line, Rows, Unanswered, number, said};
use sn_jobs::{no_jobs, put};
use sn_mem::{AllMoves, Extent, Extents, Foot, Moves};
use sn_ports::NoMemory;
use sn_ports::limits::MOST_SPAN;
use sn_round::{Ids, Job, Jobs, Plan, SharedFoot};
use sn_span::{COPY_WORDS, unroll};
use std::alloc::Global;
use std::mem;

/// Jobs, and the plan of them.
#[derive(Drop)]
pub struct RoundRows {
    alloc: Global,
    jobs: Vec<Job>,
    plan: Plan,
}

impl RoundRows {
    /// No jobs.
    pub fn new(alloc: Global) -> Result<RoundRows, NoMemory>
        ensures { IfOk result (λ rows. AreJobs rows.jobs.items) }
    {
        Ok(RoundRows {
            alloc,
            jobs: no_jobs(alloc),
            plan: Plan::new(alloc, no_jobs(alloc))?,
        })
    }
}

/// The numbers as predecessors.
fn predecessors(alloc: Global, numbers: &[u32]) -> Result<Jobs, NoMemory>
    ensures { IfOk result (λ jobs. jobs ≡ numbers.now) }
{
    let mut jobs = Jobs::new(alloc);
    for number in numbers {
        jobs.push(*number)?;
    }
    Ok(jobs)
}

fn ids(alloc: Global, numbers: &[u32]) -> Result<Ids, Unanswered> {
    let mut ids = Ids::new(alloc);
    for number in numbers {
        let id = i32::try_from(*number).map_err(|_| Unanswered::NoRow)?;
        ids.push(id)?;
    }
    Ok(ids)
}

/// What writes the ten words from a place on.
fn foot(alloc: Global, at: u32) -> Result<SharedFoot, NoMemory> {
    let mut writes = Extents::new(alloc);
    writes.push(Extent { at, len: 10 })?;
    let reads = Extents::new(alloc);
    SharedFoot::new(alloc, Foot { reads, writes })
}

/// A job by its synths and its predecessors. It writes ten words of its own.
fn put_job(alloc: Global, jobs: &mut Vec<Job>, line: &mut Line<'_>) -> Answer
    requires { AreJobs jobs.old.items }
    ensures { AreJobs jobs.new.items }
{
    let synths = ids(alloc, &line.naturals(alloc)?)?;
    let before = predecessors(alloc, &line.naturals(alloc)?)?;
    let at = (jobs.len() as u32).wrapping_mul(10);
    let job = Job {
        synths,
        moves: AllMoves::new(alloc),
        lanes: Moves::new(alloc),
        foot: foot(alloc, at)?,
        before,
    };
    let is_put = put(jobs, job)?;
    said(alloc, if is_put { "ok" } else { "not before it" })
}

/// The plan of several blocks that copy the words of one audio bus.
fn unrolled(alloc: Global, plan: &Plan, line: &mut Line<'_>) -> Result<Plan, Unanswered> {
    let blocks = line.natural()?;
    let bus = line.natural()?;
    let copies = line.natural()?;
    if plan.jobs() > 1000 || blocks > MOST_SPAN || copies > 1_000_000 {
        return Err(Unanswered::NoRow);
    }
    let mut outputs = Extents::new(alloc);
    outputs.push(Extent { at: bus, len: 65 })?;
    let copies = Extent {
        at: copies,
        len: COPY_WORDS * blocks,
    };
    Ok(unroll(alloc, plan, blocks, &outputs, copies)?)
}

/// The synths, predecessors and successors of a job, the extents that it writes, and those that it reads.
fn job_said(alloc: Global, plan: &Plan, job: u32) -> Answer {
    if job >= plan.jobs() {
        return Err(Unanswered::NoRow);
    }
    let synths = plan.synths(job).as_slice();
    let before = plan.predecessors(job).as_slice();
    let after = plan.successors(job).as_slice();
    let mut out = format!(in alloc; "{synths:?} {before:?} {after:?}")?;
    for extent in plan.foot(job).writes.as_slice() {
        out.push_str(format!(in alloc; " {}+{}", extent.at, extent.len)?.as_str())?;
    }
    for extent in plan.foot(job).reads.as_slice() {
        out.push_str(format!(in alloc; " < {}+{}", extent.at, extent.len)?.as_str())?;
    }
    Ok(out)
}

impl RoundRows {
    fn call(&mut self, verb: &str, line: &mut Line<'_>) -> Answer
        requires { AreJobs self.old.jobs.items }
        ensures { AreJobs self.new.jobs.items }
    {
        let alloc = self.alloc;
        match verb {
            "job" => put_job(alloc, &mut self.jobs, line),
            "plan" => {
                let jobs = mem::replace(&mut self.jobs, no_jobs(alloc));
                self.plan = Plan::new(alloc, jobs)?;
                number(alloc, i128::from(self.plan.jobs()))
            }
            "unroll" => {
                self.plan = unrolled(alloc, &self.plan, line)?;
                number(alloc, i128::from(self.plan.jobs()))
            }
            "planned" => job_said(alloc, &self.plan, line.natural()?),
            _ => Err(Unanswered::NoRow),
        }
    }
}

impl Rows for RoundRows {
    ghost ready = { λ rows. AreJobs rows.jobs.items };

    fn answer(&mut self, line: &mut Line<'_>) -> Answer {
        let verb = line.word();
        self.call(verb, line)
    }
}
