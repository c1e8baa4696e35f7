//! The jobs of a round, with their successors.
ghost use Rattle.std.specs.Prelude.{◌≡◌, ◌<◌, IfOk, length};
ghost use Rattle.sn_round.specs.Jobs.{AreJobs, job_at, foot_at, lanes_at, moves_at, predecessors, successors};

use crate::jobs::{Ids, Job, Jobs};
use crate::shared_foot::SharedFoot;
use crate::successors::successors_of;
use sn_mem::{AllMoves, Foot, Moved, Moves};
use sn_ports::NoMemory;
use std::alloc::Global;
use std::marker::Model;

/// The jobs of a round, in the order of the walk. Contracts see the list of them.
#[derive(Drop)]
pub struct Plan {
    jobs: Vec<Job>,
    // The successors of each job.
    after: Vec<Jobs>,
}

impl Model for Plan {
    ghost use Rattle.std.specs.Prelude.{List, ◌≡◌};
    ghost use Rattle.sn_round.specs.declared.jobs.Job.{Job};
    ghost use Rattle.sn_round.specs.Jobs.{AreJobs, all_successors};

    ghost Value = { List Job };

    ghost view = { λ p. p.jobs.items };

    ghost invariant = { λ p. AreJobs p.jobs.items × (p.after.items ≡ all_successors p.jobs.items) };
}

fn copied_jobs(alloc: Global, jobs: &[Job]) -> Result<Vec<Job>, NoMemory>
    ensures { IfOk result (λ copy. copy.items ≡ jobs.now) }
{
    let mut copy = Vec::new(alloc);
    for job in jobs {
        copy.push(job.copied(alloc)?)?;
    }
    Ok(copy)
}

impl Plan {
    /// A round of these jobs.
    pub fn new(alloc: Global, jobs: Vec<Job>) -> Result<Plan, NoMemory>
        requires { AreJobs jobs.items }
        ensures { IfOk result (λ plan. plan ≡ jobs.items) }
    {
        let after = successors_of(alloc, &jobs)?;
        Ok(Plan { jobs, after })
    }

    /// A copy.
    pub fn copied(&self, alloc: Global) -> Result<Plan, NoMemory>
        ensures { IfOk result (λ copy. copy ≡ self.now) }
    {
        self.is_well_formed();
        Plan::new(alloc, copied_jobs(alloc, &self.jobs)?)
    }

    /// How many jobs there are, joints among them.
    pub fn jobs(&self) -> u32
        ensures { result ≡ length self.now }
    {
        self.jobs.len() as u32
    }

    /// The synths of a job, in the order in which they are rendered.
    pub fn synths(&self, job: u32) -> &Ids
        requires { job < length self.now }
        ensures { result.now ≡ (job_at self.now job).synths }
    {
        let job = &self.jobs[job as usize];
        &job.synths
    }

    /// The buses that the synths of a job mix onto lanes.
    pub fn all_moves(&self, job: u32) -> &AllMoves
        requires { job < length self.now }
        ensures { result.now ≡ (job_at self.now job).moves }
    {
        let job = &self.jobs[job as usize];
        &job.moves
    }

    /// The buses that a synth of a job, by its place among them, mixes onto lanes.
    pub fn moves(&self, job: u32, synth: usize) -> &[Moved]
        requires { job < length self.now }
        ensures { result.now ≡ moves_at self.now job synth }
    {
        self.all_moves(job).of(synth)
    }

    /// The lanes that a job adds to their buses, in the order in which it adds them.
    pub fn lanes(&self, job: u32) -> &Moves
        requires { job < length self.now }
        ensures { result.now ≡ lanes_at self.now job }
    {
        let job = &self.jobs[job as usize];
        &job.lanes
    }

    /// The jobs that end before a job begins.
    pub fn predecessors(&self, job: u32) -> &Jobs
        requires { job < length self.now }
        ensures { result.now ≡ predecessors self.now job }
    {
        let job = &self.jobs[job as usize];
        &job.before
    }

    /// The jobs of which a job is a predecessor, in order.
    pub fn successors(&self, job: u32) -> &Jobs
        requires { job < length self.now }
        ensures { result.now ≡ successors self.now job }
    {
        &self.after[job as usize]
    }

    /// The words that a job may touch.
    pub fn foot(&self, job: u32) -> &Foot
        requires { job < length self.now }
        ensures { result.now ≡ foot_at self.now job }
    {
        self.shared_foot(job).as_foot()
    }

    /// The same words, to be shared with a job of another plan.
    pub fn shared_foot(&self, job: u32) -> &SharedFoot
        requires { job < length self.now }
        ensures { result.now ≡ foot_at self.now job }
    {
        let job = &self.jobs[job as usize];
        &job.foot
    }

    /// A law: there are fewer than 2^32 jobs, and the predecessors of each stand before it, each once.
    pub fn is_well_formed(&self)
        ensures { AreJobs self.now }
    {
        let _ = &self.jobs;
    }
}
