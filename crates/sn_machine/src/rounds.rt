//! The steps of main, on its view: whether each is allowed, and the view after it.
ghost use Rattle.std.specs.Prelude.{◌≡◌, ◌<◌, ◌^◌, ◌-◌, ℕ, [], Contains, IsTrue, IfOk, OnOk, length};
ghost use Rattle.sn_round.specs.Jobs.{AreJobs, IsRaceFree};
ghost use Rattle.sn_machine.specs.States.{IsIdle, no_main, no_worker, spent, jobs_in, script_in, counts_in, crew_in};
ghost use Rattle.sn_machine.specs.Steps.{set_memory, set_count, CanGo, go_view, CanRest, ended_front, rested_view, CanSplit, split_main, split_worker};
ghost use Rattle.sn_machine.specs.Calls.{set_memory_in, set_count_in, learned};

use crate::going::{are_armed, are_within, is_race_free, is_script};
use crate::lists::{Debts, RestedRounds, Script, Words, words_of};
use crate::views::{Main, Phase, Rested, View, Worker};
use crate::worker::ENDED;
use sn_ports::NoMemory;
use sn_round::{Job, Jobs, Plan};
use std::alloc::Global;

#[tactic(auto, using(crate::proofs::Covering::no_jobs_are))]
fn no_jobs(alloc: Global) -> Vec<Job>
    ensures none { result.items ≡ [] }
    ensures jobs { AreJobs result.items }
{
    Vec::new(alloc)
}

/// The idle main of a worker's seat.
fn no_main(alloc: Global) -> Main
    ensures { result ≡ no_main }
{
    Main {
        phase: Phase::Idle(Words::of(Vec::new(alloc)), Words::of(Vec::new(alloc))),
        live: 0,
        joined: false,
        ended: Jobs::new(alloc),
        rested: RestedRounds::new(alloc),
        stores: 0,
    }
}

/// The idle worker of main's seat.
pub fn no_worker(alloc: Global) -> Result<Worker, NoMemory>
    ensures { IfOk result (λ worker. worker ≡ no_worker) }
{
    Ok(Worker {
        live: false,
        sweeps: false,
        jobs: Plan::new(alloc, no_jobs(alloc))?,
        script: Script::of(Vec::new(alloc)),
        runs: None,
        debts: Debts::new(alloc),
        ended: Jobs::new(alloc),
        readings: 0,
        last: (0, 0),
    })
}

/// What is left of a worker's seat that was joined.
pub fn spent(alloc: Global) -> Result<View, NoMemory>
    ensures { IfOk result (λ view. view ≡ spent) }
{
    Ok(View {
        size: 0,
        room: 0,
        main: no_main(alloc),
        worker: no_worker(alloc)?,
    })
}

/// Whether each job below a number stands in a list.
fn know_all(ended: &[u32], jobs: u32) -> bool
    ensures { IsTrue result → (j : ℕ) → j < jobs → Contains ended.now j }
{
    for job in 0..jobs {
        if !ended.contains(&job) {
            return false;
        }
    }
    true
}

/// Sets the first words to ENDED.
fn end_front(counts: &mut Words, jobs: usize)
    ensures { counts.new ≡ ended_front jobs counts.old }
{
    for job in 0..jobs {
        counts.set(job, ENDED);
    }
}

impl Phase {
    /// The jobs of the round, or none.
    fn jobs(&self, alloc: Global) -> Result<Plan, NoMemory>
        ensures { IfOk result (λ jobs. jobs ≡ jobs_in self.now) }
    {
        match self {
            Phase::Idle(..) => Plan::new(alloc, no_jobs(alloc)),
            Phase::Round(jobs, _, _, _) => jobs.copied(alloc),
        }
    }

    /// The script of the round, or the memory words alone.
    fn script(&self, alloc: Global) -> Result<Script, NoMemory>
        ensures { IfOk result (λ script. script ≡ script_in self.now) }
    {
        match self {
            Phase::Idle(memory, _) => {
                let mut lists = Vec::new(alloc);
                lists.push(memory.copied(alloc)?)?;
                Ok(Script::of(lists))
            }
            Phase::Round(_, script, _, _) => script.copied(alloc),
        }
    }

    /// The job words, or those at `go`.
    fn counts(&self, alloc: Global) -> Result<Words, NoMemory>
        ensures { IfOk result (λ counts. counts ≡ counts_in self.now) }
    {
        match self {
            Phase::Idle(_, counts) => counts.copied(alloc),
            Phase::Round(_, _, _, counts) => counts.copied(alloc),
        }
    }

    /// The crew so far.
    pub fn crew(&self) -> u64
        ensures { result ≡ crew_in self.now }
    {
        match self {
            Phase::Idle(..) => 0,
            Phase::Round(_, _, crew, _) => *crew,
        }
    }

    /// Sets a memory word, while no round runs.
    fn set_memory(&mut self, word: usize, value: u64)
        ensures { self.new ≡ set_memory_in self.old word value }
    {
        if let Phase::Idle(memory, _) = self {
            memory.set(word, value);
        }
    }

    /// Sets a job word, while no round runs.
    fn set_count(&mut self, job: usize, count: u64)
        ensures { self.new ≡ set_count_in self.old job count }
    {
        if let Phase::Idle(_, counts) = self {
            counts.set(job, count);
        }
    }
}

impl View {
    /// Whether no round runs.
    pub fn is_idle(&self) -> bool
        ensures { IsTrue result → IsIdle self.now }
    {
        match &self.main.phase {
            Phase::Idle(..) => true,
            Phase::Round(..) => false,
        }
    }

    /// Whether main can count one more store, seat and member of the crew.
    pub fn can_count(&self) -> bool
        ensures stores { IsTrue result → self.now.main.stores < 2 ^ 64 - 1 }
        ensures live { IsTrue result → self.now.main.live < 2 ^ 64 - 1 }
        ensures crew { IsTrue result → crew_in self.now.main.phase < 2 ^ 64 - 1 }
    {
        self.main.stores < u64::MAX
            && self.main.live < u64::MAX
            && self.main.phase.crew() < u64::MAX
    }

    /// Whether no round runs, and these jobs and this script are those of a round over what main knows.
    fn fits(&self, plan: &Plan, script: &Script) -> bool
        ensures { IsTrue result → IsRaceFree plan.now → CanGo self.now plan.now script.now }
    {
        let Phase::Idle(memory, counts) = &self.main.phase else {
            return false;
        };
        plan.is_well_formed();
        plan.jobs() as usize <= counts.as_slice().len()
            && are_within(plan, memory.as_slice().len() as u64)
            && is_script(plan, memory.as_slice().len(), script)
            && script.list(0) == memory.as_slice()
            && are_armed(plan, counts)
    }

    /// Whether main may begin a round of these jobs with this script.
    pub fn may_go(&self, alloc: Global, plan: &Plan, script: &Script) -> Result<bool, NoMemory>
        ensures { IfOk result (λ may. IsTrue may → CanGo self.now plan.now script.now) }
    {
        if !self.fits(plan, script) {
            return Ok(false);
        }
        is_race_free(alloc, plan)
    }

    /// Whether main may rest.
    pub fn may_rest(&self) -> bool
        ensures { IsTrue result → CanRest self.now }
    {
        match &self.main.phase {
            Phase::Round(plan, _, _, _) => {
                self.main.live == 0 && know_all(self.main.ended.as_slice(), plan.jobs())
            }
            Phase::Idle(..) => false,
        }
    }

    /// Whether main may split a worker's seat.
    pub fn may_split(&self) -> bool
        ensures { IsTrue result → CanSplit self.now }
    {
        match &self.main.phase {
            Phase::Round(..) => !self.main.joined || self.main.live == 0,
            Phase::Idle(..) => false,
        }
    }

    /// Stores to a memory word, while no round runs.
    pub fn store_idle(&mut self, word: usize, value: u64)
        requires idle { IsIdle self.old }
        requires few { self.old.main.stores < 2 ^ 64 - 1 }
        ensures { self.new ≡ set_memory self.old word value }
    {
        self.main.phase.set_memory(word, value);
        self.main.stores += 1;
    }

    /// Stores to a job word, while no round runs.
    pub fn arm(&mut self, job: usize, count: u64)
        requires { IsIdle self.old }
        ensures { self.new ≡ set_count self.old job count }
    {
        self.main.phase.set_count(job, count);
    }

    /// Begins a round.
    pub fn go(&mut self, alloc: Global, plan: Plan, script: Script) -> Result<(), NoMemory>
        ensures { OnOk result (self.new ≡ go_view self.old plan script) }
    {
        let counts = self.main.phase.counts(alloc)?;
        self.main.phase = Phase::Round(plan, script, 0, counts);
        self.main.live = 0;
        self.main.joined = false;
        self.main.ended = Jobs::new(alloc);
        Ok(())
    }

    /// Ends a round.
    pub fn rest(&mut self, alloc: Global) -> Result<(), NoMemory>
        ensures { OnOk result (self.new ≡ rested_view self.old) }
    {
        let jobs = self.main.phase.jobs(alloc)?;
        let crew = self.main.phase.crew();
        let script = self.main.phase.script(alloc)?;
        let memory = words_of(alloc, script.list(jobs.jobs() as usize))?;
        let mut counts = self.main.phase.counts(alloc)?;
        end_front(&mut counts, jobs.jobs() as usize);
        self.main.rested.push(Rested { jobs, crew })?;
        self.main.phase = Phase::Idle(memory, counts);
        self.main.ended = Jobs::new(alloc);
        Ok(())
    }

    /// The view of a worker's seat that is split now.
    pub fn new_worker(&self, alloc: Global) -> Result<View, NoMemory>
        ensures { IfOk result (λ view. view ≡ split_worker self.now) }
    {
        Ok(View {
            size: self.size,
            room: self.room,
            main: no_main(alloc),
            worker: Worker {
                live: true,
                sweeps: self.main.joined,
                jobs: self.main.phase.jobs(alloc)?,
                script: self.main.phase.script(alloc)?,
                runs: None,
                debts: Debts::new(alloc),
                ended: self.main.ended.copied(alloc)?,
                readings: 0,
                last: (0, 0),
            },
        })
    }

    /// Counts a worker's seat that was split: in the crew, if none was joined yet.
    pub fn count_split(&mut self)
        requires live { self.old.main.live < 2 ^ 64 - 1 }
        requires crew { crew_in self.old.main.phase < 2 ^ 64 - 1 }
        ensures { self.new ≡ split_main self.old }
    {
        self.main.live += 1;
        if self.main.joined {
            return;
        }
        if let Phase::Round(_, _, crew, _) = &mut self.main.phase {
            *crew += 1;
        }
    }

    /// Adds what a worker knows to have ended, and no longer counts its seat.
    pub fn take_in(&mut self, ended: &[u32]) -> Result<(), NoMemory>
        ensures { OnOk result (self.new ≡ learned self.old ended.now) }
    {
        self.main.ended.extend(ended)?;
        self.main.live = self.main.live.saturating_sub(1);
        self.main.joined = true;
        Ok(())
    }
}
