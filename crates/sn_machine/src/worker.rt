//! The steps of a worker, on its view: whether each is allowed, and the view after it.
ghost use Rattle.std.specs.Prelude.{◌≡◌, ◌<◌, ◌^◌, ◌-◌, ◌++◌, true, [], length, IsTrue, IfOk, IfSome, OnOk, None};
ghost use Rattle.sn_machine.specs.Steps.{CanClaim, claim_view, claim_word, CanLoad, CanStore, CanEnd, read_view, got_view, ended_view, paid_view, debts_of};
ghost use Rattle.sn_machine.specs.Fits.{job_of, picture_of};
ghost use Rattle.sn_machine.specs.Calls.{painted, debt_at, front_of, back_of};

use crate::feet::{agree, may_touch, may_write};
use crate::lists::{Debts, words_of};
use crate::views::{RunningJob, View};
use sn_ports::NoMemory;
use std::alloc::Global;

/// The word of a job that is run.
pub const CLAIMED: u64 = 1 << 62;

/// The word of a job that has ended.
pub const ENDED: u64 = 1 << 63;

/// The word of a job after a claim that found `word`.
pub fn claim_word(word: u64) -> u64
    ensures { result ≡ claim_word word }
{
    if word == 0 { CLAIMED } else { word }
}

impl View {
    /// Whether one more reading can be counted.
    pub fn can_read(&self) -> bool
        ensures { IsTrue result → self.now.worker.readings < 2 ^ 64 - 1 }
    {
        self.worker.readings < u64::MAX
    }

    /// Whether the worker runs nothing and owes nothing.
    pub fn is_free(&self) -> bool
        ensures { IsTrue result → (self.now.worker.live ≡ true) × (self.now.worker.runs ≡ None) × (self.now.worker.debts ≡ []) }
    {
        self.worker.live && self.worker.runs.is_none() && self.worker.debts.as_slice().is_empty()
    }

    /// Whether the worker may look at the word of a job, and count the reading.
    pub fn may_look(&self) -> bool
        ensures live { IsTrue result → self.now.worker.live ≡ true }
        ensures readings { IsTrue result → self.now.worker.readings < 2 ^ 64 - 1 }
    {
        self.worker.live && self.can_read()
    }

    /// Whether the worker may claim a job.
    pub fn may_claim(&self, job: u32) -> bool
        ensures { IsTrue result → CanClaim self.now job }
    {
        self.is_free() && job < self.worker.jobs.jobs()
    }

    /// Whether the worker runs a job that may read or write the word.
    pub fn may_load(&self, word: u64) -> bool
        ensures { IsTrue result → CanLoad self.now (job_of self.now) (picture_of self.now) word }
    {
        match &self.worker.runs {
            Some(running) => {
                running.job < self.worker.jobs.jobs()
                    && may_touch(self.worker.jobs.foot(running.job), word)
            }
            None => false,
        }
    }

    /// Whether the worker runs a job that may write the word.
    pub fn may_store(&self, word: u64) -> bool
        ensures { IsTrue result → CanStore self.now (job_of self.now) (picture_of self.now) word }
    {
        match &self.worker.runs {
            Some(running) => {
                running.job < self.worker.jobs.jobs()
                    && may_write(self.worker.jobs.foot(running.job), word)
            }
            None => false,
        }
    }

    /// The job that the worker runs, if its picture is the next list of the script on what the job may write.
    pub fn finished(&self) -> Option<u32>
        ensures { IfSome result (λ j. (j ≡ job_of self.now) × CanEnd self.now j (picture_of self.now) × (j < length self.now.worker.jobs)) }
    {
        match &self.worker.runs {
            Some(running) => {
                let list = self.worker.script.list(running.job as usize + 1);
                let is_done = running.job < self.worker.jobs.jobs()
                    && agree(
                        self.worker.jobs.foot(running.job),
                        running.picture.as_slice(),
                        list,
                    );
                if is_done { Some(running.job) } else { None }
            }
            None => None,
        }
    }

    /// The successor that the debt with this number names.
    pub fn owed(&self, number: usize) -> Option<u32>
        ensures { IfSome result (λ q. (number < length self.now.worker.debts) × (q ≡ (debt_at self.now number).1)) }
    {
        let debts = self.worker.debts.as_slice();
        if number < debts.len() {
            Some(debts[number].1)
        } else {
            None
        }
    }

    /// Notes that the word of a job was read.
    pub fn read(&mut self, job: u32, word: u64)
        requires { self.old.worker.readings < 2 ^ 64 - 1 }
        ensures { self.new ≡ read_view self.old job word }
    {
        self.worker.readings += 1;
        self.worker.last = (job, word);
    }

    /// Begins to run a job whose word was 0.
    fn get(&mut self, alloc: Global, job: u32) -> Result<(), NoMemory>
        requires { self.old.worker.readings < 2 ^ 64 - 1 }
        ensures { OnOk result (self.new ≡ got_view self.old job) }
    {
        let picture = words_of(alloc, self.worker.script.list(job as usize))?;
        self.worker.runs = Some(RunningJob { job, picture });
        self.read(job, 0);
        Ok(())
    }

    /// Claims a job whose word was `word`.
    pub fn claim(&mut self, alloc: Global, job: u32, word: u64) -> Result<(), NoMemory>
        requires { self.old.worker.readings < 2 ^ 64 - 1 }
        ensures { OnOk result (self.new ≡ claim_view self.old job word) }
    {
        if word == 0 {
            self.get(alloc, job)?;
        } else {
            self.read(job, word);
        }
        Ok(())
    }

    /// Changes a word of the picture, if a job runs.
    pub fn paint(&mut self, word: usize, value: u64)
        ensures { self.new ≡ painted self.old word value }
    {
        if let Some(running) = &mut self.worker.runs {
            running.picture.set(word, value);
        }
    }

    /// Ends a job.
    pub fn end(&mut self, alloc: Global, job: u32) -> Result<(), NoMemory>
        requires { job < length self.old.worker.jobs }
        ensures { OnOk result (self.new ≡ ended_view self.old job) }
    {
        self.worker.debts = debts_of(alloc, job, self.worker.jobs.successors(job).as_slice())?;
        self.worker.ended.push(job)?;
        self.worker.runs = None;
        Ok(())
    }

    /// Pays the debt with this number to a successor, whose word is left as this.
    pub fn pay(&mut self, number: usize, successor: u32, left: u64)
        requires number { number < length self.old.worker.debts }
        requires readings { self.old.worker.readings < 2 ^ 64 - 1 }
        ensures { self.new ≡ paid_view self.old successor (front_of self.old number ++ back_of self.old number) left }
    {
        self.worker.debts.remove(number);
        self.read(successor, left);
    }
}

/// What a job owes to these successors.
#[tactic(auto, using(crate::proofs::Covering::debts_more))]
fn debts_of(alloc: Global, job: u32, successors: &[u32]) -> Result<Debts, NoMemory>
    ensures { IfOk result (λ debts. debts ≡ debts_of job successors.now) }
{
    let mut debts = Debts::new(alloc);
    for successor in successors {
        debts.push(job, *successor)?;
    }
    Ok(debts)
}
