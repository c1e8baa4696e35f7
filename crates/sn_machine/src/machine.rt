//! An interpreter of steps: a machine over lists, with a call for each kind of step.
//!
//! A call answers `false` or `None` if the step is not allowed, or something can't be counted, and then nothing
//! changes. After an `Err` the machine may have changed in part.
ghost use Rattle.std.specs.Prelude.{◌≡◌, ◌++◌, IfOk, IfSome, slice_index, true};
ghost use Rattle.sn_machine.specs.declared.views.View.{View as Seen};
ghost use Rattle.sn_machine.specs.States.{At, IsIdle, idle_main, opening};
ghost use Rattle.sn_machine.specs.Steps.{after_memory, after_count, CanGo, after_go, CanClaim, after_claim, CanLoad, CanStore, after_store, CanEnd, after_end, Owes, after_release, CanRest, after_rest, CanSplit, after_split, CanJoin, after_join, after_look};
ghost use Rattle.sn_machine.specs.Fits.{job_of, picture_of};
ghost use Rattle.sn_machine.specs.Calls.{state_of, Takes, Joins, debt_at, front_of, back_of};

use crate::lists::{RestedRounds, Script, Words};
use crate::rounds::{no_worker, spent};
use crate::views::{Main, Phase, View};
use crate::worker::{ENDED, claim_word};
use sn_ports::NoMemory;
use sn_round::{Jobs, Plan};
use std::alloc::Global;

/// The memory words, the job words, and the view of each seat, main's first.
#[derive(Drop)]
pub struct Machine {
    /// The memory words.
    pub memory: Words,
    /// The job words.
    pub counts: Words,
    /// The views of the seats.
    pub views: Vec<View>,
}

fn idle_main(alloc: Global, memory: Words, counts: Words) -> Main
    ensures { result ≡ idle_main memory counts }
{
    Main {
        phase: Phase::Idle(memory, counts),
        live: 0,
        joined: false,
        ended: Jobs::new(alloc),
        rested: RestedRounds::new(alloc),
        stores: 0,
    }
}

impl Machine {
    /// A machine with these words and main's seat alone, between two rounds.
    pub fn new(alloc: Global, memory: Words, counts: Words) -> Result<Machine, NoMemory>
        ensures { IfOk result (λ machine. state_of machine ≡ opening memory counts) }
    {
        let main = View {
            size: memory.as_slice().len() as u64,
            room: counts.as_slice().len() as u64,
            main: idle_main(alloc, memory.copied(alloc)?, counts.copied(alloc)?),
            worker: no_worker(alloc)?,
        };
        let mut views = Vec::new(alloc);
        views.push(main)?;
        Ok(Machine {
            memory,
            counts,
            views,
        })
    }

    /// Main stores to a memory word, while no round runs.
    pub fn store_idle(&mut self, word: usize, value: u64) -> bool
        ensures { Takes (state_of self.old) 0 IsIdle (λ m. after_memory (state_of self.old) m word value) result (state_of self.new) }
    {
        if self.views.is_empty() || !self.views[0].is_idle() || !self.views[0].can_count() {
            return false;
        }
        let main = &mut self.views[0];
        main.store_idle(word, value);
        self.memory.set(word, value);
        true
    }

    /// Main stores to a job word, while no round runs.
    pub fn arm(&mut self, job: usize, count: u64) -> bool
        ensures { Takes (state_of self.old) 0 IsIdle (λ m. after_count (state_of self.old) m job count) result (state_of self.new) }
    {
        if self.views.is_empty() || !self.views[0].is_idle() {
            return false;
        }
        let main = &mut self.views[0];
        main.arm(job, count);
        self.counts.set(job, count);
        true
    }

    /// Main begins a round of these jobs with this script.
    pub fn go(&mut self, alloc: Global, plan: Plan, script: Script) -> Result<bool, NoMemory>
        ensures { IfOk result (λ done. Takes (state_of self.old) 0 (λ m. CanGo m plan script) (λ m. after_go (state_of self.old) m plan script) done (state_of self.new)) }
    {
        if self.views.is_empty() || !self.views[0].may_go(alloc, &plan, &script)? {
            return Ok(false);
        }
        let main = &mut self.views[0];
        main.go(alloc, plan, script)?;
        Ok(true)
    }

    /// A worker claims a job.
    pub fn claim(&mut self, alloc: Global, seat: usize, job: u32) -> Result<bool, NoMemory>
        ensures { IfOk result (λ done. Takes (state_of self.old) seat (λ v. CanClaim v job) (λ v. after_claim (state_of self.old) seat v job) done (state_of self.new)) }
    {
        if seat >= self.views.len()
            || !self.views[seat].may_claim(job)
            || !self.views[seat].can_read()
        {
            return Ok(false);
        }
        let word = self.counts.word(job as usize);
        let view = &mut self.views[seat];
        view.claim(alloc, job, word)?;
        self.counts.set(job as usize, claim_word(word));
        Ok(true)
    }

    /// A worker loads a memory word that the job it runs may touch.
    pub fn load(&self, seat: usize, word: usize) -> Option<u64>
        ensures { IfSome result (λ found. (found ≡ slice_index self.now.memory word) × ((v : Seen) × At self.now.views.items seat v × CanLoad v (job_of v) (picture_of v) word)) }
    {
        if seat >= self.views.len() || !self.views[seat].may_load(word as u64) {
            return None;
        }
        Some(self.memory.word(word))
    }

    /// A worker stores to a memory word that the job it runs may write.
    pub fn store(&mut self, seat: usize, word: usize, value: u64) -> bool
        ensures { Takes (state_of self.old) seat (λ v. CanStore v (job_of v) (picture_of v) word) (λ v. after_store (state_of self.old) seat v (job_of v) (picture_of v) word value) result (state_of self.new) }
    {
        if seat >= self.views.len() || !self.views[seat].may_store(word as u64) {
            return false;
        }
        let view = &mut self.views[seat];
        view.paint(word, value);
        self.memory.set(word, value);
        true
    }

    /// A worker ends the job that it runs.
    pub fn end(&mut self, alloc: Global, seat: usize) -> Result<bool, NoMemory>
        ensures { IfOk result (λ done. Takes (state_of self.old) seat (λ v. CanEnd v (job_of v) (picture_of v)) (λ v. after_end (state_of self.old) seat v (job_of v)) done (state_of self.new)) }
    {
        if seat >= self.views.len() {
            return Ok(false);
        }
        let Some(job) = self.views[seat].finished() else {
            return Ok(false);
        };
        let view = &mut self.views[seat];
        view.end(alloc, job)?;
        self.counts.set(job as usize, ENDED);
        Ok(true)
    }

    /// A worker pays the debt with this number.
    pub fn release(&mut self, seat: usize, number: usize) -> bool
        ensures { Takes (state_of self.old) seat (λ v. Owes v (front_of v number) (debt_at v number).0 (debt_at v number).1 (back_of v number)) (λ v. after_release (state_of self.old) seat v (debt_at v number).1 (front_of v number ++ back_of v number)) result (state_of self.new) }
    {
        if seat >= self.views.len() || !self.views[seat].can_read() {
            return false;
        }
        let Some(successor) = self.views[seat].owed(number) else {
            return false;
        };
        let left = self.counts.less(successor as usize);
        let view = &mut self.views[seat];
        view.pay(number, successor, left);
        self.counts.set(successor as usize, left);
        true
    }

    /// Main rests.
    pub fn rest(&mut self, alloc: Global) -> Result<bool, NoMemory>
        ensures { IfOk result (λ done. Takes (state_of self.old) 0 CanRest (λ m. after_rest (state_of self.old) m) done (state_of self.new)) }
    {
        if self.views.is_empty() || !self.views[0].may_rest() {
            return Ok(false);
        }
        let main = &mut self.views[0];
        main.rest(alloc)?;
        Ok(true)
    }

    /// Main splits a worker's seat.
    pub fn split(&mut self, alloc: Global) -> Result<bool, NoMemory>
        ensures { IfOk result (λ done. Takes (state_of self.old) 0 CanSplit (λ m. after_split (state_of self.old) m) done (state_of self.new)) }
    {
        if self.views.is_empty() || !self.views[0].may_split() || !self.views[0].can_count() {
            return Ok(false);
        }
        let worker = self.views[0].new_worker(alloc)?;
        let main = &mut self.views[0];
        main.count_split();
        self.views.push(worker)?;
        Ok(true)
    }

    /// Main joins a worker's seat.
    pub fn join(&mut self, alloc: Global, seat: usize) -> Result<bool, NoMemory>
        ensures { IfOk result (λ done. Joins (state_of self.old) seat done (state_of self.new)) }
    {
        if seat == 0 || seat >= self.views.len() || !self.views[seat].is_free() {
            return Ok(false);
        }
        let ended = self.views[seat].worker.ended.copied(alloc)?;
        let left = spent(alloc)?;
        let main = &mut self.views[0];
        main.take_in(ended.as_slice())?;
        self.views[seat] = left;
        Ok(true)
    }

    /// A worker looks at the word of a job.
    pub fn look(&mut self, seat: usize, job: u32) -> bool
        ensures { Takes (state_of self.old) seat (λ v. v.worker.live ≡ true) (λ v. after_look (state_of self.old) seat v job) result (state_of self.new) }
    {
        if seat >= self.views.len() || !self.views[seat].may_look() {
            return false;
        }
        let word = self.counts.word(job as usize);
        let view = &mut self.views[seat];
        view.read(job, word);
        true
    }
}
