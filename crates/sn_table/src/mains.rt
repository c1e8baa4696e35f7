//! Main's calls.
ghost use Rattle.std.specs.Prelude.{◌≡◌, ◌<◌, ◌≤◌, List, ℕ, length, slice_index};
ghost use Rattle.sn_machine.specs.States.{IsIdle, counts_in, memory_in};
ghost use Rattle.sn_machine.specs.Steps.{CanGo, CanJoin, CanRest, go_view, join_view, rested_view, set_count, set_memory};
ghost use Rattle.sn_round.specs.Scripts.{sequential};
ghost use Rattle.sn_table.specs.Arming.{armed_view};
ghost use Rattle.sn_table.specs.Rounds.{IsArmed, Suits, IsWorkOf};
ghost use Rattle.sn_table.specs.Answers.{view, main_view, IsSeatOf, IsMainOf};

use crate::rule::{Goes, Going, Joins, LoadsIdle, Rests, WritesCount, WritesMemory};
use crate::seats::{MainSeat, Shared, WorkerSeat};
use sn_round::{Plan, Work};
use std::marker::Brand;

impl Shared {
    /// Loads a memory word, while no round runs.
    pub fn load(&self, main: &mut MainSeat, at: u32) -> u64
        requires main { IsMainOf self.now main.old }
        requires idle { IsIdle (main_view main.old) }
        requires at { at < self.now.words }
        ensures main { IsMainOf self.now main.new }
        ensures word { result ≡ slice_index (memory_in (main_view main.old).main.phase) at }
        ensures same { main_view main.new ≡ main_view main.old }
    {
        self.table
            .shared
            .load::<LoadsIdle>(&mut main.place, at as usize)
    }

    /// Stores to a memory word, while no round runs.
    pub fn store(&self, main: &mut MainSeat, at: u32, value: u64)
        requires main { IsMainOf self.now main.old }
        requires idle { IsIdle (main_view main.old) }
        requires at { at < self.now.words }
        ensures main { IsMainOf self.now main.new }
        ensures step { main_view main.new ≡ set_memory (main_view main.old) at value }
    {
        self.table
            .shared
            .store::<WritesMemory>(&mut main.place, at as usize, value);
    }

    /// Stores to a job word, while no round runs.
    fn set(&self, main: &mut MainSeat, job: u32, value: u64)
        requires main { IsMainOf self.now main.old }
        requires idle { IsIdle (main_view main.old) }
        requires job { job < self.now.jobs }
        ensures main { IsMainOf self.now main.new }
        ensures step { main_view main.new ≡ set_count (main_view main.old) job value }
    {
        let at = self.words as usize + job as usize;
        self.table
            .shared
            .store::<WritesCount>(&mut main.place, at, value);
    }

    /// Stores each job's number of predecessors to its word, while no round runs.
    pub fn arm(&self, main: &mut MainSeat, plan: &Plan)
        requires main { IsMainOf self.now main.old }
        requires idle { IsIdle (main_view main.old) }
        requires few { length plan.now ≤ self.now.jobs }
        ensures main { IsMainOf self.now main.new }
        ensures step { main_view main.new ≡ armed_view (main_view main.old) plan.now }
        ensures armed { IsArmed (counts_in (main_view main.new).main.phase) plan.now }
    {
        for job in 0..plan.jobs() {
            let count = plan.predecessors(job).as_slice().len() as u64;
            self.set(main, job, count);
        }
    }

    fn go_as<C: Going, W: Work>(&self, main: &mut MainSeat, _work: &W, _plan: &Plan)
        requires main { IsMainOf self.now main.old }
        requires may { CanGo (main_view main.old) C.jobs C.script }
        ensures main { IsMainOf self.now main.new }
        ensures step { main_view main.new ≡ go_view (main_view main.old) C.jobs C.script }
    {
        self.table.shared.load::<Goes<C>>(&mut main.place, 0);
    }

    /// Begins a round of these jobs, whose words are armed. Its script is what the work makes of the memory words, job
    /// after job.
    pub fn go<W: Work>(&self, main: &mut MainSeat, work: &W, plan: &Plan)
        requires main { IsMainOf self.now main.old }
        requires idle { IsIdle (main_view main.old) }
        requires armed { IsArmed (counts_in (main_view main.old).main.phase) plan.now }
        requires plan { Suits self.now plan.now }
        requires work { IsWorkOf (W.jobs work.now) (W.foot_of work.now) plan.now }
        ensures main { IsMainOf self.now main.new }
        ensures step { main_view main.new ≡ go_view (main_view main.old) plan.now (sequential (W.outcome work.now) (length plan.now) (memory_in (main_view main.old).main.phase)) }
    {
        self.go_as::<Brand, W>(main, work, plan);
    }

    /// Ends the round, in which no worker's seat is live and each job is known to have ended.
    pub fn rest(&self, main: &mut MainSeat)
        requires main { IsMainOf self.now main.old }
        requires may { CanRest (main_view main.old) }
        ensures main { IsMainOf self.now main.new }
        ensures step { main_view main.new ≡ rested_view (main_view main.old) }
    {
        self.table.shared.load::<Rests>(&mut main.place, 0);
    }

    /// Joins a worker's seat that runs nothing and owes nothing.
    pub fn join(&self, main: &mut MainSeat, worker: WorkerSeat)
        requires main { IsMainOf self.now main.old }
        requires worker { IsSeatOf self.now worker }
        requires may { CanJoin (view worker) }
        ensures main { IsMainOf self.now main.new }
        ensures step { main_view main.new ≡ join_view (main_view main.old) (view worker) }
    {
        let WorkerSeat {
            place,
            job: _,
            paid: _,
            owing: _,
        } = worker;
        self.table.shared.join_seat::<Joins>(&mut main.place, place);
    }
}
