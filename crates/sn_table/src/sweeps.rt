//! The sweep: every job that is still to run, in walk order, behind a gate.
ghost use Rattle.std.specs.Prelude.{◌≡◌, ◌+◌, ◌<◌, ℕ, List, length, true};
ghost use Rattle.sn_mem.specs.declared.extents.Foot.{Foot};
ghost use Rattle.sn_machine.specs.States.{RunsJob};
ghost use Rattle.sn_round.specs.Jobs.{AreJobs, foot_at};
ghost use Rattle.sn_round.specs.Scripts.{list_at};
ghost use Rattle.sn_table.specs.Answers.{view, IsSeatOf};
ghost use Rattle.sn_table.specs.Sweeps.{Ran, IsDone, Paid, SweepsWell, Serves};

use crate::job::run_job;
use crate::seats::{Claim, Release, Shared, WorkerSeat};
use sn_machine::ENDED;
use sn_mem::Scratch;
use sn_ports::Gate;
use sn_round::{Plan, Work};

/// Pays every debt.
pub fn release_all(shared: &Shared, seat: &mut WorkerSeat, plan: &Plan)
    requires seat { IsSeatOf shared.now seat.old }
    requires plan { plan.now ≡ (view seat.old).worker.jobs }
    ensures seat { IsSeatOf shared.now seat.new }
    ensures paid { Paid (view seat.old) (view seat.new) }
{
    let mut more = true;
    while more {
        more = match shared.release(seat, plan) {
            Release::NoMore => false,
            Release::Ready(_) => true,
            Release::Held(_) => true,
        };
    }
}

/// Runs a job that was just got, ends it and pays what it owes.
pub fn run_one<W: Work>(
    shared: &Shared,
    seat: &mut WorkerSeat,
    work: &W,
    plan: &Plan,
    job: u32,
    scratch: &mut Scratch,
)
    requires ready { W.ready work.now }
    requires seat { IsSeatOf shared.now seat.old }
    requires plan { plan.now ≡ (view seat.old).worker.jobs }
    requires work { Serves (W.jobs work.now) (W.foot_of work.now) (W.outcome work.now) (view seat.old) }
    requires job { job < length plan.now }
    requires runs { RunsJob (view seat.old) job (list_at (view seat.old).worker.script job) }
    ensures seat { IsSeatOf shared.now seat.new }
    ensures ran { Ran (view seat.old) job (view seat.new) }
{
    run_job(shared, seat, work, job, scratch);
    shared.end(seat);
    release_all(shared, seat, plan);
}

/// Runs each job that has not ended, in walk order. It looks at a job before it claims it, and passes the gate before
/// it runs it.
pub fn sweep<W: Work, G: Gate>(
    shared: &Shared,
    seat: &mut WorkerSeat,
    work: &W,
    plan: &Plan,
    gate: &G,
    scratch: &mut Scratch,
)
    requires may { W.ready work.now }
    requires seat { IsSeatOf shared.now seat.old }
    requires plan { plan.now ≡ (view seat.old).worker.jobs }
    requires work { Serves (W.jobs work.now) (W.foot_of work.now) (W.outcome work.now) (view seat.old) }
    requires well { SweepsWell (view seat.old) }
    ensures seat { IsSeatOf shared.now seat.new }
    ensures well { SweepsWell (view seat.new) }
    ensures done { IsDone (view seat.new) (length plan.now) }
{
    plan.is_well_formed();
    for job in 0..plan.jobs() {
        if shared.look(seat, job) == ENDED {
            continue;
        }
        match shared.claim(seat, job) {
            Claim::Got => {
                gate.pass(job);
                run_one(shared, seat, work, plan, job, scratch);
            }
            Claim::Busy { word: _ } => {}
        }
    }
}
