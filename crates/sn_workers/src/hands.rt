//! Rounds whose jobs several threads share.
ghost use Rattle.std.specs.Prelude.{◌≡◌, ◌<◌, ◌-◌, length, All, true, false};
ghost use Rattle.std.specs.Thread.{IsSync};
ghost use Rattle.sn_machine.specs.States.{IsIdle, jobs_in, memory_in};
ghost use Rattle.sn_machine.specs.Steps.{split_worker};
ghost use Rattle.sn_round.specs.Scripts.{list_at, sequential};
ghost use Rattle.sn_table.specs.Answers.{main_view, IsMainOf};
ghost use Rattle.sn_table.specs.Rounds.{Suits, IsWorkOf};
ghost use Rattle.sn_table.specs.Seats.{IsReady, IsBack, Stands};
ghost use Rattle.sn_table.specs.Sweeps.{Serves};
ghost use Rattle.sn_workers.specs.Hands.{Seated};

use sn_crew::finish;
use sn_machine::ENDED;
use sn_mem::Scratch;
use sn_ports::Open;
use sn_round::{Plan, Work};
use sn_table::{Claim, MainSeat, Shared, WorkerSeat, run_one};
use std::thread::{Threads, for_each_mut};

/// How often a worker goes over the jobs, at most.
const TURNS: u32 = 10_000;

/// What a thread has: a seat while a round runs, and what its jobs need.
#[derive(Drop)]
pub struct Hand {
    pub seat: Option<WorkerSeat>,
    pub scratch: Scratch,
}

/// Reads the word of a job.
fn look<W: Work>(shared: &Shared, seat: &mut WorkerSeat, _work: &W, plan: &Plan, job: u32) -> u64
    requires ready { IsReady shared.now (W.jobs _work.now) (W.foot_of _work.now) (W.outcome _work.now) plan.now seat.old }
    requires job { job < length plan.now }
    ensures { IsReady shared.now (W.jobs _work.now) (W.foot_of _work.now) (W.outcome _work.now) plan.now seat.new }
{
    shared.look(seat, job)
}

/// Runs a job, if it can be claimed.
fn try_one<W: Work>(
    shared: &Shared,
    seat: &mut WorkerSeat,
    work: &W,
    plan: &Plan,
    job: u32,
    scratch: &mut Scratch,
)
    requires may { W.ready work.now }
    requires ready { IsReady shared.now (W.jobs work.now) (W.foot_of work.now) (W.outcome work.now) plan.now seat.old }
    requires job { job < length plan.now }
    ensures { IsReady shared.now (W.jobs work.now) (W.foot_of work.now) (W.outcome work.now) plan.now seat.new }
{
    match shared.claim(seat, job) {
        Claim::Got => run_one(shared, seat, work, plan, job, scratch),
        Claim::Busy { word: _ } => {}
    }
}

/// Goes over the jobs once, and runs those that it gets. It returns whether each had ended.
fn turn<W: Work>(
    shared: &Shared,
    seat: &mut WorkerSeat,
    work: &W,
    plan: &Plan,
    scratch: &mut Scratch,
) -> bool
    requires may { W.ready work.now }
    requires ready { IsReady shared.now (W.jobs work.now) (W.foot_of work.now) (W.outcome work.now) plan.now seat.old }
    ensures { IsReady shared.now (W.jobs work.now) (W.foot_of work.now) (W.outcome work.now) plan.now seat.new }
{
    let mut have_ended = true;
    for job in 0..plan.jobs() {
        let word = look(shared, seat, work, plan, job);
        have_ended = have_ended && word == ENDED;
        if word == 0 {
            try_one(shared, seat, work, plan, job, scratch);
        }
    }
    have_ended
}

/// Goes over the jobs until each has ended.
fn work_seat<W: Work>(
    shared: &Shared,
    seat: &mut WorkerSeat,
    work: &W,
    plan: &Plan,
    scratch: &mut Scratch,
)
    requires may { W.ready work.now }
    requires ready { IsReady shared.now (W.jobs work.now) (W.foot_of work.now) (W.outcome work.now) plan.now seat.old }
    ensures { IsBack shared.now seat.new }
{
    for _ in 0..TURNS {
        if turn(shared, seat, work, plan, scratch) {
            return;
        }
    }
}

fn work_hand<W: Work>(shared: &Shared, hand: &mut Hand, work: &W, plan: &Plan)
    requires may { W.ready work.now }
    requires ready { Seated (IsReady shared.now (W.jobs work.now) (W.foot_of work.now) (W.outcome work.now) plan.now) hand.old.seat }
    ensures { Seated (IsBack shared.now) hand.new.seat }
{
    let Some(mut seat) = hand.seat.take() else {
        unreachable!()
    };
    work_seat(shared, &mut seat, work, plan, &mut hand.scratch);
    hand.seat = Some(seat);
}

/// Each hand works in a thread of its own, if one can be had.
fn work_all<R: Threads + Sync, W: Work>(
    rt: &R,
    shared: &Shared,
    hands: &mut [Hand],
    work: &W,
    plan: &Plan,
)
    requires may { W.ready work.now }
    requires some { 0 < length hands.old }
    requires ready { All (λ hand. Seated (IsReady shared.now (W.jobs work.now) (W.foot_of work.now) (W.outcome work.now) plan.now) hand.seat) hands.old }
    ensures { All (λ hand. Seated (IsBack shared.now) hand.seat) hands.new }
{
    let threads = hands.len();
    for_each_mut(
        rt,
        hands,
        threads,
        &|_i, hand: &mut Hand|
            requires { IsSync W.row × W.ready work.now × Seated (IsReady shared.now (W.jobs work.now) (W.foot_of work.now) (W.outcome work.now) plan.now) hand.old.seat }
            ensures { Seated (IsBack shared.entry.now) hand.new.seat }
        { work_hand(shared, hand, work, plan) },
    );
}

/// Gives each hand a seat.
fn seat_all<W: Work>(
    shared: &Shared,
    main: &mut MainSeat,
    hands: &mut [Hand],
    _work: &W,
    _plan: &Plan,
)
    requires main { IsMainOf shared.now main.old }
    requires begun { Stands (main_view main.old) 0 0 (main_view main.old) }
    requires none_joined { (main_view main.old).main.joined ≡ false }
    requires plan { _plan.now ≡ jobs_in (main_view main.old).main.phase }
    requires work { Serves (W.jobs _work.now) (W.foot_of _work.now) (W.outcome _work.now) (split_worker (main_view main.old)) }
    ensures main { IsMainOf shared.now main.new }
    ensures stands { Stands (main_view main.old) (length hands.old) (length hands.old) (main_view main.new) }
    ensures ready { All (λ hand. Seated (IsReady shared.now (W.jobs _work.now) (W.foot_of _work.now) (W.outcome _work.now) _plan.now) hand.seat) hands.new }
    ensures count { length hands.new ≡ length hands.old }
{
    for k in 0..hands.len() {
        let seat = shared.split(main);
        let hand = &mut hands[k];
        hand.seat = Some(seat);
    }
}

/// Joins the seats of the hands.
fn join_all(shared: &Shared, main: &mut MainSeat, hands: &mut [Hand])
    requires main { IsMainOf shared.now main.old }
    requires stands { Stands (main_view main.old) (length hands.old) (length hands.old) (main_view main.old) }
    requires some { 0 < length hands.old }
    requires back { All (λ hand. Seated (IsBack shared.now) hand.seat) hands.old }
    ensures main { IsMainOf shared.now main.new }
    ensures stands { Stands (main_view main.old) (length hands.old) 0 (main_view main.new) }
    ensures joined { (main_view main.new).main.joined ≡ true }
    ensures count { length hands.new ≡ length hands.old }
{
    for k in 0..hands.len() {
        let hand = &mut hands[k];
        let Some(seat) = hand.seat.take() else {
            unreachable!()
        };
        shared.join(main, seat);
    }
}

/// A round whose jobs the hands share in threads of their own. The words after it are those of one job after another.
pub fn share<R: Threads + Sync, W: Work>(
    rt: &R,
    shared: &Shared,
    main: &mut MainSeat,
    hands: &mut [Hand],
    work: &W,
    plan: &Plan,
)
    requires may { W.ready work.now }
    requires some { 0 < length hands.old }
    requires main { IsMainOf shared.now main.old }
    requires idle { IsIdle (main_view main.old) }
    requires plan { Suits shared.now plan.now }
    requires work { IsWorkOf (W.jobs work.now) (W.foot_of work.now) plan.now }
    ensures main { IsMainOf shared.now main.new }
    ensures idle { IsIdle (main_view main.new) }
    ensures words { memory_in (main_view main.new).main.phase ≡ list_at (sequential (W.outcome work.now) (length plan.now) (memory_in (main_view main.old).main.phase)) (length plan.now) }
    ensures count { length hands.new ≡ length hands.old }
{
    shared.arm(main, plan);
    shared.go(main, work, plan);
    seat_all(shared, main, hands, work, plan);
    work_all(rt, shared, hands, work, plan);
    join_all(shared, main, hands);
    let count = hands.len();
    let first = &mut hands[0];
    finish(shared, main, work, plan, &Open, &mut first.scratch, count);
}
