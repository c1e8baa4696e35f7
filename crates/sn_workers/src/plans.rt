//! Rows of rounds whose jobs several threads share.
ghost use Rattle.std.specs.Prelude.{◌≡◌, ◌<◌, ◌≤◌, IsTrue, IfOk, length};
ghost use Rattle.sn_ports.specs.Limits.{most_workers};
ghost use Rattle.sn_machine.specs.States.{IsIdle};
ghost use Rattle.sn_round.specs.Jobs.{AreJobs, AreWithin, IsRaceFree};
ghost use Rattle.sn_table.specs.Answers.{main_view, IsMainOf};
ghost use Rattle.sn_table.specs.Rounds.{Suits};

use crate::hands::{Hand, share};
use crate::mixing::{FAR, Mixing, NEAR};
use sn_crew::Crew;
use sn_jobs::{no_jobs, put};
use sn_machine::{are_within, is_race_free};
use sn_mem::{AllMoves, Extent, Extents, Foot, Moves, Scratch, store_words};
use sn_ports::{Gate, NoMemory};
use sn_round::{Ids, Job, Jobs, Plan, SharedFoot};
use sn_table::{MainPort, MainSeat, Shared};
use std::alloc::Global;
use std::thread::Threads;

/// How many jobs a round has. Each has a word of its own.
const JOBS: u32 = 200;

fn put_word(extents: &mut Extents, at: u32) -> Result<(), NoMemory> {
    extents.push(Extent { at, len: 1 })
}

/// A job that writes its own word, and reads those of two jobs before it.
fn mixing_job(alloc: Global, job: u32) -> Result<Job, NoMemory> {
    let near = job.saturating_sub(NEAR);
    let far = job.saturating_sub(FAR);
    let mut reads = Extents::new(alloc);
    put_word(&mut reads, far)?;
    put_word(&mut reads, near)?;
    let mut writes = Extents::new(alloc);
    put_word(&mut writes, job)?;
    let mut before = Jobs::new(alloc);
    if far < near {
        before.push(far)?;
    }
    if near < job {
        before.push(near)?;
    }
    Ok(Job {
        synths: Ids::new(alloc),
        moves: AllMoves::new(alloc),
        lanes: Moves::new(alloc),
        foot: SharedFoot::new(alloc, Foot { reads, writes })?,
        before,
    })
}

fn mixing_plan(alloc: Global) -> Result<Plan, NoMemory> {
    let mut jobs = no_jobs(alloc);
    for number in 0..JOBS {
        let job = mixing_job(alloc, number)?;
        put(&mut jobs, job)?;
    }
    Plan::new(alloc, jobs)
}

fn no_hands(alloc: Global, count: u32) -> Result<Vec<Hand>, NoMemory> {
    let mut hands = Vec::new(alloc);
    for _ in 0..count {
        let scratch = Scratch::new(alloc)?;
        hands.push(Hand {
            seat: None,
            scratch,
        })?;
    }
    Ok(hands)
}

/// A first word for each job.
fn first_words() -> [u64; JOBS as usize] {
    let mut words = [0u64; JOBS as usize];
    for word in 0..words.len() {
        words[word] = (word as u64).wrapping_mul(7);
    }
    words
}

/// Stores a first word for each job, by the port of the commands.
fn fill(shared: &Shared, main: &mut MainSeat)
    requires words { shared.now.words ≡ 200 }
    requires main { IsMainOf shared.now main.old }
    requires idle { IsIdle (main_view main.old) }
    ensures main { IsMainOf shared.now main.new }
    ensures idle { IsIdle (main_view main.new) }
{
    let words = first_words();
    let mut port = MainPort::new(shared, main);
    store_words(&mut port, 0, &words);
}

/// A sum of all words that depends on their order.
fn sum(shared: &Shared, main: &mut MainSeat) -> u64
    requires words { shared.now.words ≡ 200 }
    requires main { IsMainOf shared.now main.old }
    requires idle { IsIdle (main_view main.old) }
{
    let mut sum: u64 = 0;
    for word in 0..JOBS {
        sum = sum.wrapping_mul(31).wrapping_add(shared.load(main, word));
    }
    sum
}

/// Plays rounds one after another, and answers the sum of their words.
fn play(
    rt: &(impl Threads + Sync),
    shared: &Shared,
    main: &mut MainSeat,
    hands: &mut [Hand],
    plan: &Plan,
    rounds: u32,
) -> u64
    requires words { shared.now.words ≡ 200 }
    requires some { 0 < length hands.old }
    requires main { IsMainOf shared.now main.old }
    requires idle { IsIdle (main_view main.old) }
    requires plan { Suits shared.now plan.now }
{
    let work = Mixing { plan };
    for _ in 0..rounds {
        share(rt, shared, main, hands, &work, plan);
    }
    sum(shared, main)
}

/// Plays rounds of a crew one after another, and answers the sum of their words.
fn play_crew(
    rt: &(impl Threads + Sync),
    shared: &Shared,
    main: &mut MainSeat,
    crew: &mut Crew,
    plan: &Plan,
    gate: &impl Gate,
    rounds: u32,
) -> u64
    requires words { shared.now.words ≡ 200 }
    requires main { IsMainOf shared.now main.old }
    requires idle { IsIdle (main_view main.old) }
    requires plan { Suits shared.now plan.now }
{
    let work = Mixing { plan };
    for _ in 0..rounds {
        crew.round(rt, shared, main, &work, plan, gate);
    }
    sum(shared, main)
}

/// Whether the jobs of a plan can share the words of a table.
fn can_share(alloc: Global, plan: &Plan) -> Result<bool, NoMemory>
    ensures few { IfOk result (λ can. IsTrue can → length plan.now ≤ 200) }
    ensures free { IfOk result (λ can. IsTrue can → IsRaceFree plan.now) }
    ensures within { IfOk result (λ can. IsTrue can → AreWithin 200 plan.now) }
{
    let free = is_race_free(alloc, plan)?;
    Ok(free && plan.jobs() <= JOBS && are_within(plan, u64::from(JOBS)))
}

/// Opens the words of a plan, if its jobs can share them, and plays rounds in `threads` threads.
pub fn mixed(
    rt: &(impl Threads + Sync),
    alloc: Global,
    threads: u32,
    rounds: u32,
) -> Result<Option<u64>, NoMemory> {
    let plan = mixing_plan(alloc)?;
    plan.is_well_formed();
    let mut hands = no_hands(alloc, threads)?;
    if !can_share(alloc, &plan)? || hands.is_empty() {
        return Ok(None);
    }
    let (shared, mut main) = Shared::open(alloc, JOBS, JOBS)?;
    fill(&shared, &mut main);
    let sum = play(rt, &shared, &mut main, hands.as_mut_slice(), &plan, rounds);
    Ok(Some(sum))
}

/// The same by a crew of `workers` workers, with a gate before each job.
pub fn mixed_by_crew(
    rt: &(impl Threads + Sync),
    alloc: Global,
    workers: u32,
    gate: &impl Gate,
    rounds: u32,
) -> Result<Option<u64>, NoMemory>
    requires { (1 ≤ workers) × (workers ≤ most_workers) }
{
    let plan = mixing_plan(alloc)?;
    plan.is_well_formed();
    if !can_share(alloc, &plan)? {
        return Ok(None);
    }
    let (shared, mut main) = Shared::open(alloc, JOBS, JOBS)?;
    let mut crew = Crew::open(alloc, workers)?;
    fill(&shared, &mut main);
    let sum = play_crew(rt, &shared, &mut main, &mut crew, &plan, gate, rounds);
    Ok(Some(sum))
}
