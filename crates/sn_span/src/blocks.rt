//! The jobs of several blocks.
ghost use Rattle.std.specs.Prelude.{◌≡◌, ◌<◌, ◌≤◌, ◌+◌, ◌*◌, ◌++◌, ◌∷◌, [], ℕ, List, IfOk, OnOk, length, map};
ghost use Rattle.std.specs.List.{All};
ghost use Rattle.sn_ports.specs.Limits.{block_samples, most_jobs};
ghost use Rattle.sn_mem.specs.Blocks.{table};
ghost use Rattle.sn_round.specs.Jobs.{IsRaceFree};
ghost use Rattle.sn_span.specs.Rounds.{EndsAsRounds, HasCopies, KeepToFeet};
ghost use Rattle.sn_span.specs.Unrolling.{block_of, capture_foot, capture_of, copy_at, entry, job_in, last_jobs, predecessors_in, start, unrolled};

use sn_mem::{AllMoves, Extent, Extents, Foot, Moves};
use sn_ports::NoMemory;
use sn_ports::limits::BLOCK_SAMPLES;
use sn_round::{Ids, Job, Jobs, Plan, SharedFoot};
use std::alloc::Global;

/// How many words a copy of the outputs has.
pub const COPY_WORDS: u32 = BLOCK_SAMPLES as u32;

/// The capture of the block before, if there is one.
#[tactic(auto, unfolding(crate::specs::Unrolling::entry))]
fn entry(alloc: Global, count: u32, block: u32) -> Result<Jobs, NoMemory>
    requires { start count block < 4294967296 }
    ensures { IfOk result (λ jobs. jobs ≡ entry count block) }
{
    let mut jobs = Jobs::new(alloc);
    if block > 0 {
        jobs.push(block * (count + 1) - 1)?;
    }
    Ok(jobs)
}

/// The jobs, each number raised by `by`.
fn shifted(alloc: Global, by: u32, jobs: &[u32]) -> Result<Jobs, NoMemory>
    requires { All (λ p. by + p < 4294967296) jobs.now }
    ensures { IfOk result (λ moved. moved ≡ map (λ p. by + p) jobs.now) }
{
    let mut moved = Jobs::new(alloc);
    for job in jobs {
        moved.push(by + *job)?;
    }
    Ok(moved)
}

/// The predecessors, in a block, of a job that has these in the plan.
#[tactic(auto, unfolding(crate::specs::Unrolling::predecessors_in))]
fn predecessors_in(alloc: Global, count: u32, block: u32, before: &Jobs) -> Result<Jobs, NoMemory>
    requires room { start count block + count + 1 < 4294967296 }
    requires before { All (λ p. start count block + p < 4294967296) before.now }
    ensures { IfOk result (λ jobs. jobs ≡ predecessors_in count block before.now) }
{
    if before.as_slice().is_empty() {
        return entry(alloc, count, block);
    }
    shifted(alloc, block * (count + 1), before.as_slice())
}

/// A job of a block.
fn job_in(alloc: Global, plan: &Plan, block: u32, job: u32) -> Result<Job, NoMemory>
    requires job { job < length plan.now }
    requires room { start (length plan.now) block + length plan.now + 1 < 4294967296 }
    ensures { IfOk result (λ it. it ≡ job_in plan.now block job) }
{
    plan.is_well_formed();
    Ok(Job {
        synths: plan.synths(job).copied(alloc)?,
        moves: plan.all_moves(job).copied(alloc)?,
        lanes: plan.lanes(job).copied(alloc)?,
        foot: plan.shared_foot(job).again()?,
        before: predecessors_in(alloc, plan.jobs(), block, plan.predecessors(job))?,
    })
}

/// The jobs that have no successors.
#[tactic(auto, unfolding(crate::specs::Unrolling::last_jobs))]
fn last_jobs(alloc: Global, plan: &Plan) -> Result<Jobs, NoMemory>
    ensures { IfOk result (λ last. last ≡ last_jobs plan.now) }
{
    let mut last = Jobs::new(alloc);
    for job in 0..plan.jobs() {
        if plan.successors(job).as_slice().is_empty() {
            last.push(job)?;
        }
    }
    Ok(last)
}

/// The same extents.
fn copied_extents(alloc: Global, extents: &Extents) -> Result<Extents, NoMemory>
    ensures { IfOk result (λ copy. copy ≡ extents.now) }
{
    let mut copy = Extents::new(alloc);
    for extent in extents.as_slice() {
        copy.push(*extent)?;
    }
    Ok(copy)
}

/// What the capture of a block may touch.
fn capture_foot(
    alloc: Global,
    outputs: &Extents,
    at: u32,
    block: u32,
) -> Result<SharedFoot, NoMemory>
    requires { at + block_samples * block < 4294967296 }
    ensures { IfOk result (λ foot. foot ≡ capture_foot outputs.now at block) }
{
    let reads = copied_extents(alloc, outputs)?;
    let mut writes = Extents::new(alloc);
    writes.push(Extent {
        at: at + COPY_WORDS * block,
        len: COPY_WORDS,
    })?;
    SharedFoot::new(alloc, Foot { reads, writes })
}

/// Puts the jobs of a block.
fn put_jobs(alloc: Global, plan: &Plan, block: u32, jobs: &mut Vec<Job>) -> Result<(), NoMemory>
    requires { start (length plan.now) block + length plan.now + 1 < 4294967296 }
    ensures { OnOk result (jobs.new.items ≡ jobs.old.items ++ table (job_in plan.now block) (length plan.now)) }
{
    for job in 0..plan.jobs() {
        let next = job_in(alloc, plan, block, job)?;
        jobs.push(next)?;
    }
    Ok(())
}

/// Puts the jobs of a block, and then its capture.
fn put_block(
    alloc: Global,
    plan: &Plan,
    last: &Jobs,
    outputs: &Extents,
    at: u32,
    block: u32,
    jobs: &mut Vec<Job>,
) -> Result<(), NoMemory>
    requires last { last.now ≡ last_jobs plan.now }
    requires room { start (length plan.now) (block + 1) < 4294967296 }
    requires copies { at + block_samples * block < 4294967296 }
    ensures { OnOk result (jobs.new.items ≡ jobs.old.items ++ block_of plan.now outputs.now at block) }
{
    put_jobs(alloc, plan, block, jobs)?;
    let capture = Job {
        synths: Ids::new(alloc),
        moves: AllMoves::new(alloc),
        lanes: Moves::new(alloc),
        foot: capture_foot(alloc, outputs, at, block)?,
        before: predecessors_in(alloc, plan.jobs(), block, last)?,
    };
    jobs.push(capture)?;
    Ok(())
}

/// The jobs of `blocks` blocks.
fn jobs_of_blocks(
    alloc: Global,
    plan: &Plan,
    blocks: u32,
    outputs: &Extents,
    at: u32,
) -> Result<Plan, NoMemory>
    requires jobs { start (length plan.now) blocks ≤ most_jobs }
    requires copies { at + block_samples * blocks < 4294967296 }
    ensures { IfOk result (λ answer. answer ≡ unrolled plan.now outputs.now at blocks) }
{
    plan.is_well_formed();
    let last = last_jobs(alloc, plan)?;
    let mut jobs = Vec::new(alloc);
    for block in 0..blocks {
        put_block(alloc, plan, &last, outputs, at, block, &mut jobs)?;
    }
    Plan::new(alloc, jobs)
}

/// The plan of `blocks` blocks in one round: in each block the jobs of `plan`, and then a job that captures its
/// outputs.
///
/// If `plan` has n jobs, job i of block k has the number `k * (n + 1) + i`, and the capture of block k comes after its
/// jobs, as number `k * (n + 1) + n`. It may read the extents `outputs`, and write the words of a copy from
/// `copies.at + COPY_WORDS * k` on. It follows all jobs of its block, and all later ones follow it.
///
/// The plan is free of races if `plan` is. Assume three things: the jobs of a block make of the words what they make in
/// a round of `plan`, each capture copies the sound of its block (`captured`), and nothing else touches the copies.
/// Then the words after a round of this plan are those after the rounds of `plan`, except in the copies. The copy of
/// each block holds the samples that are heard of the outputs after its round.
pub fn unroll(
    alloc: Global,
    plan: &Plan,
    blocks: u32,
    outputs: &Extents,
    copies: Extent,
) -> Result<Plan, NoMemory>
    requires jobs { start (length plan.now) blocks ≤ most_jobs }
    requires copies { copies.at + block_samples * blocks < 4294967296 }
    ensures plan { IfOk result (λ all. all ≡ unrolled plan.now outputs.now copies.at blocks) }
    ensures race_free { IsRaceFree plan.now → IfOk result (λ all. IsRaceFree all) }
    ensures rounds { (b : ℕ) (f : ℕ → ℕ → List ℕ → List ℕ) (base : List ℕ) → HasCopies plan.now outputs.now copies blocks (length base) → KeepToFeet plan.now blocks f
        → IfOk result (λ all. EndsAsRounds plan.now outputs.now copies.at blocks b f base all) }
{
    plan.is_well_formed();
    jobs_of_blocks(alloc, plan, blocks, outputs, copies.at)
}
