//! How much of a block can be done at the same time, and whether lanes and threads pay. No contract rests on the
//! threads.
ghost use Rattle.std.specs.Prelude.{◌≡◌, ◌-◌, ℕ, List};
ghost use Rattle.sn_tree.specs.Trees.{running_labels};
ghost use Rattle.sn_world.specs.World.{world_of};
ghost use Rattle.sn_engine.specs.Weighing.{has_lanes, held_more, labels_more};

use sn_ports::NoMemory;
use sn_round::Plan;
use sn_world::{Held, Stage};
use std::alloc::Global;

/// For so many units a round of one block starts one more thread: they take a few times as long as its start. A round
/// of several blocks starts it for so many times fewer, as its start is spread over them.
const UNITS_FOR_A_THREAD: u32 = 4096;

/// To share a job takes as long as so many units, or less.
const UNITS_FOR_A_JOB: u32 = 2;

/// To add a lane to its bus takes as long as so many units.
const UNITS_FOR_A_LANE: u32 = 2;

/// A synth on a lane takes as long as so many units more: it is a job of its own, its sound is stored sample by sample,
/// and the lane is added to its bus.
const UNITS_ON_A_LANE: usize = 10;

/// Lanes pay if the synths that run have so many units more than they would need for lanes of their own.
const UNITS_IN_MANY_BLOCKS: usize = 128;

/// To share so few jobs takes next to nothing.
const FEW_JOBS: u32 = 16;

/// How many units each synth has that the walk reaches, in its order.
fn units_in_walk(alloc: Global, stage: &Stage) -> Result<Vec<u32>, NoMemory> {
    let mut units = Vec::new(alloc);
    for visit in stage.tree.walk() {
        if visit.payload.is_synth() {
            units.push(visit.payload.units() as u32)?;
        }
    }
    Ok(units)
}

fn sum(units: &[u32]) -> u32 {
    let mut sum = 0u32;
    for count in units {
        sum = sum.saturating_add(*count);
    }
    sum
}

/// The greatest of the numbers that some jobs have.
fn greatest_of(numbers: &[u32], jobs: &[u32]) -> u32 {
    let mut greatest = 0u32;
    for job in jobs {
        greatest = greatest.max(numbers.get(*job as usize).copied().unwrap_or(0));
    }
    greatest
}

/// As long as how many units it takes to share so many jobs.
fn units_to_share(jobs: u32) -> u32 {
    if jobs <= FEW_JOBS {
        0
    } else {
        jobs.saturating_mul(UNITS_FOR_A_JOB)
    }
}

/// How many units of the jobs of the plan of a stage can run at the same time as the longest chain of jobs. In a chain
/// each job follows the one before, and joints add their lanes. What it takes to share the jobs is taken off.
pub fn units_beside(alloc: Global, stage: &Stage, plan: &Plan) -> Result<u32, NoMemory> {
    let units = units_in_walk(alloc, stage)?;
    let mut left = units.as_slice();
    // How many units the longest chain has that ends with each job.
    let mut chains = Vec::new(alloc);
    let mut longest = 0u32;
    let mut all = sum(&units);
    for job in 0..plan.jobs() {
        let count = plan.synths(job).as_slice().len().min(left.len());
        let (own, rest) = left.split_at(count);
        left = rest;
        let before = greatest_of(&chains, plan.predecessors(job).as_slice());
        let lanes = u32::try_from(plan.lanes(job).as_slice().len()).unwrap_or(u32::MAX);
        let joins = lanes.saturating_mul(UNITS_FOR_A_LANE);
        all = all.saturating_add(joins);
        let chain = before.saturating_add(sum(own)).saturating_add(joins);
        chains.push(chain)?;
        longest = longest.max(chain);
    }
    let beside = all.saturating_sub(longest);
    Ok(beside.saturating_sub(units_to_share(plan.jobs())))
}

/// How many units a node has that holds this, more than a lane takes.
fn more_units(held: &Held) -> usize
    ensures { result ≡ held_more held.now }
{
    match held {
        Held::Group => 0,
        Held::Synth { def, .. } => {
            let units = def.units.as_slice();
            units.len().saturating_sub(UNITS_ON_A_LANE)
        }
    }
}

/// How many units are left of those for which a round of many blocks starts a thread, if each synth that runs takes
/// what it has more than a lane.
fn units_left(stage: &Stage) -> usize
    ensures { result ≡ 128 - labels_more (running_labels stage.now.tree.attached) }
{
    let mut left = UNITS_IN_MANY_BLOCKS;
    for visit in stage.tree.walk() {
        left = left.saturating_sub(more_units(visit.payload));
    }
    left
}

/// Whether so many workers share a stage with members that mix one bus at the same time, each on a lane.
pub fn lanes_pay(stage: &Stage, workers: u32) -> bool
    ensures { (words : List ℕ) → result ≡ has_lanes workers (world_of stage.now words) }
{
    workers >= 2 && units_left(stage) == 0
}

/// In how many threads a round of so many blocks pays, if so many units of a block can run at the same time as its
/// longest chain.
pub fn threads_for(beside: u32, blocks: u32) -> usize {
    let each = (UNITS_FOR_A_THREAD / blocks.max(1)).max(1);
    let more = beside.saturating_mul(blocks) / each;
    (more as usize).saturating_add(1)
}
