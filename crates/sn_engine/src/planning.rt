//! The plan of a stage.
ghost use Rattle.std.specs.Prelude.{◌*◌, ◌≡◌, ◌<◌, ◌≤◌, ◌+◌, ◌^◌, [], ℕ, List, length, IfOk, IfSome, OnOk};
ghost use Rattle.sn_ports.specs.Limits.{most_jobs, most_count, most_span, block_samples};
ghost use Rattle.sn_mem.specs.Layout.{bus_words, lane_words};
ghost use Rattle.sn_mem.specs.declared.extents.Extent.{Extent};
ghost use Rattle.sn_round.specs.Jobs.{IsRaceFree};
ghost use Rattle.sn_span.specs.Unrolling.{start};
ghost use Rattle.sn_engine.specs.Holding.{AreClashesOf};
ghost use Rattle.sn_engine.specs.Planning.{AreSpanned, IsPictured, IsPlannedFor, IsSpanned, IsSpanOf, lanes_for};

use crate::spans::{blocks_before_due, most_blocks};
use crate::weighing::{lanes_pay, threads_for, units_beside};
use sn_clash::{Clashes, world_has_the_clashes};
use sn_graph::{Lanes, plan, worlds_are_disjoint};
use sn_mem::{Extent, Extents, MOST_LANES};
use sn_play::worlds_lie_below;
use sn_ports::NoMemory;
use sn_ports::limits::{MOST_COUNT, MOST_SPAN};
use sn_queue::Queue;
use sn_quiet::is_quiet;
use sn_round::Plan;
use sn_settle::Eventful;
use sn_span::{COPY_WORDS, unroll};
use sn_world::Stage;
use std::alloc::Global;

/// The jobs of a stage in several blocks.
#[derive(Drop)]
pub struct SpanPlan {
    /// The jobs.
    pub all: Plan,
    /// In how many blocks.
    pub blocks: u32,
}

/// The jobs of a stage.
#[derive(Drop)]
pub struct Planned {
    /// The jobs.
    pub jobs: Plan,
    /// Whether no synth that runs sends a trigger, or pauses or frees itself at the end of a unit.
    pub quiet: bool,
    /// The synths of which something may come when a block is settled.
    pub eventful: Eventful,
    /// How many units can run at the same time as the longest chain of jobs.
    pub beside: u32,
    /// The jobs in several blocks, once for each number of blocks that was needed.
    pub spans: Vec<SpanPlan>,
}

/// A plan without jobs.
#[tactic(auto, using(crate::proofs::PlanLemmas::no_jobs_are))]
fn no_plan(alloc: Global) -> Result<Plan, NoMemory>
    ensures { IfOk result (λ plan. plan ≡ []) }
{
    Plan::new(alloc, Vec::new(alloc))
}

/// The greatest power of two up to a number.
fn greatest_power(most: u32) -> u32
    requires { 2 ≤ most }
    ensures some { 2 ≤ result }
    ensures most { result ≤ most }
    ensures greatest { most < 2 * result }
{
    let mut power = 2;
    while power <= most / 2 {
        power *= 2;
    }
    power
}

/// The lanes of a plan, all or none, which begin after the copies of a span.
fn lanes_behind(copies: u32, laned: bool) -> Lanes
    requires { copies + most_span * block_samples < 2 ^ 32 }
    ensures first { result.first ≡ copies + most_span * block_samples }
    ensures most { result.most ≡ lanes_for laned }
{
    Lanes {
        first: copies + MOST_SPAN * COPY_WORDS,
        most: if laned { MOST_LANES } else { 0 },
    }
}

impl Planned {
    /// No jobs.
    pub fn nothing(alloc: Global) -> Result<Planned, NoMemory>
        ensures { IfOk result (λ p. p.jobs ≡ []) }
    {
        Ok(Planned {
            jobs: no_plan(alloc)?,
            quiet: false,
            eventful: Eventful::nothing(alloc),
            beside: 0,
            spans: Vec::new(alloc),
        })
    }

    /// The plan of a stage, given its clashes, for so many workers, and where the copies of a span begin. The lanes
    /// stand after the copies. It has lanes if they pay.
    pub fn of(
        alloc: Global,
        stage: &Stage,
        clashes: &Clashes,
        copies: u32,
        workers: u32,
    ) -> Result<Planned, NoMemory>
        requires stands { IsPictured stage.now }
        requires clashes { AreClashesOf stage.now clashes.now }
        requires copies { copies ≡ bus_words + stage.now.pool.region.len }
        requires lanes { copies + most_span * block_samples + lane_words < 4294967296 }
        ensures planned { IfOk result (λ p. IsPlannedFor workers stage.now p.jobs p.quiet p.eventful) }
        ensures none { IfOk result (λ p. p.spans.items ≡ []) }
    {
        // Hints for the proof only: what a stage that stands for a world meets, and how few nodes a tree has.
        worlds_are_disjoint(stage);
        worlds_lie_below(stage);
        world_has_the_clashes(stage);
        let _count = stage.tree.len();
        let laned = lanes_pay(stage, workers);
        let lanes = lanes_behind(copies, laned);
        let jobs = plan(alloc, stage, clashes.as_slice(), lanes)?;
        jobs.is_well_formed();
        let beside = units_beside(alloc, stage, &jobs)?;
        let quiet = is_quiet(stage);
        let eventful = Eventful::of(alloc, stage)?;
        Ok(Planned {
            jobs,
            quiet,
            eventful,
            beside,
            spans: Vec::new(alloc),
        })
    }

    /// How many blocks may come in a row from a block on, as far as they are asked for: at least one.
    pub fn span(&self, queue: &Queue, block: u64, want: u32) -> u32
        requires { length self.now.jobs ≤ most_jobs }
        ensures some { 1 ≤ result }
        ensures want { 2 ≤ result → result ≤ want }
        ensures quiet { 2 ≤ result → IsSpanOf self.now.jobs self.now.quiet queue.now block result }
        ensures most { block < most_count → (n : ℕ) → 2 ≤ n → n ≤ want → IsSpanOf self.now.jobs self.now.quiet queue.now block n → n ≤ result }
    {
        if !self.quiet {
            return 1;
        }
        if block >= MOST_COUNT {
            return 1;
        }
        let most = most_blocks(self.jobs.jobs());
        blocks_before_due(queue, block, most.min(want))
    }

    /// In how many threads a round of so many blocks pays.
    pub fn threads(&self, blocks: u32) -> usize {
        threads_for(self.beside, blocks)
    }

    /// The jobs in so many blocks, if they were made.
    fn in_blocks(&self, blocks: u32) -> Option<&SpanPlan>
        ensures blocks { IfSome result (λ span. span.now.blocks ≡ blocks) }
        ensures spanned { (outputs : List Extent) (copies : ℕ) → AreSpanned self.now.jobs outputs copies self.now.spans.items → IfSome result (λ span. IsSpanned self.now.jobs outputs copies span.now) }
    {
        for span in &self.spans {
            if span.blocks == blocks {
                return Some(span);
            }
        }
        None
    }

    /// The most blocks, up to a number, for which the jobs were made. If there are none, 0.
    fn longest(&self, most: u32) -> u32
        ensures { result ≤ most }
    {
        let mut longest = 0;
        for span in &self.spans {
            if longest < span.blocks && span.blocks <= most {
                longest = span.blocks;
            }
        }
        longest
    }

    /// The jobs in the most blocks, up to a number, for which they were made.
    pub fn longest_span(&self, most: u32) -> Option<&SpanPlan>
        ensures most { IfSome result (λ span. span.now.blocks ≤ most) }
        ensures spanned { (outputs : List Extent) (copies : ℕ) → AreSpanned self.now.jobs outputs copies self.now.spans.items → IfSome result (λ span. IsSpanned self.now.jobs outputs copies span.now) }
    {
        self.in_blocks(self.longest(most))
    }

    /// Makes the jobs in so many blocks, unless they were made or one thread would run them.
    fn unroll_once(
        &mut self,
        alloc: Global,
        blocks: u32,
        outputs: &Extents,
        copies: u32,
    ) -> Result<(), NoMemory>
        requires free { IsRaceFree self.old.jobs }
        requires some { 2 ≤ blocks }
        requires few { blocks ≤ most_span }
        requires room { start (length self.old.jobs) blocks ≤ most_jobs }
        requires copies { copies + most_span * block_samples < 4294967296 }
        requires spanned { AreSpanned self.old.jobs outputs.now copies self.old.spans.items }
        ensures jobs { self.new.jobs ≡ self.old.jobs }
        ensures quiet { self.new.quiet ≡ self.old.quiet }
        ensures eventful { self.new.eventful ≡ self.old.eventful }
        ensures spanned { OnOk result (AreSpanned self.new.jobs outputs.now copies self.new.spans.items) }
    {
        if self.threads(blocks) < 2 || self.in_blocks(blocks).is_some() {
            return Ok(());
        }
        let extent = Extent {
            at: copies,
            len: COPY_WORDS * blocks,
        };
        let all = unroll(alloc, &self.jobs, blocks, outputs, extent)?;
        self.spans.push(SpanPlan { all, blocks })?;
        Ok(())
    }

    /// Makes the jobs ready by which so many blocks are rendered, if several workers share them. It makes them in 2, 4,
    /// 8, 16 or 32 blocks: the number is the sum of these powers of two, and of 1 if it is odd. So there are five plans
    /// at most, whatever numbers come.
    pub fn unroll(
        &mut self,
        alloc: Global,
        blocks: u32,
        workers: u32,
        outputs: &Extents,
        copies: u32,
    ) -> Result<(), NoMemory>
        requires free { IsRaceFree self.old.jobs }
        requires few { 2 ≤ blocks → blocks ≤ most_span }
        requires room { 2 ≤ blocks → start (length self.old.jobs) blocks ≤ most_jobs }
        requires copies { copies + most_span * block_samples < 4294967296 }
        requires spanned { AreSpanned self.old.jobs outputs.now copies self.old.spans.items }
        ensures jobs { self.new.jobs ≡ self.old.jobs }
        ensures quiet { self.new.quiet ≡ self.old.quiet }
        ensures eventful { self.new.eventful ≡ self.old.eventful }
        ensures spanned { OnOk result (AreSpanned self.new.jobs outputs.now copies self.new.spans.items) }
    {
        if workers < 2 {
            return Ok(());
        }
        let mut left = blocks;
        while left >= 2 {
            let power = greatest_power(left);
            self.unroll_once(alloc, power, outputs, copies)?;
            left -= power;
        }
        Ok(())
    }
}
