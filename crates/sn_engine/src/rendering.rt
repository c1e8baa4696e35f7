//! Blocks that are rendered in a row.
ghost use Rattle.std.specs.Prelude.{◌≡◌, ◌≤◌, ◌<◌, ◌+◌, ◌*◌, ◌^◌, ◌++◌, ◌∷◌, [], ℕ, List, length, replicate, vec_capacity};
ghost use Rattle.sn_ports.specs.Limits.{most_channels, block_samples};
ghost use Rattle.sn_quiet.specs.Walks.{walks};
ghost use Rattle.sn_world.specs.Pictures.{Pictures};
ghost use Rattle.sn_world.specs.World.{world_of};
ghost use Rattle.sn_play.specs.Spans.{ArePlayed};
ghost use Rattle.sn_engine.specs.Outputs.{sounds};
ghost use Rattle.sn_engine.specs.Planning.{AreSpanned, CopiesLie, HasLanes, IsPlanOf, IsSpanned, LanesRest};
ghost use Rattle.sn_engine.specs.Spans.{AreRounds};

use crate::hearing::{hear_block, hear_copy};
use crate::memory::Memory;
use crate::planning::{Planned, SpanPlan};
use sn_crew::Crew;
use sn_mem::Extents;
use sn_pcm::{Settings, frames};
use sn_play::{BlockJobs, Span};
use sn_ports::{Gate, Text};
use sn_span::COPY_WORDS;
use sn_world::Stage;
use std::thread::Threads;

/// What stays while blocks are rendered.
#[derive(Clone, Copy)]
pub struct Part<'a> {
    /// The nodes.
    pub stage: &'a Stage,
    /// Their jobs.
    pub planned: &'a Planned,
    /// The rate, the channels and the bits.
    pub settings: &'a Settings,
    /// The audio buses that are heard.
    pub outputs: &'a Extents,
    /// Where the copies of their sound begin.
    pub copies: u32,
    /// The number of the first block.
    pub first: u64,
    /// How many blocks there are.
    pub blocks: u32,
}

impl<'a> Part<'a> {
    /// The jobs of a block from the first one on.
    fn block(&self, number: u32) -> BlockJobs<'a>
        requires { self.now.first + number < 2 ^ 63 }
        ensures stage { result.stage.now ≡ self.now.stage.now }
        ensures plan { result.plan.now ≡ self.now.planned.now.jobs }
        ensures block { result.block ≡ self.now.first + number }
    {
        BlockJobs {
            stage: self.stage,
            plan: &self.planned.jobs,
            block: self.first + u64::from(number),
        }
    }
}

/// A round for each block, and its sound.
fn render_each<H: Threads + Sync, G: Gate>(
    rt: &H,
    part: &Part<'_>,
    memory: &mut Memory,
    crew: &mut Crew,
    gate: &G,
    samples: &mut Vec<i32>,
    sound: &mut Text,
)
    requires pictures { Pictures part.now.stage.now memory.old.words }
    requires planned { IsPlanOf part.now.stage.now part.now.planned.now.jobs }
    requires early { part.now.first + part.now.blocks < 2 ^ 63 }
    requires lanes { HasLanes part.now.stage.now memory.old.words }
    requires resting { LanesRest part.now.stage.now part.now.first memory.old.words }
    requires channels { part.now.settings.now.channels ≤ most_channels }
    requires samples { block_samples ≤ vec_capacity samples.old }
    requires room { 3 * block_samples * part.now.blocks ≤ sound.old.spare }
    ensures world { world_of part.now.stage.now memory.new.words ≡ walks part.now.first part.now.blocks (world_of part.now.stage.now memory.old.words) }
    ensures pictures { Pictures part.now.stage.now memory.new.words }
    ensures resting { LanesRest part.now.stage.now (part.now.first + part.now.blocks) memory.new.words }
    ensures length { length memory.new.words ≡ length memory.old.words }
    ensures sound { sound.new.bytes ≡ sound.old.bytes ++ sounds part.now.settings.now part.now.first part.now.blocks (world_of part.now.stage.now memory.old.words) }
    ensures samples { block_samples ≤ vec_capacity samples.new }
    ensures spare { sound.old.spare ≤ sound.new.spare + 3 * block_samples * part.now.blocks }
    ensures rounds { memory.new.rounds ≡ memory.old.rounds ++ replicate part.now.blocks (record { jobs = part.now.planned.now.jobs; crew = length crew.old.hands.items }) }
    ensures stores { memory.new.stores ≡ memory.old.stores }
    ensures crew { length crew.new.hands.items ≡ length crew.old.hands.items }
{
    for number in 0..part.blocks {
        let block = part.block(number);
        memory.round(rt, crew, &block, gate);
        hear_block(
            memory,
            part.stage,
            part.settings.channels,
            block.block,
            samples,
        );
        frames(part.settings, samples, sound);
    }
}

/// The sound of the first blocks out of their copies.
fn hear_copies(
    part: &Part<'_>,
    blocks: u32,
    memory: &mut Memory,
    samples: &mut Vec<i32>,
    sound: &mut Text,
)
    requires inside { part.now.copies + block_samples * blocks ≤ length memory.old.words }
    requires bounded { part.now.copies + block_samples * blocks < 4294967296 }
    requires channels { part.now.settings.now.channels ≤ most_channels }
    requires samples { block_samples ≤ vec_capacity samples.old }
    requires room { 3 * block_samples * blocks ≤ sound.old.spare }
    ensures sound { (words : List ℕ) → ArePlayed part.now.stage.now part.now.first blocks part.now.copies part.now.settings.now.channels words memory.old.words → sound.new.bytes ≡ sound.old.bytes ++ sounds part.now.settings.now part.now.first blocks (world_of part.now.stage.now words) }
    ensures samples { block_samples ≤ vec_capacity samples.new }
    ensures spare { sound.old.spare ≤ sound.new.spare + 3 * block_samples * blocks }
    ensures same { memory.new ≡ memory.old }
{
    for number in 0..blocks {
        let at = part.copies + COPY_WORDS * number;
        hear_copy(memory, part.settings.channels, at, samples);
        frames(part.settings, samples, sound);
    }
}

/// One round of the jobs in the first blocks, and the sound of each out of its copy.
fn render_span<H: Threads + Sync, G: Gate>(
    rt: &H,
    part: &Part<'_>,
    span: &SpanPlan,
    memory: &mut Memory,
    crew: &mut Crew,
    gate: &G,
    samples: &mut Vec<i32>,
    sound: &mut Text,
)
    requires pictures { Pictures part.now.stage.now memory.old.words }
    requires planned { IsPlanOf part.now.stage.now part.now.planned.now.jobs }
    requires spanned { IsSpanned part.now.planned.now.jobs part.now.outputs.now part.now.copies span.now }
    requires copies { CopiesLie part.now.settings.now.channels part.now.stage.now memory.old.words part.now.outputs.now part.now.copies }
    requires early { part.now.first + span.now.blocks < 2 ^ 63 }
    requires lanes { HasLanes part.now.stage.now memory.old.words }
    requires resting { LanesRest part.now.stage.now part.now.first memory.old.words }
    requires samples { block_samples ≤ vec_capacity samples.old }
    requires room { 3 * block_samples * span.now.blocks ≤ sound.old.spare }
    ensures world { world_of part.now.stage.now memory.new.words ≡ walks part.now.first span.now.blocks (world_of part.now.stage.now memory.old.words) }
    ensures pictures { Pictures part.now.stage.now memory.new.words }
    ensures resting { LanesRest part.now.stage.now (part.now.first + span.now.blocks) memory.new.words }
    ensures length { length memory.new.words ≡ length memory.old.words }
    ensures sound { sound.new.bytes ≡ sound.old.bytes ++ sounds part.now.settings.now part.now.first span.now.blocks (world_of part.now.stage.now memory.old.words) }
    ensures samples { block_samples ≤ vec_capacity samples.new }
    ensures spare { sound.old.spare ≤ sound.new.spare + 3 * block_samples * span.now.blocks }
    ensures rounds { memory.new.rounds ≡ memory.old.rounds ++ record { jobs = span.now.all; crew = length crew.old.hands.items } ∷ [] }
    ensures stores { memory.new.stores ≡ memory.old.stores }
    ensures crew { length crew.new.hands.items ≡ length crew.old.hands.items }
{
    let first = part.block(0);
    let row = Span {
        first,
        all: &span.all,
        blocks: span.blocks,
        outputs: part.outputs,
        copies: part.copies,
    };
    memory.span(rt, crew, &row, gate);
    hear_copies(part, span.blocks, memory, samples, sound);
}

/// The first of the blocks and their sound: as many as the jobs were made for, in one round, or else all, in a round
/// each. Tells how many they are.
#[tactic(auto, using(crate::proofs::RoundLemmas::each_round))]
fn render_first<H: Threads + Sync, G: Gate>(
    rt: &H,
    part: &Part<'_>,
    memory: &mut Memory,
    crew: &mut Crew,
    gate: &G,
    samples: &mut Vec<i32>,
    sound: &mut Text,
) -> u32
    requires pictures { Pictures part.now.stage.now memory.old.words }
    requires planned { IsPlanOf part.now.stage.now part.now.planned.now.jobs }
    requires spanned { AreSpanned part.now.planned.now.jobs part.now.outputs.now part.now.copies part.now.planned.now.spans.items }
    requires copies { CopiesLie part.now.settings.now.channels part.now.stage.now memory.old.words part.now.outputs.now part.now.copies }
    requires some { 1 ≤ part.now.blocks }
    requires early { part.now.first + part.now.blocks < 2 ^ 63 }
    requires lanes { HasLanes part.now.stage.now memory.old.words }
    requires resting { LanesRest part.now.stage.now part.now.first memory.old.words }
    requires samples { block_samples ≤ vec_capacity samples.old }
    requires room { 3 * block_samples * part.now.blocks ≤ sound.old.spare }
    ensures some { 1 ≤ result }
    ensures few { result ≤ part.now.blocks }
    ensures world { world_of part.now.stage.now memory.new.words ≡ walks part.now.first result (world_of part.now.stage.now memory.old.words) }
    ensures pictures { Pictures part.now.stage.now memory.new.words }
    ensures resting { LanesRest part.now.stage.now (part.now.first + result) memory.new.words }
    ensures length { length memory.new.words ≡ length memory.old.words }
    ensures sound { sound.new.bytes ≡ sound.old.bytes ++ sounds part.now.settings.now part.now.first result (world_of part.now.stage.now memory.old.words) }
    ensures samples { block_samples ≤ vec_capacity samples.new }
    ensures spare { sound.old.spare ≤ sound.new.spare + 3 * block_samples * result }
    ensures rounds { AreRounds part.now.outputs.now part.now.copies result part.now.planned.now.jobs (length crew.old.hands.items) memory.old.rounds memory.new.rounds }
    ensures stores { memory.new.stores ≡ memory.old.stores }
    ensures crew { length crew.new.hands.items ≡ length crew.old.hands.items }
{
    let Some(span) = part.planned.longest_span(part.blocks) else {
        crew.allow_threads(part.planned.threads(1));
        render_each(rt, part, memory, crew, gate, samples, sound);
        return part.blocks;
    };
    crew.allow_threads(part.planned.threads(span.blocks));
    render_span(rt, part, span, memory, crew, gate, samples, sound);
    span.blocks
}

/// The blocks and their sound: as many in each round as the jobs were made for, and what is left in a round each.
pub fn render<H: Threads + Sync, G: Gate>(
    rt: &H,
    part: &Part<'_>,
    memory: &mut Memory,
    crew: &mut Crew,
    gate: &G,
    samples: &mut Vec<i32>,
    sound: &mut Text,
)
    requires pictures { Pictures part.now.stage.now memory.old.words }
    requires planned { IsPlanOf part.now.stage.now part.now.planned.now.jobs }
    requires spanned { AreSpanned part.now.planned.now.jobs part.now.outputs.now part.now.copies part.now.planned.now.spans.items }
    requires copies { CopiesLie part.now.settings.now.channels part.now.stage.now memory.old.words part.now.outputs.now part.now.copies }
    requires early { part.now.first + part.now.blocks < 2 ^ 63 }
    requires lanes { HasLanes part.now.stage.now memory.old.words }
    requires resting { LanesRest part.now.stage.now part.now.first memory.old.words }
    requires samples { block_samples ≤ vec_capacity samples.old }
    requires room { 3 * block_samples * part.now.blocks ≤ sound.old.spare }
    ensures world { world_of part.now.stage.now memory.new.words ≡ walks part.now.first part.now.blocks (world_of part.now.stage.now memory.old.words) }
    ensures pictures { Pictures part.now.stage.now memory.new.words }
    ensures resting { LanesRest part.now.stage.now (part.now.first + part.now.blocks) memory.new.words }
    ensures length { length memory.new.words ≡ length memory.old.words }
    ensures sound { sound.new.bytes ≡ sound.old.bytes ++ sounds part.now.settings.now part.now.first part.now.blocks (world_of part.now.stage.now memory.old.words) }
    ensures samples { block_samples ≤ vec_capacity samples.new }
    ensures rounds { AreRounds part.now.outputs.now part.now.copies part.now.blocks part.now.planned.now.jobs (length crew.old.hands.items) memory.old.rounds memory.new.rounds }
    ensures stores { memory.new.stores ≡ memory.old.stores }
    ensures crew { length crew.new.hands.items ≡ length crew.old.hands.items }
{
    let mut done = 0;
    while done < part.blocks {
        let left = Part {
            stage: part.stage,
            planned: part.planned,
            settings: part.settings,
            outputs: part.outputs,
            copies: part.copies,
            first: part.first + u64::from(done),
            blocks: part.blocks - done,
        };
        done += render_first(rt, &left, memory, crew, gate, samples, sound);
    }
}
