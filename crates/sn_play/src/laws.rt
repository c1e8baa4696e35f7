//! Laws of a plan, of its jobs and of the walk, in a stage that stands for a world.
ghost use Rattle.std.specs.Prelude.{◌≡◌, ◌<◌, ◌^◌, ◌≤◌, ◌+◌, ◌*◌, ℕ, true, List, Option, length};
ghost use Rattle.sn_mem.specs.Layout.{audio_bus_words, bus_words, lane_words, most_lanes};
ghost use Rattle.sn_mem.specs.declared.buffers.BufferPlace.{BufferPlace};
ghost use Rattle.sn_foot.specs.Reaches.{unmoved};
ghost use Rattle.sn_mem.specs.Words.{touches};
ghost use Rattle.sn_tree.specs.Trees.{Label};
ghost use Rattle.sn_world.specs.Pictures.{Pictures, live_held};
ghost use Rattle.sn_world.specs.Walk.{walk};
ghost use Rattle.sn_world.specs.WalkWords.{walk_words};
ghost use Rattle.sn_world.specs.World.{world_of};
ghost use Rattle.sn_world.specs.declared.stage.Held.{Held};
ghost use Rattle.sn_round.specs.Jobs.{AreWithin, foot_at, job_at};
ghost use Rattle.sn_graph.specs.Disjoint.{LieBelow};
ghost use Rattle.sn_graph.specs.Plans.{IsPlanned};
ghost use Rattle.sn_graph.specs.Stages.{nodes_in, nodes_with};
ghost use Rattle.sn_graph.specs.Voices.{voices};
ghost use Rattle.sn_round.specs.Scripts.{IsScript, list_at, sequential};
ghost use Rattle.sn_play.specs.Blocks.{AreResting, IsReady, outcome_of};
ghost use Rattle.sn_play.specs.Spans.{ArePlayed, IsSpanReady, outcome_in};
ghost use Rattle.sn_play.specs.Steps.{CanMoveAll};
ghost use Rattle.sn_play.specs.Synths.{synths_in, voices_of, walk_synths};

use crate::block::BlockJobs;
use crate::span::Span;
use sn_round::sequential_is_a_script;
use sn_world::Stage;

/// A law: the running synths of a plan are those that the walk runs, in its order.
pub fn voices_are_the_walk(stage: &Stage)
    ensures { (words : List ℕ) → Pictures stage.now words → voices (nodes_in stage.now) ≡ voices_of stage.now.buffers (walk_synths stage.now) }
{
    stage.tree.root_holds_all();
}

/// A law: groups change no word, so the walk over the synths alone is the walk over all.
pub fn groups_change_nothing()
    ensures { (rate b : ℕ) (buffers : List (Option BufferPlace)) (ls : List (Label Held)) (ws : List ℕ) → walk_words rate b buffers (synths_in ls) ws ≡ walk_words rate b buffers ls ws }
{}

/// A law: in a stage that stands for a world, buses, buffers and states lie below each word after the pool.
pub fn worlds_lie_below(stage: &Stage)
    ensures { (words : List ℕ) (first : ℕ) → Pictures stage.now words → bus_words + stage.now.pool.region.len ≤ first → LieBelow first stage.now.buffers (live_held stage.now.tree.attached) }
{
    let _ = stage;
}

/// A law: let a stage stand for a world. Then each synth that a job names can run over the job's foot, with the buses
/// moved that it moves, in each memory in which the foot lies.
pub fn job_feet_suffice(work: &BlockJobs<'_>)
    ensures { IsReady work.now → (i size : ℕ) → i < length work.now.plan.now → ((x : ℕ) → touches (foot_at work.now.plan.now i) x ≡ true → x < size)
        → CanMoveAll work.now.stage.now work.now.block (job_at work.now.plan.now i).synths (job_at work.now.plan.now i).moves (foot_at work.now.plan.now i) size }
{
    work.stage.tree.root_holds_all();
    work.stage.tree.ids_are_distinct();
}

/// A law: the block of a plan of a stage that stands for a world is ready, if the lanes lie after the pool. In words
/// with room for the lanes, the feet of its jobs lie in the memory. What its jobs make of the words, one after the
/// other, is a script. If no lane counts as written in the block, the last words stand for the world after the walk,
/// and no lane counts as written in the next block. The lanes after the plan's don't either, if they didn't before.
pub fn block_is_the_walk(work: &BlockJobs<'_>)
    ensures ready { (words : List ℕ) (first most : ℕ) → Pictures work.now.stage.now words → bus_words + work.now.stage.now.pool.region.len ≤ first → first + audio_bus_words * most ≤ length words → most ≤ most_lanes → first + lane_words < 4294967296
        → IsPlanned (nodes_with first most work.now.stage.now) work.now.plan.now → work.now.block < 2 ^ 63 → IsReady work.now }
    ensures feet { (words : List ℕ) (ready : IsReady work.now) → Pictures work.now.stage.now words → ready.first + audio_bus_words * ready.most ≤ length words → AreWithin (length words) work.now.plan.now }
    ensures script { (words : List ℕ) → IsScript work.now.plan.now (length words) (sequential (outcome_of work.now) (length work.now.plan.now) words) }
    ensures walk { (words : List ℕ) (ready : IsReady work.now) → Pictures work.now.stage.now words → ready.first + audio_bus_words * ready.most ≤ length words → AreResting ready.first ready.most work.now.block words
        → world_of work.now.stage.now (list_at (sequential (outcome_of work.now) (length work.now.plan.now) words) (length work.now.plan.now)) ≡ walk work.now.block (world_of work.now.stage.now words) }
    ensures rests { (words : List ℕ) (ready : IsReady work.now) → Pictures work.now.stage.now words → ready.first + audio_bus_words * ready.most ≤ length words → (all : ℕ) → ready.most ≤ all → AreResting ready.first all work.now.block words
        → AreResting ready.first all (work.now.block + 1) (list_at (sequential (outcome_of work.now) (length work.now.plan.now) words) (length work.now.plan.now)) }
{
    work.stage.tree.root_holds_all();
    work.stage.tree.ids_are_distinct();
    sequential_is_a_script(work);
}

/// A law: in a memory with room for the copies and the lanes, the feet of the jobs of a span that is ready lie in the
/// memory. What its jobs make of the words, one after the other, is a script. If no lane counts as written in the first
/// block, the last words stand for the world after the walks of its blocks, its copies hold the sound of each, and no
/// lane counts as written in the block after them. The lanes after the plan's don't either, if they didn't before.
pub fn span_is_the_walks(work: &Span<'_>)
    ensures feet { (words : List ℕ) (ready : IsSpanReady work.now) → Pictures work.now.first.stage.now words → ready.first + audio_bus_words * ready.most ≤ length words → AreWithin (length words) work.now.all.now }
    ensures script { (words : List ℕ) → IsScript work.now.all.now (length words) (sequential (outcome_in work.now) (length work.now.all.now) words) }
    ensures played { (words : List ℕ) (ready : IsSpanReady work.now) → Pictures work.now.first.stage.now words → ready.first + audio_bus_words * ready.most ≤ length words → AreResting ready.first ready.most work.now.first.block words
        → ArePlayed work.now.first.stage.now work.now.first.block work.now.blocks work.now.copies ready.channels words (list_at (sequential (outcome_in work.now) (length work.now.all.now) words) (length work.now.all.now)) }
    ensures rests { (words : List ℕ) (ready : IsSpanReady work.now) → Pictures work.now.first.stage.now words → ready.first + audio_bus_words * ready.most ≤ length words → (all : ℕ) → ready.most ≤ all → AreResting ready.first all work.now.first.block words
        → AreResting ready.first all (work.now.first.block + work.now.blocks) (list_at (sequential (outcome_in work.now) (length work.now.all.now) words) (length work.now.all.now)) }
{
    work.first.stage.tree.root_holds_all();
    work.first.stage.tree.ids_are_distinct();
    sequential_is_a_script(work);
}
