//! The plan of a stage.
ghost use Rattle.std.specs.Prelude.{◌≡◌, ◌+◌, ◌<◌, ◌≤◌, ◌^◌, pos, length, IfOk};
ghost use Rattle.std.specs.List.{All};
ghost use Rattle.sn_mem.specs.Layout.{lane_words, most_lanes};
ghost use Rattle.sn_mem.specs.Buffers.{live_places};
ghost use Rattle.sn_tree.specs.Trees.{count, subtree};
ghost use Rattle.sn_world.specs.Pictures.{live_held};
ghost use Rattle.sn_foot.specs.Canonical.{Ends};
ghost use Rattle.sn_clash.specs.Clashing.{clashes_in};
ghost use Rattle.sn_round.specs.Jobs.{IsRaceFree};
ghost use Rattle.sn_graph.specs.Inputs.{AreNoted, nodes_of};
ghost use Rattle.sn_graph.specs.Lanes.{with_lanes};
ghost use Rattle.sn_graph.specs.Plans.{IsPlanned, plan_of};
ghost use Rattle.sn_graph.specs.Clear.{AreListed};
ghost use Rattle.sn_graph.specs.Disjoint.{AreDisjoint, LieBelow};
ghost use Rattle.sn_graph.specs.Stages.{nodes_with, running_nodes};

use crate::jobs::plan_of_nodes;
use crate::lanes::{Lanes, lay_nodes};
use crate::named::NamedGroups;
use crate::nodes::HeardNodes;
use crate::parts::{put_part, take_nodes};
use sn_clash::{Clash, all_nodes};
use sn_ports::NoMemory;
use sn_round::Plan;
use sn_world::Stage;
use std::alloc::Global;

/// The nodes that are heard, with what each synth touches. The walk is gone over from its end on.
fn running_nodes(
    alloc: Global,
    stage: &Stage,
    clashing: &NamedGroups<'_>,
) -> Result<HeardNodes, NoMemory>
    requires buffers { All Ends (live_places stage.now.buffers) }
    requires states { All Ends (live_held stage.now.tree.attached) }
    ensures nodes { IfOk result (λ nodes. nodes_of nodes ≡ running_nodes stage.now.buffers clashing.now stage.now.tree.attached) }
    ensures noted { IfOk result AreNoted }
{
    let mut members = all_nodes(alloc, &stage.tree)?;
    let mut parts = Vec::new(alloc);
    while let Some(member) = members.pop() {
        put_part(alloc, &stage.buffers, clashing, &mut parts, &member)?;
    }
    let count = parts.len();
    let nodes = take_nodes(alloc, &mut parts, count)?;
    Ok(nodes.into_nodes())
}

/// The nodes that are heard, with their lanes. These parallel groups of them have members that clash.
fn nodes_with(
    alloc: Global,
    stage: &Stage,
    clashing: &NamedGroups<'_>,
    lanes: Lanes,
) -> Result<HeardNodes, NoMemory>
    requires buffers { All Ends (live_places stage.now.buffers) }
    requires states { All Ends (live_held stage.now.tree.attached) }
    requires most { lanes.most ≤ most_lanes }
    requires end { lanes.first + lane_words < 2 ^ 32 }
    ensures { IfOk result (λ nodes. nodes_of nodes ≡ with_lanes lanes.first lanes.most (running_nodes stage.now.buffers clashing.now stage.now.tree.attached)) }
{
    let mut nodes = running_nodes(alloc, stage, clashing)?;
    lay_nodes(alloc, lanes, &mut nodes)?;
    Ok(nodes)
}

/// The plan of a stage. These parallel groups of it have members that clash.
fn plan_of_stage(
    alloc: Global,
    stage: &Stage,
    clashing: &NamedGroups<'_>,
    lanes: Lanes,
) -> Result<Plan, NoMemory>
    requires buffers { All Ends (live_places stage.now.buffers) }
    requires states { All Ends (live_held stage.now.tree.attached) }
    requires most { lanes.most ≤ most_lanes }
    requires end { lanes.first + lane_words < 2 ^ 32 }
    ensures jobs { IfOk result (λ plan. plan ≡ plan_of (with_lanes lanes.first lanes.most (running_nodes stage.now.buffers clashing.now stage.now.tree.attached))) }
    ensures planned { IfOk result (IsPlanned (with_lanes lanes.first lanes.most (running_nodes stage.now.buffers clashing.now stage.now.tree.attached))) }
    ensures few { IfOk result (λ plan. length plan < count stage.now.tree.attached) }
    ensures race_free { AreDisjoint stage.now.buffers (live_held stage.now.tree.attached) → LieBelow lanes.first stage.now.buffers (live_held stage.now.tree.attached) → AreListed stage.now.buffers clashing.now (subtree (pos 0) stage.now.tree.attached) → IfOk result IsRaceFree }
{
    // Hints for the proof alone: a tree has at most 4,096 nodes, their ids are distinct, and its root is a group.
    let _count = stage.tree.len();
    stage.tree.ids_are_distinct();
    stage.tree.root_is_a_group();
    let nodes = nodes_with(alloc, stage, clashing, lanes)?;
    plan_of_nodes(alloc, &nodes)
}

/// The plan of a stage, given its clashes and the lanes that there are. A parallel group is split, so its members may
/// run beside each other. But if two of them clash, or the lanes that are left are too few for what its members mix
/// together, it is rendered in order.
pub fn plan(alloc: Global, stage: &Stage, clashes: &[Clash], lanes: Lanes) -> Result<Plan, NoMemory>
    requires buffers { All Ends (live_places stage.now.buffers) }
    requires states { All Ends (live_held stage.now.tree.attached) }
    requires clashes { clashes.now ≡ clashes_in stage.now }
    requires most { lanes.most ≤ most_lanes }
    requires end { lanes.first + lane_words < 2 ^ 32 }
    ensures jobs { IfOk result (λ plan. plan ≡ plan_of (nodes_with lanes.first lanes.most stage.now)) }
    ensures planned { IfOk result (IsPlanned (nodes_with lanes.first lanes.most stage.now)) }
    ensures few { IfOk result (λ plan. length plan < count stage.now.tree.attached) }
    ensures race_free { AreDisjoint stage.now.buffers (live_held stage.now.tree.attached) → LieBelow lanes.first stage.now.buffers (live_held stage.now.tree.attached) → IfOk result IsRaceFree }
{
    stage.tree.root_holds_all();
    let clashing = NamedGroups::new(alloc, clashes)?;
    plan_of_stage(alloc, stage, &clashing, lanes)
}
