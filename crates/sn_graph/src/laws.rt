//! Laws of the nodes that a plan is made of, and of their clashes.
ghost use Rattle.std.specs.Prelude.{◌≡◌, ◌↔◌, ◌++◌, ℕ, ℤ, true, false, List, Option};
ghost use Rattle.std.specs.List.{All};
ghost use Rattle.sn_mem.specs.declared.buffers.BufferPlace.{BufferPlace};
ghost use Rattle.sn_foot.specs.Reaches.{ReachesClash};
ghost use Rattle.sn_mem.specs.Buffers.{live_places};
ghost use Rattle.sn_tree.specs.Trees.{holds, subtree};
ghost use Rattle.sn_world.specs.declared.stage.Held.{Held};
ghost use Rattle.sn_world.specs.Pictures.{Pictures, live_held};
ghost use Rattle.sn_foot.specs.Canonical.{Ends};
ghost use Rattle.sn_foot.specs.Footprints.{Clash as FootprintsClash, foot_at, foot_of, footprint_at, footprint_of, states_of};
ghost use Rattle.sn_graph.specs.Clear.{IsClashing};
ghost use Rattle.sn_graph.specs.Disjoint.{AreDisjoint};
ghost use Rattle.sn_graph.specs.Plans.{AreJoined, is_listed};
ghost use Rattle.sn_graph.specs.Stages.{clashing_in, nodes_in, nodes_with};
ghost use Rattle.sn_graph.specs.Voices.{AreHeard};

use sn_world::Stage;

/// A law: if no two of the buses, the buffers and the states share a word, the words of some nodes clash with those of
/// others exactly if their footprints clash. A synth's own state clashes with nothing.
pub fn feet_clash_as_footprints()
    ensures { (buffers : List (Option BufferPlace)) (first second : List Held) → AreDisjoint buffers (states_of first ++ states_of second) → ReachesClash (foot_of buffers first) (foot_of buffers second) ↔ FootprintsClash (footprint_of buffers first) (footprint_of buffers second) }
{}

/// A law: a stage that stands for a world meets what its plan asks for, and no two of its buses, buffers and states
/// share a word.
pub fn worlds_are_disjoint(stage: &Stage)
    ensures buffers { (words : List ℕ) → Pictures stage.now words → All Ends (live_places stage.now.buffers) }
    ensures states { (words : List ℕ) → Pictures stage.now words → All Ends (live_held stage.now.tree.attached) }
    ensures disjoint { (words : List ℕ) → Pictures stage.now words → AreDisjoint stage.now.buffers (live_held stage.now.tree.attached) }
{
    let _ = stage;
}

/// A law: in a stage that stands for a world, the words of two nodes of which neither stands at or below the other
/// clash exactly if their footprints clash.
pub fn nodes_clash_as_footprints(stage: &Stage)
    ensures { let buffers = stage.now.buffers in let nodes = stage.now.tree.attached in (words : List ℕ) (a b : ℤ) → Pictures stage.now words → holds a (subtree b nodes) ≡ false → holds b (subtree a nodes) ≡ false → ReachesClash (foot_at buffers a nodes) (foot_at buffers b nodes) ↔ FootprintsClash (footprint_at buffers a nodes) (footprint_at buffers b nodes) }
{
    let _ = stage;
}

/// A law: the clashes of a stage name just the parallel groups that the walk reaches and of which two members clash.
pub fn clashes_name_the_groups(stage: &Stage)
    ensures { (id : ℤ) → (is_listed (clashing_in stage.now) id ≡ true) ↔ IsClashing stage.now.buffers stage.now.tree.attached id }
{
    stage.tree.ids_are_distinct();
}

/// A law: in each group of the nodes that a plan is made of, a synth runs. Paused nodes and silent groups are left out
/// first.
pub fn silent_groups_are_left_out(stage: &Stage)
    ensures { AreHeard (nodes_in stage.now) }
{
    let _ = stage;
}

/// A law: in the nodes that a plan is made of, each group with lanes to add has two members with jobs or more, and so a
/// joint that adds them. With it, what the jobs do is what the nodes do (`steps` of `IsPlanned`).
pub fn lanes_are_joined(stage: &Stage)
    ensures { (first most : ℕ) → AreJoined (nodes_with first most stage.now) }
{
    let _ = stage;
}
