//! What the layout of a world decides.
ghost use Rattle.std.specs.Prelude.{◌≡◌, List, ℕ};
ghost use Rattle.sn_world.specs.World.{World, world_of};
ghost use Rattle.sn_world.specs.declared.stage.Stage.{Stage};
ghost use Rattle.sn_quiet.specs.Quiet.{are_quiet};
ghost use Rattle.sn_clash.specs.Clashing.{clashes_of};
ghost use Rattle.sn_graph.specs.Stages.{nodes_in};
ghost use Rattle.sn_layout.specs.Layout.{layout_of};

/// A law: worlds of one layout have the same clashes, and if the nodes of one are quiet, so are those of the other.
pub fn layout_decides_worlds()
    ensures clashes { (v w : World) → layout_of v ≡ layout_of w → clashes_of v ≡ clashes_of w }
    ensures quiet { (v w : World) → layout_of v ≡ layout_of w → are_quiet v.nodes ≡ are_quiet w.nodes }
{}

/// A law: stages that stand for worlds of one layout have the same nodes that run, so that their plans are the same.
pub fn layout_decides_what_runs()
    ensures { (a b : Stage) (us vs : List ℕ) → layout_of (world_of a us) ≡ layout_of (world_of b vs) → nodes_in a ≡ nodes_in b }
{}
