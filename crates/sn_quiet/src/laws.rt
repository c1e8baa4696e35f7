//! Laws of blocks that are each settled, or settled once, after the last.
ghost use Rattle.std.specs.Prelude.{◌≡◌, ◌+◌, true, ℕ};
ghost use Rattle.sn_world.specs.Settling.{settled, with_nodes_settled};
ghost use Rattle.sn_world.specs.Walk.{walk};
ghost use Rattle.sn_world.specs.World.{World, Turn};
ghost use Rattle.sn_quiet.specs.Quiet.{are_quiet};
ghost use Rattle.sn_quiet.specs.Walks.{settled_world, walks, walks_settled};

/// A law: a walk does not see whether the block before was settled. So blocks that are settled once, after the last,
/// leave the same world as blocks that are each settled.
pub fn settling_is_unseen()
    ensures walk { (b : ℕ) (w : World) → settled_world (walk b (settled_world w)) ≡ settled_world (walk b w) }
    ensures walks { (b n : ℕ) (w : World) → settled_world (walks b (n + 1) w) ≡ walks_settled b (n + 1) w }
{}

/// A law: if no synth that runs sends triggers or acts when a unit ends, a settling tells nothing, and settles the done
/// words alone.
pub fn quiet_blocks_settle()
    ensures { (b : ℕ) (t : Turn) → are_quiet t.world.nodes ≡ true → settled b t ≡ with_nodes_settled t }
{}

/// A law: nodes stay quiet while blocks are walked and settled.
pub fn quiet_stays()
    ensures walk { (b : ℕ) (w : World) → are_quiet (walk b w).nodes ≡ are_quiet w.nodes }
    ensures settled { (w : World) → are_quiet (settled_world w).nodes ≡ are_quiet w.nodes }
{}
