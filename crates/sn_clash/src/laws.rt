//! The clashes of a world.
ghost use Rattle.std.specs.Prelude.{◌≡◌, List, ℕ};
ghost use Rattle.sn_world.specs.World.{world_of};
ghost use Rattle.sn_clash.specs.Clashing.{clashes_in, clashes_of};

use sn_world::Stage;

/// A law: the clashes of a stage are those of each world that it stands for.
pub fn world_has_the_clashes(stage: &Stage)
    ensures { (words : List ℕ) → clashes_of (world_of stage.now words) ≡ clashes_in stage.now }
{
    let _ = stage;
}
