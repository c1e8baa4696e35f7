//! Whether nothing is told and nothing is done when a block is settled.
ghost use Rattle.std.specs.Prelude.{◌≡◌, ◌&&◌, ℕ, List};
ghost use Rattle.std.specs.List.{list_all};
ghost use Rattle.sn_world.specs.World.{world_of};
ghost use Rattle.sn_quiet.specs.Quiet.{are_quiet, is_quiet_held, is_quiet_unit};

use sn_def::Unit;
use sn_world::{Held, Stage, frees, pauses};

fn both(one: bool, other: bool) -> bool
    ensures { result ≡ (one && other) }
{
    one && other
}

/// Whether a unit sends no triggers, and neither pauses nor frees its synth at its end.
fn is_quiet_unit(unit: &Unit) -> bool
    ensures { result ≡ is_quiet_unit unit.now }
{
    if unit.sends() {
        return false;
    }
    match unit.done_action() {
        Some(action) => !pauses(action) && !frees(action),
        None => true,
    }
}

/// Whether all units are quiet.
fn are_quiet_units(units: &[Unit]) -> bool
    ensures { result ≡ list_all is_quiet_unit units.now }
{
    let mut quiet = true;
    for unit in units {
        quiet = both(quiet, is_quiet_unit(unit));
    }
    quiet
}

/// Whether what a node holds is quiet.
fn is_quiet_held(held: &Held) -> bool
    ensures { result ≡ is_quiet_held held.now }
{
    match held {
        Held::Group => true,
        Held::Synth { def, .. } => are_quiet_units(def.units.as_slice()),
    }
}

/// Whether no synth that runs sends triggers, or pauses or frees itself when a unit ends.
pub fn is_quiet(stage: &Stage) -> bool
    ensures { (words : List ℕ) → result ≡ are_quiet (world_of stage.now words).nodes }
{
    let mut quiet = true;
    for visit in stage.tree.walk() {
        quiet = both(quiet, is_quiet_held(visit.payload));
    }
    quiet
}
