//! How much may come of the settling of a block.
ghost use Rattle.std.specs.Prelude.{◌≡◌, ◌≤◌, length};
ghost use Rattle.sn_ports.specs.Limits.{most_wires, most_units};
ghost use Rattle.sn_tree.specs.Trees.{running_labels};
ghost use Rattle.sn_world.specs.SettleWords.{unit_room, units_room, held_room, walk_room};

use sn_def::Unit;
use sn_world::{Held, Stage};

/// How many triggers and ends may come of a unit.
fn unit_room(unit: &Unit) -> u32
    ensures room { result ≡ unit_room unit.now }
    ensures few { result ≤ 2 }
{
    let triggers = if unit.sends() { 1 } else { 0 };
    let ends = if unit.done_action().is_some() { 1 } else { 0 };
    triggers + ends
}

/// How many may come of a synth's units.
fn units_room(units: &[Unit]) -> u32
    requires { length units.now ≤ most_units }
    ensures room { result ≡ units_room units.now }
    ensures few { result ≤ most_wires }
{
    let mut room = 0;
    for unit in units {
        room += unit_room(unit);
    }
    room
}

/// How many may come of what a node holds.
pub fn held_room(held: &Held) -> u32
    ensures room { result ≡ held_room held.now }
    ensures few { result ≤ most_wires }
{
    match held {
        Held::Group => 0,
        Held::Synth { def, .. } => units_room(def.units.as_slice()),
    }
}

/// How many triggers and ends may come of a block: as many as the units of running synths that send triggers or end.
pub fn settling_room(stage: &Stage) -> u32
    ensures room { result ≡ walk_room (running_labels stage.now.tree.attached) }
    ensures few { result ≤ 2097152 }
{
    let mut room = 0;
    // A hint for the proof alone: a tree has at most 4,096 nodes, so the sum fits.
    let _nodes = stage.tree.len();
    for visit in stage.tree.walk() {
        room += held_room(visit.payload);
    }
    room
}
