//! Lanes, added to their buses.
ghost use Rattle.std.specs.Prelude.{◌≡◌, ◌<◌, ◌^◌};
ghost use Rattle.std.specs.List.{All};
ghost use Rattle.sn_mem.specs.Words.{SameButWords};
ghost use Rattle.sn_io.specs.Joints.{MayAdd, with_lane, with_lanes};

use crate::outputs::put_block;
use sn_mem::{Moved, Port};

/// Adds a lane to its bus, as Out.ar adds a signal: a bus that was not written in this block is overwritten.
fn add_lane<P: Port>(port: &mut P, block: u64, moved: &Moved)
    requires block { block < 2 ^ 63 }
    requires may { MayAdd (P.foot port.old) moved.now }
    ensures words { P.words port.new ≡ with_lane block moved.now (P.words port.old) }
    ensures port { SameButWords P.foot P.rest port.old port.new }
{
    let samples = port.load_samples(moved.lane.at + 1);
    put_block(port, true, block, moved.bus.at, &samples);
}

/// Adds lanes to their buses, one after the other, with a saturation after each.
pub fn add_lanes<P: Port>(port: &mut P, block: u64, lanes: &[Moved])
    requires block { block < 2 ^ 63 }
    requires may { All (MayAdd (P.foot port.old)) lanes.now }
    ensures words { P.words port.new ≡ with_lanes block lanes.now (P.words port.old) }
    ensures port { SameButWords P.foot P.rest port.old port.new }
{
    for moved in lanes {
        add_lane(port, block, moved);
    }
}
