//! Lanes of a job, added to their buses in a copy of these.
ghost use Rattle.std.specs.Prelude.{◌≡◌, ◌<◌, ◌^◌, length};
ghost use Rattle.std.specs.List.{All};
ghost use Rattle.sn_mem.specs.Words.{SameButWords};
ghost use Rattle.sn_io.specs.Joints.{MayAdd, with_lanes};

use sn_io::add_lanes;
use sn_mem::{BUS_WORDS, Foot, LocalPort, Moved, Port, Scratch};
use std::mem;

/// Adds lanes to their buses, with the words of the buses in a copy.
fn add_in_copy<P: Port>(port: &mut P, foot: &Foot, block: u64, lanes: &[Moved], copy: &mut [u64])
    requires block { block < 2 ^ 63 }
    requires size { length copy.old < 2 ^ 32 }
    requires foot { foot.now ≡ P.foot port.old }
    requires may { All (MayAdd (P.foot port.old)) lanes.now }
    ensures words { P.words port.new ≡ with_lanes block lanes.now (P.words port.old) }
    ensures port { SameButWords P.foot P.rest port.old port.new }
{
    let mut local = LocalPort::new(port, foot, copy);
    add_lanes(&mut local, block, lanes);
    local.flush(foot);
}

/// Adds the lanes of a job to their buses. If there are several, the words of the buses stand in the scratch meanwhile,
/// so a bus is stored once and not for each lane. Over a port of the job's foot this is the same.
pub fn join_lanes<P: Port>(
    port: &mut P,
    foot: &Foot,
    block: u64,
    lanes: &[Moved],
    scratch: &mut Scratch,
)
    requires block { block < 2 ^ 63 }
    requires foot { foot.now ≡ P.foot port.old }
    requires may { All (MayAdd (P.foot port.old)) lanes.now }
    ensures words { P.words port.new ≡ with_lanes block lanes.now (P.words port.old) }
    ensures port { SameButWords P.foot P.rest port.old port.new }
{
    if lanes.len() < 2 {
        add_lanes(port, block, lanes);
        return;
    }
    let alloc = *scratch.buses.allocator();
    let mut buses = mem::replace(&mut scratch.buses, Vec::new(alloc));
    let size = buses.len().min(BUS_WORDS);
    add_in_copy(port, foot, block, lanes, &mut buses[..size]);
    scratch.buses = buses;
}
