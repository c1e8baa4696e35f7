//! Nodes that run by their ids, one after the other.
ghost use Rattle.std.specs.Prelude.{◌≡◌, ◌<◌, ◌^◌, length};
ghost use Rattle.sn_mem.specs.Words.{SameButWords};
ghost use Rattle.sn_mem.specs.Layout.{bus_words};
ghost use Rattle.sn_io.specs.ByFoot.{IsByFoot};
ghost use Rattle.sn_world.specs.WalkWords.{held_words};
ghost use Rattle.sn_graph.specs.Plans.{renders, runs_of};
ghost use Rattle.sn_play.specs.Named.{CanRun, held_at};
ghost use Rattle.sn_play.specs.Steps.{CanMove, CanMoveAll, lane_step, lane_steps};

use sn_def::Now;
use sn_mem::{AllMoves, BUS_WORDS, Foot, LanePort, LocalPort, Moved, Port, Scratch};
use sn_synth::run_synth;
use sn_world::{Held, Stage};
use std::mem;

/// Runs what a node holds by itself.
fn run_held<P: Port>(
    port: &mut P,
    stage: &Stage,
    block: u64,
    node: i32,
    held: &Held,
    scratch: &mut Scratch,
)
    requires rate { 0 < stage.now.rate }
    requires base { stage.now.pool.region.at ≡ bus_words }
    requires block { block < 2 ^ 63 }
    requires held { CanRun stage.now (P.foot port.old) held.now }
    ensures words { P.words port.new ≡ held_words stage.now.rate block node stage.now.buffers held.now (P.words port.old) }
    ensures port { SameButWords P.foot P.rest port.old port.new }
{
    match held {
        Held::Group => {}
        Held::Synth {
            def,
            controls,
            state,
        } => {
            let now = Now {
                rate: stage.rate,
                block,
                node,
                unit: 0,
            };
            run_synth(port, def, controls, &stage.buffers, *state, scratch, &now);
        }
    }
}

/// Runs the attached node of an id.
fn run_node<P: Port>(port: &mut P, stage: &Stage, block: u64, node: i32, scratch: &mut Scratch)
    requires rate { 0 < stage.now.rate }
    requires base { stage.now.pool.region.at ≡ bus_words }
    requires block { block < 2 ^ 63 }
    requires held { CanRun stage.now (P.foot port.old) (held_at stage.now node) }
    ensures words { P.words port.new ≡ held_words stage.now.rate block node stage.now.buffers (held_at stage.now node) (P.words port.old) }
    ensures port { SameButWords P.foot P.rest port.old port.new }
{
    match stage.tree.payload_near(node, &mut scratch.near) {
        Some(held) => run_held(port, stage, block, node, held, scratch),
        None => {}
    }
}

/// Runs the attached node of an id through a port on which buses are moved onto lanes.
fn run_through<P: Port>(
    port: &mut P,
    stage: &Stage,
    block: u64,
    node: i32,
    moves: &[Moved],
    scratch: &mut Scratch,
)
    requires rate { 0 < stage.now.rate }
    requires base { stage.now.pool.region.at ≡ bus_words }
    requires block { block < 2 ^ 63 }
    requires may { CanMove stage.now block node moves.now (P.foot port.old) (length (P.words port.old)) }
    ensures words { P.words port.new ≡ lane_step stage.now block (renders node moves.now) (P.words port.old) }
    ensures port { SameButWords P.foot P.rest port.old port.new }
{
    let mut lanes = LanePort::new(port, moves);
    run_node(&mut lanes, stage, block, node, scratch);
}

/// Runs the attached node of an id, with buses moved onto lanes.
fn run_moved<P: Port>(
    port: &mut P,
    stage: &Stage,
    block: u64,
    node: i32,
    moves: &[Moved],
    scratch: &mut Scratch,
)
    requires rate { 0 < stage.now.rate }
    requires base { stage.now.pool.region.at ≡ bus_words }
    requires block { block < 2 ^ 63 }
    requires may { CanMove stage.now block node moves.now (P.foot port.old) (length (P.words port.old)) }
    ensures words { P.words port.new ≡ lane_step stage.now block (renders node moves.now) (P.words port.old) }
    ensures port { SameButWords P.foot P.rest port.old port.new }
{
    if moves.is_empty() {
        run_node(port, stage, block, node, scratch);
    } else {
        run_through(port, stage, block, node, moves, scratch);
    }
}

/// Runs the attached nodes of some ids for a block, in order, each with the buses that it moves.
fn run_nodes<P: Port>(
    port: &mut P,
    stage: &Stage,
    block: u64,
    nodes: &[i32],
    moves: &AllMoves,
    scratch: &mut Scratch,
)
    requires rate { 0 < stage.now.rate }
    requires base { stage.now.pool.region.at ≡ bus_words }
    requires block { block < 2 ^ 63 }
    requires nodes { CanMoveAll stage.now block nodes.now moves.now (P.foot port.old) (length (P.words port.old)) }
    ensures words { P.words port.new ≡ lane_steps stage.now block (runs_of nodes.now moves.now) (P.words port.old) }
    ensures port { SameButWords P.foot P.rest port.old port.new }
{
    for number in 0..nodes.len() {
        run_moved(port, stage, block, nodes[number], moves.of(number), scratch);
    }
}

/// The same, with the words of the buses in a copy while the nodes run.
fn run_in_copy<P: Port>(
    port: &mut P,
    foot: &Foot,
    stage: &Stage,
    block: u64,
    nodes: &[i32],
    moves: &AllMoves,
    copy: &mut [u64],
    scratch: &mut Scratch,
)
    requires rate { 0 < stage.now.rate }
    requires base { stage.now.pool.region.at ≡ bus_words }
    requires block { block < 2 ^ 63 }
    requires size { length copy.old < 2 ^ 32 }
    requires foot { foot.now ≡ P.foot port.old }
    requires nodes { CanMoveAll stage.now block nodes.now moves.now (P.foot port.old) (length (P.words port.old)) }
    requires by_foot { IsByFoot (P.foot port.old) (lane_steps stage.now block (runs_of nodes.now moves.now)) }
    ensures words { P.words port.new ≡ lane_steps stage.now block (runs_of nodes.now moves.now) (P.words port.old) }
    ensures port { SameButWords P.foot P.rest port.old port.new }
{
    let mut local = LocalPort::new(port, foot, copy);
    run_nodes(&mut local, stage, block, nodes, moves, scratch);
    local.flush(foot);
}

/// Runs the nodes of a job, each with the buses that it moves: one alone over the port itself, several
/// with the words of the buses in the scratch. Over a port of the job's foot this is the same.
pub fn run_job<P: Port>(
    port: &mut P,
    foot: &Foot,
    stage: &Stage,
    block: u64,
    nodes: &[i32],
    moves: &AllMoves,
    scratch: &mut Scratch,
)
    requires rate { 0 < stage.now.rate }
    requires base { stage.now.pool.region.at ≡ bus_words }
    requires block { block < 2 ^ 63 }
    requires foot { foot.now ≡ P.foot port.old }
    requires nodes { CanMoveAll stage.now block nodes.now moves.now (P.foot port.old) (length (P.words port.old)) }
    requires by_foot { IsByFoot (P.foot port.old) (lane_steps stage.now block (runs_of nodes.now moves.now)) }
    ensures words { P.words port.new ≡ lane_steps stage.now block (runs_of nodes.now moves.now) (P.words port.old) }
    ensures port { SameButWords P.foot P.rest port.old port.new }
{
    if nodes.len() < 2 {
        run_nodes(port, stage, block, nodes, moves, scratch);
        return;
    }
    let alloc = *scratch.buses.allocator();
    let mut buses = mem::replace(&mut scratch.buses, Vec::new(alloc));
    let size = buses.len().min(BUS_WORDS);
    run_in_copy(
        port,
        foot,
        stage,
        block,
        nodes,
        moves,
        &mut buses[..size],
        scratch,
    );
    scratch.buses = buses;
}
