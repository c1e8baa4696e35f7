//! A port on which buses are moved onto lanes.
ghost use Rattle.std.specs.List.{All};
ghost use Rattle.std.specs.Prelude.{◌≡◌, ◌<◌, ◌+◌, ◌-◌, ◌^◌, true, IfSome};
ghost use Rattle.sn_mem.specs.Words.{covers};
ghost use Rattle.sn_mem.specs.Meetings.{holds};
ghost use Rattle.sn_mem.specs.Lanes.{HasRoom, StandInRow, place_in};

use crate::blocks::Block;
use crate::clashes::meets;
use crate::extents::{Extent, Foot};
use crate::moves::Moved;
use crate::port::Port;
use crate::samples::{put_samples, samples_in};
use sn_ports::limits::BLOCK_FRAMES;
use std::collections::LinkedList;

/// Whether a run begins in an extent and does not end past it.
fn holds(extent: Extent, run: Extent) -> bool
    ensures { result ≡ holds extent run }
{
    let end = extent.at as u64 + extent.len as u64;
    extent.covers(run.at as u64) && run.at as u64 + run.len as u64 <= end
}

/// Where a word of a bus stands on its lane.
fn in_lane(moved: &Moved, at: u32) -> u32
    requires room { HasRoom moved.now }
    requires covers { covers moved.now.bus at ≡ true }
    ensures { result ≡ moved.now.lane.at + (at - moved.now.bus.at) }
{
    let offset = at - moved.bus.at;
    moved.lane.at + offset
}

/// Where a word of a lane stands on its bus.
fn in_bus(moved: &Moved, at: u32) -> u32
    requires room { HasRoom moved.now }
    requires covers { covers moved.now.lane at ≡ true }
    ensures { result ≡ moved.now.bus.at + (at - moved.now.lane.at) }
{
    let offset = at - moved.lane.at;
    moved.bus.at + offset
}

/// Where a word of the view stands: a bus and its lane change places.
fn place_in(moves: &[Moved], at: u32) -> u32
    requires { All HasRoom moves.now }
    ensures { result ≡ place_in moves.now at }
{
    for moved in moves {
        if moved.bus.covers(at as u64) {
            return in_lane(moved, at);
        }
        if moved.lane.covers(at as u64) {
            return in_bus(moved, at);
        }
    }
    at
}

/// Where a run of the view begins, if its words stand in a row: all in one bus, or none in a bus or a lane.
fn run_in(moves: &[Moved], run: Extent) -> Option<u32>
    requires room { 0 < run.len → All HasRoom moves.now }
    requires below { run.at + run.len < 2 ^ 32 }
    ensures { IfSome result (λ place. StandInRow moves.now run place) }
{
    if run.len == 0 {
        return Some(run.at);
    }
    for moved in moves {
        if holds(moved.bus, run) {
            return Some(in_lane(moved, run.at));
        }
        if meets(moved.bus, run) || meets(moved.lane, run) {
            return None;
        }
    }
    Some(run.at)
}

/// What calls of such a port leave as it is: the type of a value of which contracts alone speak. No value of it is
/// made when the program runs, so its linked list is never built.
pub struct LaneRest<R> {
    /// The name of the reference to the port.
    pub port: u64,
    /// The buses that are moved.
    pub moves: LinkedList<Moved>,
    /// What may be read and written on the port.
    pub foot: Foot,
    /// What the port itself keeps.
    pub rest: R,
}

/// A port on which buses are moved onto lanes: what is loaded from a bus, or stored in it, is a word of its lane.
///
/// Buses and lanes have 65 words each, which lie in the port's words, and no two of them share a word. If they don't,
/// nothing may be loaded or stored. Lanes can't be seen by themselves.
pub struct LanePort<'a, P> {
    /// The port.
    pub port: &'a mut P,
    /// The buses that are moved, with their lanes.
    pub moves: &'a [Moved],
}

impl<'a, P: Port> LanePort<'a, P> {
    /// The port, with these buses moved.
    pub fn new(port: &'a mut P, moves: &'a [Moved]) -> LanePort<'a, P>
        ensures same_reference { result.port.ghost_name ≡ port.entry.ghost_name }
        ensures same { result.port.now ≡ port.old }
        ensures moves { result.moves.now ≡ moves.now }
    {
        LanePort { port, moves }
    }
}

impl<P> Drop for LanePort<'_, P> {
    fn drop(self)
        ensures { self.exit.0.now ≡ self.entry.port.now }
    {
        let LanePort { port: _, moves: _ } = self;
    }
}

impl<P: Port> Port for LanePort<'_, P> {
    ghost use Rattle.std.specs.Prelude.{length};
    ghost use Rattle.sn_mem.specs.Lanes.{exchanged, foot_through};

    type Rest = LaneRest<P::Rest>;

    ghost words = { λ p. exchanged p.moves.now (P.words p.port.now) };

    ghost foot = { λ p. foot_through p.moves.now (length (P.words p.port.now)) (P.foot p.port.now) };

    ghost rest = { λ p. record { port = p.port.ghost_name; moves = p.moves.now; foot = P.foot p.port.now; rest = P.rest p.port.now } };

    fn load(&mut self, at: u32) -> u64 {
        self.port.load(place_in(self.moves, at))
    }

    fn store(&mut self, at: u32, value: u64) {
        self.port.store(place_in(self.moves, at), value);
    }

    /// In one piece, if the words stand in a row.
    fn load_run(&mut self, at: u32, into: &mut [u64]) {
        let len = into.len() as u32;
        match run_in(self.moves, Extent { at, len }) {
            Some(place) => self.port.load_run(place, into),
            None => {
                for i in 0..into.len() {
                    into[i] = self.load(at + i as u32);
                }
            }
        }
    }

    /// In one piece, if the words stand in a row.
    fn store_run(&mut self, at: u32, run: &[u64]) {
        let len = run.len() as u32;
        match run_in(self.moves, Extent { at, len }) {
            Some(place) => self.port.store_run(place, run),
            None => {
                for i in 0..run.len() {
                    self.store(at + i as u32, run[i]);
                }
            }
        }
    }

    /// In one piece, if the words stand in a row.
    fn load_samples(&mut self, at: u32) -> Block {
        let len = BLOCK_FRAMES as u32;
        match run_in(self.moves, Extent { at, len }) {
            Some(place) => self.port.load_samples(place),
            None => {
                let mut words = [0u64; BLOCK_FRAMES];
                self.load_run(at, &mut words);
                samples_in(&words, 0)
            }
        }
    }

    /// In one piece, if the words stand in a row.
    fn store_samples(&mut self, at: u32, samples: &Block) {
        let len = BLOCK_FRAMES as u32;
        match run_in(self.moves, Extent { at, len }) {
            Some(place) => self.port.store_samples(place, samples),
            None => {
                let mut words = [0u64; BLOCK_FRAMES];
                put_samples(samples, &mut words, 0);
                self.store_run(at, &words);
            }
        }
    }

    ghost use Rattle.sn_mem.specs.Through.{through_inside};

    ghost inside = { λ p x t. through_inside p.moves.now (P.words p.port.now) (P.foot p.port.now) x t };
}
