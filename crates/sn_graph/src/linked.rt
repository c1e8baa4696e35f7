//! Nodes that are put together from the last one on, and the buses that they mix.
ghost use Rattle.std.specs.Prelude.{◌≡◌, IfOk, Some, None, if◌then◌else◌};
ghost use Rattle.sn_ports.specs.Limits.{audio_bus_count};
ghost use Rattle.sn_mem.specs.Blocks.{table};
ghost use Rattle.sn_graph.specs.Inputs.{AreNoted, nodes_of};
ghost use Rattle.sn_graph.specs.Sharing.{two_mix};
ghost use Rattle.sn_graph.specs.Voices.{group, is_none, lanes_if, none, synth};

use crate::mixing::{BUSES, both, buses_of, either, no_buses};
use crate::nodes::{HeardNodes, Joint, Voice};
use sn_mem::Moves;
use sn_ports::NoMemory;
use std::alloc::Global;
use std::marker::Model;

/// A synth before others.
fn synth_before(alloc: Global, voice: Voice, rest: HeardNodes) -> Result<HeardNodes, NoMemory>
    ensures nodes { IfOk result (λ nodes. nodes_of nodes ≡ synth voice (nodes_of rest)) }
    ensures noted { AreNoted rest → IfOk result AreNoted }
{
    Ok(HeardNodes::Synth(voice, Box::new(alloc, rest)?))
}

/// No lanes, for a group that may be split.
fn lanes_if(alloc: Global, split: bool) -> Option<Moves>
    ensures { result ≡ lanes_if split }
{
    if split { Some(Moves::new(alloc)) } else { None }
}

/// A group before others.
fn group_before(
    alloc: Global,
    joint: Joint,
    inner: HeardNodes,
    rest: HeardNodes,
) -> Result<HeardNodes, NoMemory>
    ensures nodes { IfOk result (λ nodes. nodes_of nodes ≡ group joint.lanes (nodes_of inner) (nodes_of rest)) }
    ensures noted { joint.shared ≡ table (two_mix (nodes_of inner)) audio_bus_count → AreNoted inner → AreNoted rest → IfOk result AreNoted }
{
    Ok(HeardNodes::Group(joint, Box::new(alloc, inner)?, Box::new(alloc, rest)?))
}

/// Whether there are no nodes.
fn is_none(nodes: &HeardNodes) -> bool
    ensures { result ≡ is_none (nodes_of nodes.now) }
{
    match nodes {
        HeardNodes::None => true,
        HeardNodes::Synth(_, _) | HeardNodes::Group(_, _, _) => false,
    }
}

/// Nodes that are put together from the last one on.
#[derive(Drop)]
pub struct Linked {
    nodes: HeardNodes,
    // The buses that they mix.
    mixed: [bool; BUSES],
    // Those that two of them mix.
    shared: [bool; BUSES],
}

impl Model for Linked {
    ghost use Rattle.std.specs.Prelude.{◌≡◌};
    ghost use Rattle.std.specs.Coded.{codes};
    ghost use Rattle.sn_ports.specs.Limits.{audio_bus_count};
    ghost use Rattle.sn_mem.specs.Blocks.{table};
    ghost use Rattle.sn_graph.specs.Inputs.{AreNoted, nodes_of};
    ghost use Rattle.sn_graph.specs.Sharing.{one_mixes, two_mix};
    ghost use Rattle.sn_graph.specs.Voices.{voices};
    ghost use Rattle.sn_graph.specs.contracts.nodes.HeardNodes as heard;
    ghost use Rattle.sn_graph.specs.declared.nodes.HeardNodes.{HeardNodes};

    ghost Value = { HeardNodes };

    ghost coded = { Prim.hlevel (codes, heard.the_row.coded) };

    ghost view = { λ l. l.nodes };

    ghost invariant = { λ l. (l.mixed ≡ table (one_mixes (voices (nodes_of l.nodes))) audio_bus_count) × (l.shared ≡ table (two_mix (nodes_of l.nodes)) audio_bus_count) × AreNoted l.nodes };
}

impl Linked {
    /// No nodes.
    pub fn new() -> Linked
        ensures { nodes_of result ≡ none }
    {
        Linked {
            nodes: HeardNodes::None,
            mixed: no_buses(),
            shared: no_buses(),
        }
    }

    /// Whether there are none.
    pub fn is_none(&self) -> bool
        ensures { result ≡ is_none (nodes_of self.now) }
    {
        is_none(&self.nodes)
    }

    /// A synth before them.
    pub fn after_synth(self, alloc: Global, voice: Voice) -> Result<Linked, NoMemory>
        ensures { IfOk result (λ nodes. nodes_of nodes ≡ synth voice (nodes_of self)) }
    {
        let own = buses_of(&voice);
        let more = both(&own, &self.mixed);
        let shared = either(&more, &self.shared);
        let mixed = either(&own, &self.mixed);
        let nodes = synth_before(alloc, voice, self.nodes)?;
        let linked = Linked {
            nodes,
            mixed,
            shared,
        };
        Ok(linked)
    }

    /// A group before them, with those below it. It may be split or not.
    pub fn after_group(self, alloc: Global, split: bool, inner: Linked) -> Result<Linked, NoMemory>
        ensures { IfOk result (λ nodes. nodes_of nodes ≡ group (lanes_if split) (nodes_of inner) (nodes_of self)) }
    {
        let more = both(&inner.mixed, &self.mixed);
        let shared = either(&more, &self.shared);
        let mixed = either(&inner.mixed, &self.mixed);
        let joint = Joint {
            lanes: lanes_if(alloc, split),
            shared: inner.shared,
        };
        let nodes = group_before(alloc, joint, inner.nodes, self.nodes)?;
        let linked = Linked {
            nodes,
            mixed,
            shared,
        };
        Ok(linked)
    }

    /// The nodes.
    pub fn into_nodes(self) -> HeardNodes
        ensures same { result ≡ self }
        ensures noted { AreNoted result }
    {
        self.nodes
    }
}
