//! The words that nodes may read and write.
ghost use Rattle.std.specs.Prelude.{◌≡◌, ◌↔◌, ◌++◌, false, map, IfOk, OnOk, OnErr, Err};
ghost use Rattle.std.specs.List.{All};
ghost use Rattle.sn_tree.specs.Trees.{holds};
ghost use Rattle.sn_mem.specs.Buffers.{live_places};
ghost use Rattle.sn_world.specs.Pictures.{held_extents, live_held};
ghost use Rattle.sn_foot.specs.declared.feet.Unfooted.TheVariants.{NoMemory, NoNode};
ghost use Rattle.sn_foot.specs.declared.uses.Role.TheVariants.{Write};
ghost use Rattle.sn_foot.specs.Canonical.{Ends, canonical};
ghost use Rattle.sn_foot.specs.Footprints.{foot_at, foot_of, states_of};
ghost use Rattle.sn_foot.specs.Uses.{places_of};

use crate::merging::canonical;
use crate::nodes::{found_at, is_attached};
use crate::places::used_places;
use crate::reach::Reach;
use crate::uses::{Role, Use};
use crate::using::uses_of;
use sn_mem::{Buffers, Extent, Extents};
use sn_ports::NoMemory;
use sn_world::{Held, NodeId, Stage};
use std::alloc::Global;

/// Why there is no foot.
#[derive(Clone, Copy, Debug, PartialEq, Eq)]
pub enum Unfooted {
    /// There is no such node.
    NoNode,
    /// Memory ran out.
    NoMemory,
}

impl From<NoMemory> for Unfooted {
    ghost from_gives = { λ _ e. e ≡ NoMemory };

    fn from(_: NoMemory) -> Self {
        Unfooted::NoMemory
    }
}

/// Appends the extent of a node's own state.
fn put_state(places: &mut Vec<Extent>, held: &Held) -> Result<(), NoMemory>
    ensures { OnOk result (places.new.items ≡ places.old.items ++ held_extents held.now) }
{
    match held {
        Held::Group => Ok(()),
        Held::Synth { state, .. } => {
            places.push(*state)?;
            Ok(())
        }
    }
}

/// Appends the extents of nodes' states.
pub fn put_states(places: &mut Vec<Extent>, nodes: &[&Held]) -> Result<(), NoMemory>
    ensures { OnOk result (places.new.items ≡ places.old.items ++ states_of (map (λ h. h.now) nodes.now)) }
{
    for held in nodes {
        put_state(places, held)?;
    }
    Ok(())
}

/// The words of what is used in this way.
fn words_of(alloc: Global, buffers: &Buffers, role: Role, uses: &[Use]) -> Result<Extents, NoMemory>
    requires buffers { All Ends (live_places buffers.now) }
    ensures { IfOk result (λ words. words ≡ canonical (places_of buffers.now role uses.now)) }
{
    let places = used_places(alloc, buffers, role, uses)?;
    canonical(alloc, places)
}

/// The words of what is written, and those of the states of nodes.
fn writes_of(
    alloc: Global,
    buffers: &Buffers,
    uses: &[Use],
    nodes: &[&Held],
) -> Result<Extents, NoMemory>
    requires buffers { All Ends (live_places buffers.now) }
    requires states { All Ends (states_of (map (λ h. h.now) nodes.now)) }
    ensures { IfOk result (λ writes. writes ≡ canonical (places_of buffers.now Write uses.now ++ states_of (map (λ h. h.now) nodes.now))) }
{
    let mut places = used_places(alloc, buffers, Role::Write, uses)?;
    put_states(&mut places, nodes)?;
    canonical(alloc, places)
}

/// The words that nodes may read, write and mix: those of the buses and buffers that their units use, at the present
/// values of their index controls; the control buses that their controls follow, among the reads; and their own states,
/// among the writes. Each node counts by itself, whether it runs or not.
pub fn foot_of_nodes(alloc: Global, buffers: &Buffers, nodes: &[&Held]) -> Result<Reach, NoMemory>
    requires buffers { All Ends (live_places buffers.now) }
    requires states { All Ends (states_of (map (λ h. h.now) nodes.now)) }
    ensures { IfOk result (λ foot. foot ≡ foot_of buffers.now (map (λ h. h.now) nodes.now)) }
{
    let uses = uses_of(alloc, nodes)?;
    let reads = words_of(alloc, buffers, Role::Read, &uses)?;
    let writes = writes_of(alloc, buffers, &uses, nodes)?;
    let mixes = words_of(alloc, buffers, Role::Mix, &uses)?;
    Ok(Reach {
        reads,
        writes,
        mixes,
    })
}

/// Replaces the content of `foot` by the words that a node and all below it may read, write and mix.
///
/// What is paused, or lies below a paused node, uses nothing. An `Err` leaves `foot` as it was.
#[tactic(auto, using(crate::proofs::Finding::found_ends))]
pub fn foot_of(alloc: Global, stage: &Stage, node: i32, foot: &mut Reach) -> Result<(), Unfooted>
    requires buffers { All Ends (live_places stage.now.buffers) }
    requires states { All Ends (live_held stage.now.tree.attached) }
    ensures foot { OnOk result (foot.new ≡ foot_at stage.now.buffers node stage.now.tree.attached) }
    ensures missing { (result ≡ Err NoNode) ↔ (holds node stage.now.tree.attached ≡ false) }
    ensures unchanged { OnErr result (foot.new ≡ foot.old) }
{
    let node = NodeId { id: node };
    if !is_attached(&stage.tree, &node) {
        return Err(Unfooted::NoNode);
    }
    let nodes = found_at(alloc, &stage.tree, &node)?;
    *foot = foot_of_nodes(alloc, &stage.buffers, &nodes)?;
    Ok(())
}
