//! Nodes by themselves, which are put together from the end of the walk on.
ghost use Rattle.std.specs.Prelude.{◌≡◌, ◌++◌, ◌∷◌, [], IfOk, OnOk, map, take, drop};
ghost use Rattle.std.specs.List.{All};
ghost use Rattle.sn_mem.specs.Buffers.{live_places};
ghost use Rattle.sn_foot.specs.Canonical.{Ends};
ghost use Rattle.sn_foot.specs.Footprints.{states_of};
ghost use Rattle.sn_graph.specs.Voices.{none};
ghost use Rattle.sn_graph.specs.Inputs.{nodes_of};
ghost use Rattle.sn_graph.specs.Stages.{may_split, voice_of};
ghost use Rattle.sn_clash.specs.Rows.{row_of};
ghost use Rattle.sn_graph.specs.Pieces.{before, group_piece, linked, piece, piece_of, pieces, with_member};

use crate::linked::Linked;
use crate::named::NamedGroups;
use crate::nodes::Voice;
use sn_foot::foot_of_nodes;
use sn_mem::{Buffers, Moves};
use sn_ports::NoMemory;
use sn_tree::{Member, NodeKind};
use sn_world::Held;
use std::alloc::Global;

/// A node by itself, with what is heard below it.
#[derive(Drop)]
pub enum Part {
    /// A node that is left out: a paused one with all below it, or a group in which no synth runs.
    Nothing,
    /// A synth.
    Synth(Voice),
    /// A group, whether it may be split, and those below it.
    Group(bool, Box<Linked>),
}

/// Puts a node before others.
fn before(alloc: Global, part: Part, rest: Linked) -> Result<Linked, NoMemory>
    ensures { IfOk result (λ nodes. nodes_of nodes ≡ before (piece_of part) (nodes_of rest)) }
{
    match part {
        Part::Nothing => Ok(rest),
        Part::Synth(voice) => rest.after_synth(alloc, voice),
        Part::Group(split, inner) => rest.after_group(alloc, split, Box::into_inner(inner)),
    }
}

/// Puts all these nodes in order.
fn linked(alloc: Global, parts: Vec<Part>) -> Result<Linked, NoMemory>
    ensures { IfOk result (λ nodes. nodes_of nodes ≡ linked (map piece_of parts.items) none) }
{
    let mut parts = parts;
    let mut nodes = Linked::new();
    while let Some(part) = parts.pop() {
        nodes = before(alloc, part, nodes)?;
    }
    Ok(nodes)
}

/// Takes the first `count` nodes, in order.
pub fn take_nodes(alloc: Global, parts: &mut Vec<Part>, count: usize) -> Result<Linked, NoMemory>
    ensures nodes { IfOk result (λ nodes. nodes_of nodes ≡ linked (take count (pieces parts.old.items)) none) }
    ensures left { OnOk result (pieces parts.new.items ≡ drop count (pieces parts.old.items)) }
{
    let kept = parts.len().saturating_sub(count);
    let mut taken = parts.split_off(kept)?;
    taken.reverse();
    linked(alloc, taken)
}

/// A synth that runs.
fn voice_of(alloc: Global, buffers: &Buffers, member: &Member<'_, Held>) -> Result<Voice, NoMemory>
    requires buffers { All Ends (live_places buffers.now) }
    requires state { All Ends (states_of (member.now.payload.now ∷ [])) }
    ensures { IfOk result (λ voice. voice ≡ voice_of buffers.now member.now.id member.now.payload.now) }
{
    let reach = foot_of_nodes(alloc, buffers, &[member.payload])?;
    Ok(Voice {
        id: member.id,
        reach,
        moves: Moves::new(alloc),
    })
}

/// Whether a parallel group may be split: no two of its members clash.
fn may_split(clashing: &NamedGroups<'_>, id: &i32) -> bool
    ensures { result ≡ may_split clashing.now id.now }
{
    !clashing.has(id)
}

/// Drops the first `count` nodes.
fn drop_nodes(parts: &mut Vec<Part>, count: usize)
    ensures { pieces parts.new.items ≡ drop count (pieces parts.old.items) }
{
    let kept = parts.len().saturating_sub(count);
    parts.truncate(kept);
}

/// A group of the first `count` nodes. Without any it is left out.
fn group_of(
    alloc: Global,
    parts: &mut Vec<Part>,
    count: usize,
    split: bool,
) -> Result<Part, NoMemory>
    ensures part { IfOk result (λ part. piece_of part ≡ group_piece split (linked (take count (pieces parts.old.items)) none)) }
    ensures left { OnOk result (pieces parts.new.items ≡ drop count (pieces parts.old.items)) }
{
    let inner = take_nodes(alloc, parts, count)?;
    if inner.is_none() {
        return Ok(Part::Nothing);
    }
    Ok(Part::Group(split, Box::new(alloc, inner)?))
}

/// A node, which takes those just below it. Only a group that runs puts them together.
fn part_of(
    alloc: Global,
    buffers: &Buffers,
    clashing: &NamedGroups<'_>,
    parts: &mut Vec<Part>,
    member: &Member<'_, Held>,
) -> Result<Part, NoMemory>
    requires buffers { All Ends (live_places buffers.now) }
    requires state { All Ends (states_of (member.now.payload.now ∷ [])) }
    ensures part { IfOk result (λ part. piece_of part ≡ piece buffers.now clashing.now (row_of member.now).0 (linked (take (row_of member.now).1 (pieces parts.old.items)) none)) }
    ensures left { OnOk result (pieces parts.new.items ≡ drop (row_of member.now).1 (pieces parts.old.items)) }
{
    let count = member.children as usize;
    if !member.running {
        drop_nodes(parts, count);
        return Ok(Part::Nothing);
    }
    match member.kind {
        NodeKind::Synth => {
            drop_nodes(parts, count);
            Ok(Part::Synth(voice_of(alloc, buffers, member)?))
        }
        NodeKind::Group => group_of(alloc, parts, count, false),
        NodeKind::Parallel => {
            let split = may_split(clashing, &member.id);
            group_of(alloc, parts, count, split)
        }
    }
}

/// Puts a node, which takes those just below it.
pub fn put_part(
    alloc: Global,
    buffers: &Buffers,
    clashing: &NamedGroups<'_>,
    parts: &mut Vec<Part>,
    member: &Member<'_, Held>,
) -> Result<(), NoMemory>
    requires buffers { All Ends (live_places buffers.now) }
    requires state { All Ends (states_of (member.now.payload.now ∷ [])) }
    ensures { OnOk result (pieces parts.new.items ≡ with_member buffers.now clashing.now (row_of member.now) (pieces parts.old.items)) }
{
    let part = part_of(alloc, buffers, clashing, parts, member)?;
    parts.push(part)?;
    Ok(())
}
