//! The pass over a group and all nodes below it.
ghost use Rattle.std.specs.Prelude.{◌≡◌, ◌++◌, Bool, List, Option, map, take, drop, if◌then◌else◌, IfOk, OnOk};
ghost use Rattle.sn_mem.specs.declared.buffers.BufferPlace as buffer;
ghost use Rattle.sn_foot.specs.declared.resource.Resource as resource;
ghost use Rattle.sn_foot.specs.Footprints.{is_there};
ghost use Rattle.sn_clash.specs.Clashing.{clashes_among, is_parallel};
ghost use Rattle.sn_foot.specs.Uses.{footprint_in};
ghost use Rattle.sn_clash.specs.Passing.{base_of, found_at, gathered, members_of, no_use, nothing, pass, pass_one, passed_of, slot_of, used_by};
ghost use Rattle.sn_clash.specs.Rows.{label_in, row_of};

use crate::clash::Clash;
use crate::gathering::gather;
use crate::pairs::first_clash;
use crate::subtree::Subtree;
use sn_foot::{Use, push_held};
use sn_mem::Buffers;
use sn_ports::NoMemory;
use sn_tree::{Member, NodeKind};
use sn_world::Held;
use std::alloc::Global;

/// Whether a node is a parallel group.
pub fn is_parallel(kind: NodeKind) -> bool
    ensures { result ≡ is_parallel kind }
{
    match kind {
        NodeKind::Synth | NodeKind::Group => false,
        NodeKind::Parallel => true,
    }
}

/// How many clashes there were before these nodes, or `found` if there are no nodes.
fn base_of(nodes: &[Subtree], found: usize) -> usize
    ensures { (there : resource.Resource → Bool) → result ≡ base_of (map (slot_of there) nodes.now) found }
{
    match nodes.first() {
        Some(node) => node.base,
        None => found,
    }
}

/// What a node uses by itself.
pub fn used_by(alloc: Global, held: &Held) -> Result<Vec<Use>, NoMemory>
    ensures { IfOk result (λ u. (buffers : List (Option buffer.BufferPlace)) → footprint_in (is_there buffers) u.items ≡ used_by (is_there buffers) held.now) }
{
    let mut uses = Vec::new(alloc);
    push_held(alloc, &mut uses, held)?;
    Ok(uses)
}

/// What a node uses with all below it: the nodes after the first `kept`, which are removed.
fn uses_at(
    alloc: Global,
    running: bool,
    held: &Held,
    passed: &mut Vec<Subtree>,
    kept: usize,
) -> Result<Vec<Use>, NoMemory>
    ensures uses { IfOk result (λ u. (buffers : List (Option buffer.BufferPlace)) → footprint_in (is_there buffers) u.items ≡ (if running then gathered (used_by (is_there buffers) held.now) (members_of (is_there buffers) (drop kept passed.old.items)) else no_use)) }
    ensures left { OnOk result (passed.new.items ≡ take kept passed.old.items) }
{
    if !running {
        passed.truncate(kept);
        return Ok(Vec::new(alloc));
    }
    let uses = used_by(alloc, held)?;
    gather(alloc, uses, passed, kept)
}

/// Appends the first clash of the members of a group, if there is one.
fn push_first(
    alloc: Global,
    buffers: &Buffers,
    group: i32,
    members: &[Subtree],
    found: &mut Vec<Clash>,
) -> Result<(), NoMemory>
    ensures { OnOk result (found.new.items ≡ found.old.items ++ take 1 (clashes_among group (members_of (is_there buffers.now) members.now))) }
{
    let first = first_clash(alloc, buffers, group, members)?;
    if let Some(clash) = first {
        found.push(clash)?;
    }
    Ok(())
}

/// The clashes after a node is passed.
fn report(
    alloc: Global,
    buffers: &Buffers,
    node: &Member<'_, Held>,
    below: &[Subtree],
    base: usize,
    found: &mut Vec<Clash>,
) -> Result<(), NoMemory>
    ensures { OnOk result (found.new.items ≡ found_at (is_there buffers.now) (label_in node.now) (members_of (is_there buffers.now) below.now) base found.old.items) }
{
    if !node.running {
        found.truncate(base);
        return Ok(());
    }
    if is_parallel(node.kind) {
        return push_first(alloc, buffers, node.id, below, found);
    }
    Ok(())
}

fn subtree(node: &Member<'_, Held>, uses: Vec<Use>, base: usize) -> Subtree
    ensures { result ≡ record { id = node.now.id; uses = uses; base = base } }
{
    Subtree {
        id: node.id,
        uses,
        base,
    }
}

/// Passes a node, with those just below it at the end of those that were passed.
fn pass_one(
    alloc: Global,
    buffers: &Buffers,
    node: &Member<'_, Held>,
    passed: &mut Vec<Subtree>,
    found: &mut Vec<Clash>,
) -> Result<(), NoMemory>
    ensures { OnOk result (passed_of (is_there buffers.now) passed.new.items found.new.items ≡ pass_one (is_there buffers.now) (row_of node.now) (passed_of (is_there buffers.now) passed.old.items found.old.items)) }
{
    let kept = passed.len().saturating_sub(node.children as usize);
    let below = &passed[kept..];
    let base = base_of(below, found.len());
    report(alloc, buffers, node, below, base, found)?;
    let uses = uses_at(alloc, node.running, node.payload, passed, kept)?;
    passed.push(subtree(node, uses, base))?;
    Ok(())
}

/// Passes all nodes, from the last to the first, and answers the clashes in that order.
pub fn pass(
    alloc: Global,
    buffers: &Buffers,
    nodes: &[Member<'_, Held>],
) -> Result<Vec<Clash>, NoMemory>
    ensures { IfOk result (λ found. found.items ≡ (pass (is_there buffers.now) (map row_of nodes.now) nothing).found) }
{
    let mut passed = Vec::new(alloc);
    let mut found = Vec::new(alloc);
    for back in 0..nodes.len() {
        let node = &nodes[nodes.len() - 1 - back];
        pass_one(alloc, buffers, node, &mut passed, &mut found)?;
    }
    Ok(found)
}
