//! Lines of a report, written.
ghost use Rattle.std.specs.Prelude.{◌≡◌, ◌<◌, ◌^◌, ◌+◌, ◌++◌, map, if◌then◌else◌, IfOk, OnOk};
ghost use Rattle.sn_tree.specs.Trees.{running_labels};
ghost use Rattle.std.specs.List.{filter};
ghost use Rattle.sn_world.specs.Pictures.{units_of};
ghost use Rattle.sn_foot.specs.Footprints.{is_there};
ghost use Rattle.sn_foot.specs.Uses.{footprint_in};
ghost use Rattle.sn_clash.specs.Clashing.{resources};
ghost use Rattle.sn_report.specs.Reports.{chain_line, foot_line, head_line, held_sight, is_seen, node_line, node_lines, resource_list, seen_units, synths_among, units_among};
ghost use Rattle.sn_report.specs.Visits.{label_in, sight_in};

use crate::resources::used_resources;
use crate::words::{put_chain, put_int, put_natural, put_resources};
use sn_clash::used_by;
use sn_foot::{Role, Use};
use sn_mem::Buffers;
use sn_ports::{NoMemory, Text};
use sn_tree::{Tree, Visit};
use sn_world::Held;
use std::alloc::Global;

/// The nodes that run, in the order of the walk.
pub fn running<'a>(alloc: Global, tree: &'a Tree<Held>) -> Result<Vec<Visit<'a, Held>>, NoMemory>
    ensures { IfOk result (λ visits. map label_in visits.items ≡ running_labels tree.now.attached) }
{
    let mut visits = Vec::new(alloc);
    for visit in tree.walk() {
        visits.push(visit)?;
    }
    Ok(visits)
}

/// One more, if a node holds a synth.
#[tactic(auto, using(crate::proofs::Used::seen_is))]
fn counted(count: usize, held: &Held) -> usize
    requires { count < 2 ^ 63 }
    ensures { result ≡ count + (if is_seen (held_sight held.now) then 1 else 0) }
{
    if held.is_synth() { count + 1 } else { count }
}

/// How many of the nodes are synths.
pub fn synths_among(visits: &[Visit<'_, Held>]) -> usize
    ensures { result ≡ synths_among (map sight_in visits.now) }
{
    let mut count = 0;
    for visit in visits {
        count = counted(count, visit.payload);
    }
    count
}

/// How many units are told of a node.
#[tactic(auto, using(crate::proofs::Used::seen_units_is))]
fn seen_units(held: &Held) -> u64
    ensures { result ≡ seen_units (held_sight held.now) }
{
    held.units() as u64
}

/// How many units they have together.
pub fn units_among(visits: &[Visit<'_, Held>]) -> Result<u64, NoMemory>
    ensures { IfOk result (λ units. units ≡ units_among (map sight_in visits.now)) }
{
    let mut units = 0u64;
    for visit in visits {
        let Some(sum) = units.checked_add(seen_units(visit.payload)) else {
            return Err(NoMemory);
        };
        units = sum;
    }
    Ok(units)
}

/// The first line: how many synths and units run, and what the longest chain costs.
pub fn put_head(out: &mut Text, synths: u64, units: u64, cost: u64) -> Result<(), NoMemory>
    ensures { OnOk result (out.new.bytes ≡ out.old.bytes ++ head_line synths units cost) }
{
    out.append(b"synths ")?;
    put_natural(out, synths)?;
    out.append(b" units ")?;
    put_natural(out, units)?;
    out.append(b" cost ")?;
    put_natural(out, cost)?;
    out.append(b"\n")
}

/// The resources that a node reads.
fn put_reads(alloc: Global, out: &mut Text, buffers: &Buffers, uses: &[Use]) -> Result<(), NoMemory>
    ensures { OnOk result (out.new.bytes ≡ out.old.bytes ++ resource_list (filter (footprint_in (is_there buffers.now) uses.now).reads resources)) }
{
    let used = used_resources(alloc, buffers, uses, Role::Read)?;
    put_resources(out, &used)
}

/// The resources that a node writes.
fn put_writes(
    alloc: Global,
    out: &mut Text,
    buffers: &Buffers,
    uses: &[Use],
) -> Result<(), NoMemory>
    ensures { OnOk result (out.new.bytes ≡ out.old.bytes ++ resource_list (filter (footprint_in (is_there buffers.now) uses.now).writes resources)) }
{
    let used = used_resources(alloc, buffers, uses, Role::Write)?;
    put_resources(out, &used)
}

/// The audio buses that a node mixes.
fn put_mixes(alloc: Global, out: &mut Text, buffers: &Buffers, uses: &[Use]) -> Result<(), NoMemory>
    ensures { OnOk result (out.new.bytes ≡ out.old.bytes ++ resource_list (filter (footprint_in (is_there buffers.now) uses.now).mixes resources)) }
{
    let used = used_resources(alloc, buffers, uses, Role::Mix)?;
    put_resources(out, &used)
}

/// The line of a synth with these uses.
fn put_synth(
    alloc: Global,
    out: &mut Text,
    buffers: &Buffers,
    visit: &Visit<'_, Held>,
    uses: &[Use],
) -> Result<(), NoMemory>
    ensures { OnOk result (out.new.bytes ≡ out.old.bytes ++ foot_line visit.now.id (units_of visit.now.payload.now) (footprint_in (is_there buffers.now) uses.now)) }
{
    out.append(b"node ")?;
    put_int(out, visit.id)?;
    out.append(b" units ")?;
    put_natural(out, visit.payload.units() as u64)?;
    out.append(b" reads ")?;
    put_reads(alloc, out, buffers, uses)?;
    out.append(b" writes ")?;
    put_writes(alloc, out, buffers, uses)?;
    out.append(b" mixes ")?;
    put_mixes(alloc, out, buffers, uses)?;
    out.append(b"\n")
}

/// The line of a node, none of a group.
fn put_node(
    alloc: Global,
    out: &mut Text,
    buffers: &Buffers,
    visit: &Visit<'_, Held>,
) -> Result<(), NoMemory>
    ensures { OnOk result (out.new.bytes ≡ out.old.bytes ++ node_line (is_there buffers.now) visit.now.id (held_sight visit.now.payload.now)) }
{
    if !visit.payload.is_synth() {
        return Ok(());
    }
    let uses = used_by(alloc, visit.payload)?;
    put_synth(alloc, out, buffers, visit, &uses)
}

/// The lines of nodes.
pub fn put_nodes(
    alloc: Global,
    out: &mut Text,
    buffers: &Buffers,
    visits: &[Visit<'_, Held>],
) -> Result<(), NoMemory>
    ensures { OnOk result (out.new.bytes ≡ out.old.bytes ++ node_lines (is_there buffers.now) (map sight_in visits.now)) }
{
    for visit in visits {
        put_node(alloc, out, buffers, visit)?;
    }
    Ok(())
}

/// The last line: the ids of the synths of the longest chain.
pub fn put_chain_line(out: &mut Text, ids: &[i32]) -> Result<(), NoMemory>
    ensures { OnOk result (out.new.bytes ≡ out.old.bytes ++ chain_line ids.now) }
{
    out.append(b"chain")?;
    put_chain(out, ids)?;
    out.append(b"\n")
}
