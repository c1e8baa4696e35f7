//! The first two members of a group that clash.
ghost use Rattle.std.specs.Prelude.{◌≡◌, ◌≤◌, ◌<◌, ◌+◌, ◌^◌, length, take, if◌then◌else◌, IfOk};
ghost use Rattle.std.specs.List.{list_any};
ghost use Rattle.sn_foot.specs.Footprints.{clash_on, is_there};
ghost use Rattle.sn_clash.specs.Clashing.{clashes_among, clashes_with, resources};
ghost use Rattle.sn_foot.specs.Uses.{footprint_in};
ghost use Rattle.sn_clash.specs.Marking.{listed, marked_in};
ghost use Rattle.sn_clash.specs.Passing.{from_first, member_of, members_of};

use crate::clash::Clash;
use crate::marks::Marks;
use crate::sharing::first_shared;
use crate::subtree::Subtree;
use sn_foot::{Resource, Use};
use sn_mem::Buffers;
use sn_ports::NoMemory;
use std::alloc::Global;

/// Whether two clash, of which one is marked.
#[tactic(auto, using(crate::proofs::Members::any_first))]
fn clash(buffers: &Buffers, marks: &Marks, uses: &[Use]) -> bool
    ensures { result ≡ list_any (clash_on (marked_in (is_there buffers.now) marks.now) (footprint_in (is_there buffers.now) uses.now)) resources }
{
    first_shared(buffers, marks, uses).is_some()
}

/// How many members there are up to this one, if it is the chosen one; else as many as before.
fn chosen(clash: bool, index: usize, before: usize) -> usize
    requires { index < 2 ^ 63 }
    ensures { result ≡ (if clash then index + 1 else before) }
{
    if clash { index + 1 } else { before }
}

/// The first member that clashes with a later one: how many there are up to it, from the last on, or 0 if there is
/// none.
fn first_member(alloc: Global, buffers: &Buffers, members: &[Subtree]) -> Result<usize, NoMemory>
    ensures within { IfOk result (λ n. n ≤ length members.now) }
    ensures first { IfOk result (λ n. members_of (is_there buffers.now) (take n members.now) ≡ from_first (members_of (is_there buffers.now) members.now)) }
{
    let mut later = Marks::new(alloc)?;
    let mut first = 0;
    for index in 0..members.len() {
        let member = &members[index];
        let clashes = clash(buffers, &later, &member.uses);
        first = chosen(clashes, index, first);
        later.mark_all(&member.uses);
    }
    Ok(first)
}

/// A clash of two members.
fn clash_between(group: i32, first: &Subtree, second: &Subtree, resource: Resource) -> Clash
    ensures { result ≡ record { group = group; first = first.now.id; second = second.now.id; resource = resource } }
{
    Clash {
        group,
        first: first.id,
        second: second.id,
        resource,
    }
}

/// The first clash of a member with those after it.
fn first_with(
    alloc: Global,
    buffers: &Buffers,
    group: i32,
    first: &Subtree,
    later: &[Subtree],
) -> Result<Option<Clash>, NoMemory>
    ensures { IfOk result (λ found. listed found ≡ take 1 (clashes_with group (member_of (is_there buffers.now) first.now) (members_of (is_there buffers.now) later.now))) }
{
    let marks = Marks::of_uses(alloc, &first.uses)?;
    for back in 0..later.len() {
        let second = &later[later.len() - 1 - back];
        let shared = first_shared(buffers, &marks, &second.uses);
        if let Some(resource) = shared {
            return Ok(Some(clash_between(group, first, second, resource)));
        }
    }
    Ok(None)
}

/// The first clash of the members of a group, which stand from the last to the first.
#[tactic(auto, using(crate::proofs::Members::few_members))]
pub fn first_clash(
    alloc: Global,
    buffers: &Buffers,
    group: i32,
    members: &[Subtree],
) -> Result<Option<Clash>, NoMemory>
    ensures { IfOk result (λ found. listed found ≡ take 1 (clashes_among group (members_of (is_there buffers.now) members.now))) }
{
    if members.len() < 2 {
        return Ok(None);
    }
    let count = first_member(alloc, buffers, members)?;
    if count == 0 {
        return Ok(None);
    }
    let first = &members[count - 1];
    let later = &members[..count - 1];
    first_with(alloc, buffers, group, first, later)
}
