//! The first resource on which two clash.
ghost use Rattle.std.specs.Prelude.{◌≡◌, None, Some, if◌then◌else◌, take};
ghost use Rattle.std.specs.List.{filter};
ghost use Rattle.sn_foot.specs.Footprints.{clash_on, is_there, number_of};
ghost use Rattle.sn_clash.specs.Clashing.{resources};
ghost use Rattle.sn_foot.specs.Uses.{footprint_in};
ghost use Rattle.sn_clash.specs.Marking.{listed, comes_before, first_hit, first_of, hits, marked_in, meets, rank};

use crate::marks::{Mark, Marks};
use sn_foot::{Resource, Role, Use};
use sn_mem::Buffers;

/// Whether one of the two writes, or one mixes and the other does more.
fn meets(role: Role, mark: Mark) -> bool
    ensures { result ≡ meets role mark }
{
    match role {
        Role::Read => mark.written || mark.mixed,
        Role::Write => (mark.read || mark.written) || mark.mixed,
        Role::Mix => mark.read || mark.written,
    }
}

/// Whether a use clashes with what is marked.
fn hits(buffers: &Buffers, marks: &Marks, used: &Use) -> bool
    ensures { result ≡ hits (is_there buffers.now) marks.now used.now }
{
    meets(used.role, marks.of(used.resource)) && used.resource.is_there(buffers)
}

fn rank(resource: Resource) -> u32
    ensures { result ≡ rank resource }
{
    match resource {
        Resource::Audio(_) => 0,
        Resource::Control(_) => 1,
        Resource::Buffer(_) => 2,
    }
}

fn number_of(resource: Resource) -> u32
    ensures { result ≡ number_of resource }
{
    match resource {
        Resource::Audio(number) => number,
        Resource::Control(number) => number,
        Resource::Buffer(number) => number,
    }
}

/// The order of resources: audio buses, control buses, and buffers, each by their numbers.
fn comes_before(a: Resource, b: Resource) -> bool
    ensures { result ≡ comes_before a b }
{
    rank(a) < rank(b) || (rank(a) == rank(b) && number_of(a) < number_of(b))
}

fn first_of(least: Option<Resource>, resource: Resource) -> Resource
    ensures { result ≡ first_of least resource }
{
    let Some(least) = least else {
        return resource;
    };
    if comes_before(least, resource) {
        least
    } else {
        resource
    }
}

/// The first resource so far, with one more on which there may be a clash.
fn first_with(least: Option<Resource>, hit: bool, resource: Resource) -> Option<Resource>
    ensures { result ≡ (if hit then Some (first_of least resource) else least) }
{
    if hit {
        Some(first_of(least, resource))
    } else {
        least
    }
}

/// The first resource on which a use clashes with what is marked.
fn first_hit(buffers: &Buffers, marks: &Marks, uses: &[Use]) -> Option<Resource>
    ensures { result ≡ first_hit (is_there buffers.now) marks.now uses.now None }
{
    let mut least = None;
    for used in uses {
        let hit = hits(buffers, marks, used);
        least = first_with(least, hit, used.resource);
    }
    least
}

/// The first resource on which two clash, of which one is marked: audio buses, control buses, and buffers, each by
/// their numbers.
pub fn first_shared(buffers: &Buffers, marks: &Marks, uses: &[Use]) -> Option<Resource>
    ensures { listed result ≡ take 1 (filter (clash_on (marked_in (is_there buffers.now) marks.now) (footprint_in (is_there buffers.now) uses.now)) resources) }
{
    first_hit(buffers, marks, uses)
}
