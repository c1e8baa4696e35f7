//! Where the resources that are used lie in the words.
ghost use Rattle.std.specs.Prelude.{◌≡◌, ◌++◌, nat_lt, if◌then◌else◌, Some, None, IfOk, OnOk};
ghost use Rattle.sn_ports.specs.Limits.{audio_bus_count, control_bus_count};
ghost use Rattle.sn_mem.specs.Layout.{audio_place, control_place};
ghost use Rattle.sn_foot.specs.Footprints.{buffer_words, place_of, where_used};
ghost use Rattle.sn_foot.specs.Uses.{is_role, places_of};
ghost use Rattle.sn_foot.specs.declared.resource.Resource.TheVariants as resources;

use crate::resource::Resource;
use crate::uses::{Role, Use};
use sn_mem::{BufferPlace, Buffers, Extent, Places};
use sn_ports::NoMemory;
use sn_ports::limits::{AUDIO_BUS_COUNT, BUFFER_COUNT, CONTROL_BUS_COUNT};
use std::alloc::Global;

fn audio_place(number: u32) -> Option<Extent>
    ensures { result ≡ (if nat_lt number audio_bus_count then Some (audio_place number) else None) }
{
    if number < AUDIO_BUS_COUNT {
        Some(Places::audio(number))
    } else {
        None
    }
}

fn control_place(number: u32) -> Option<Extent>
    ensures { result ≡ (if nat_lt number control_bus_count then Some (control_place number) else None) }
{
    if number < CONTROL_BUS_COUNT {
        Some(Places::control(number))
    } else {
        None
    }
}

fn buffer_words(place: Option<BufferPlace>) -> Option<Extent>
    ensures { result ≡ buffer_words place }
{
    match place {
        Some(place) => Some(place.extent),
        None => None,
    }
}

fn buffer_place(buffers: &Buffers, number: u32) -> Option<Extent>
    ensures { result ≡ place_of buffers.now (resources.Buffer number) }
{
    if number < BUFFER_COUNT {
        buffer_words(buffers.place(number))
    } else {
        None
    }
}

/// Where a resource lies, or `None` if it is not there.
fn place_of(buffers: &Buffers, resource: Resource) -> Option<Extent>
    ensures { result ≡ place_of buffers.now resource }
{
    match resource {
        Resource::Audio(number) => audio_place(number),
        Resource::Control(number) => control_place(number),
        Resource::Buffer(number) => buffer_place(buffers, number),
    }
}

/// Appends the place of a resource, if it is used in this way and is there.
fn put_place(
    places: &mut Vec<Extent>,
    buffers: &Buffers,
    role: Role,
    used: &Use,
) -> Result<(), NoMemory>
    ensures { OnOk result (places.new.items ≡ places.old.items ++ where_used (is_role role used.now.role) (place_of buffers.now used.now.resource)) }
{
    let Some(place) = place_of(buffers, used.resource) else {
        return Ok(());
    };
    if role.is(used.role) {
        places.push(place)?;
    }
    Ok(())
}

/// The places of the resources that are used in this way, as far as they are there.
pub fn used_places(
    alloc: Global,
    buffers: &Buffers,
    role: Role,
    uses: &[Use],
) -> Result<Vec<Extent>, NoMemory>
    ensures { IfOk result (λ places. places.items ≡ places_of buffers.now role uses.now) }
{
    let mut places = Vec::new(alloc);
    for used in uses {
        put_place(&mut places, buffers, role, used)?;
    }
    Ok(places)
}
