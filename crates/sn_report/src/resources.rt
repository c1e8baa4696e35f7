//! The resources that a node uses, in their order.
ghost use Rattle.std.specs.Prelude.{◌≡◌, ◌++◌, ◌∷◌, ◌&&◌, [], IfOk, OnOk};
ghost use Rattle.std.specs.List.{filter};
ghost use Rattle.sn_mem.specs.Blocks.{table};
ghost use Rattle.sn_foot.specs.Footprints.{is_there};
ghost use Rattle.sn_foot.specs.Putting.{resource};
ghost use Rattle.sn_foot.specs.Uses.{footprint_in, is_role, is_same, uses_in};
ghost use Rattle.sn_clash.specs.Clashing.{resources};
ghost use Rattle.sn_report.specs.Visits.{used_so};

use sn_def::Bank;
use sn_foot::{Resource, Role, Use};
use sn_mem::Buffers;
use sn_ports::NoMemory;
use sn_ports::limits::{AUDIO_BUS_COUNT, BUFFER_COUNT, CONTROL_BUS_COUNT};
use std::alloc::Global;

fn is_same(a: Resource, b: Resource) -> bool
    ensures { result ≡ is_same a b }
{
    match (a, b) {
        (Resource::Audio(m), Resource::Audio(n)) => m == n,
        (Resource::Control(m), Resource::Control(n)) => m == n,
        (Resource::Buffer(m), Resource::Buffer(n)) => m == n,
        _ => false,
    }
}

/// Whether it is a use of a resource in this way.
fn is_use(used: &Use, role: Role, resource: Resource) -> bool
    ensures { result ≡ (is_role role used.now.role && is_same used.now.resource resource) }
{
    role.is(used.role) && is_same(used.resource, resource)
}

/// Whether some of them use a resource in this way.
fn uses_in(uses: &[Use], role: Role, resource: Resource) -> bool
    ensures { result ≡ uses_in role uses.now resource }
{
    uses.iter().any(|used| is_use(used, role, resource))
}

/// Whether a resource is there, and is used in this way.
#[tactic(auto, using(crate::proofs::Used::used_is))]
fn is_used(buffers: &Buffers, uses: &[Use], role: Role, resource: Resource) -> bool
    ensures { result ≡ used_so role (footprint_in (is_there buffers.now) uses.now) resource }
{
    resource.is_there(buffers) && uses_in(uses, role, resource)
}

/// Appends a resource, if it is there and used in this way.
fn push_used(
    used: &mut Vec<Resource>,
    buffers: &Buffers,
    uses: &[Use],
    role: Role,
    resource: Resource,
) -> Result<(), NoMemory>
    ensures { OnOk result (used.new.items ≡ used.old.items ++ filter (used_so role (footprint_in (is_there buffers.now) uses.now)) (resource ∷ [])) }
{
    if is_used(buffers, uses, role, resource) {
        used.push(resource)?;
    }
    Ok(())
}

/// Appends those of a bank's first resources that are there and used in this way.
fn push_bank(
    used: &mut Vec<Resource>,
    buffers: &Buffers,
    uses: &[Use],
    role: Role,
    bank: Bank,
    count: u32,
) -> Result<(), NoMemory>
    ensures { OnOk result (used.new.items ≡ used.old.items ++ filter (used_so role (footprint_in (is_there buffers.now) uses.now)) (table (λ n. resource bank n) count)) }
{
    for number in 0..count {
        push_used(used, buffers, uses, role, Resource::of(bank, number))?;
    }
    Ok(())
}

/// The resources that are there and are used in this way: audio buses, control buses, and buffers, each by their
/// numbers.
pub fn used_resources(
    alloc: Global,
    buffers: &Buffers,
    uses: &[Use],
    role: Role,
) -> Result<Vec<Resource>, NoMemory>
    ensures { IfOk result (λ used. used.items ≡ filter (used_so role (footprint_in (is_there buffers.now) uses.now)) resources) }
{
    let mut used = Vec::new(alloc);
    push_bank(&mut used, buffers, uses, role, Bank::Audio, AUDIO_BUS_COUNT)?;
    push_bank(
        &mut used,
        buffers,
        uses,
        role,
        Bank::Control,
        CONTROL_BUS_COUNT,
    )?;
    push_bank(&mut used, buffers, uses, role, Bank::Buffer, BUFFER_COUNT)?;
    Ok(used)
}
