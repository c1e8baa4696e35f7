//! Clashes of members of parallel groups, of which every client is told.
ghost use Rattle.std.specs.Prelude.{◌≡◌, ◌∷◌, ◌++◌, ◌<◌, ◌^◌, [], true, pos, ℕ, List, IfOk, OnOk, length};
ghost use Rattle.std.specs.List.{All};
ghost use Rattle.sn_ports.specs.Limits.{control_bus_count};
ghost use Rattle.sn_osc.specs.Bytes.{has_no_null};
ghost use Rattle.sn_osc.specs.Shape.{int, string, message_of};
ghost use Rattle.sn_reply.specs.Sending.{IsSendable};
ghost use Rattle.sn_world.specs.World.{world_of};
ghost use Rattle.sn_clash.specs.Clashing.{clashes_of};
ghost use Rattle.sn_foot.specs.Footprints.{number_of};
ghost use Rattle.sn_engine.specs.Holding.{AreClashesOf};
ghost use Rattle.sn_engine.specs.Clashing.{IsSmall, resource_arguments, clash_message, told_clash, told_clashes};

use crate::before::Before;
use sn_clash::{Clash, Clashes, clashes};
use sn_foot::Resource;
use sn_osc::Message;
use sn_ports::NoMemory;
use sn_reply::{Answer, Replies, To};
use sn_world::Stage;
use std::alloc::Global;

fn push_named(answer: &mut Answer, name: &[u8], number: u32) -> Result<(), NoMemory>
    requires clean { has_no_null name.now ≡ true }
    requires short { length name.now < 60 }
    requires small { number < 2 ^ 31 }
    ensures { OnOk result (answer.new ≡ answer.old ++ string name.now ∷ int (pos number) ∷ []) }
{
    answer.push_name(name)?;
    answer.push_int(number as i32)
}

/// The sort and the number of a resource.
fn push_resource(answer: &mut Answer, resource: &Resource) -> Result<(), NoMemory>
    requires small { number_of resource.now < control_bus_count }
    ensures { OnOk result (answer.new ≡ answer.old ++ resource_arguments resource.now) }
{
    match resource {
        Resource::Audio(number) => push_named(answer, b"audio", *number),
        Resource::Control(number) => push_named(answer, b"control", *number),
        Resource::Buffer(number) => push_named(answer, b"buffer", *number),
    }
}

/// `/p_clash` group first second sort number
fn clash_message(alloc: Global, clash: &Clash) -> Result<Message, NoMemory>
    requires small { IsSmall clash.now }
    ensures message { IfOk result (λ m. message_of m ≡ clash_message clash.now) }
    ensures sendable { IfOk result (λ m. IsSendable (message_of m)) }
{
    let mut answer = Answer::new(alloc);
    answer.push_int(clash.group)?;
    answer.push_int(clash.first)?;
    answer.push_int(clash.second)?;
    push_resource(&mut answer, &clash.resource)?;
    answer.into_message(b"/p_clash")
}

/// Tells every client of a clash, unless it was there before.
fn tell_clash(
    alloc: Global,
    before: &Before<'_>,
    clash: &Clash,
    said: &mut Replies,
) -> Result<(), NoMemory>
    requires small { IsSmall clash.now }
    ensures { OnOk result (said.new ≡ said.old ++ told_clash before.now clash.now) }
{
    if before.has(clash) {
        return Ok(());
    }
    let message = clash_message(alloc, clash)?;
    said.push(To::All, message)?;
    Ok(())
}

fn tell_each(
    alloc: Global,
    before: &Before<'_>,
    found: &[Clash],
    said: &mut Replies,
) -> Result<(), NoMemory>
    requires small { All IsSmall found.now }
    ensures { OnOk result (said.new ≡ said.old ++ told_clashes before.now found.now) }
{
    for clash in found {
        tell_clash(alloc, before, clash, said)?;
    }
    Ok(())
}

fn tell_clashes(
    alloc: Global,
    before: &[Clash],
    found: &[Clash],
    said: &mut Replies,
) -> Result<(), NoMemory>
    requires small { All IsSmall found.now }
    ensures { OnOk result (said.new ≡ said.old ++ told_clashes before.now found.now) }
{
    let before = Before::new(alloc, before)?;
    tell_each(alloc, &before, found, said)
}

/// Takes the clashes of a stage in place of those of the boundary before, and tells every client of those that were not
/// there then.
pub fn take_clashes(
    alloc: Global,
    stage: &Stage,
    held: &mut Clashes,
    said: &mut Replies,
) -> Result<(), NoMemory>
    ensures held { OnOk result (AreClashesOf stage.now held.new) }
    ensures told { OnOk result ((words : List ℕ) → said.new ≡ said.old ++ told_clashes held.old (clashes_of (world_of stage.now words))) }
{
    let found = clashes(alloc, stage)?;
    tell_clashes(alloc, held.as_slice(), found.as_slice(), said)?;
    *held = found;
    Ok(())
}
