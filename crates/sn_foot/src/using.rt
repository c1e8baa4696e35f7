//! What nodes use by themselves.
ghost use Rattle.std.specs.Prelude.{◌≡◌, ◌<◌, ◌+ℤ◌, ◌^◌, ◌++◌, [], pos, map, IfOk, OnOk};
ghost use Rattle.sn_foot.specs.declared.uses.Role.TheVariants.{Read};
ghost use Rattle.sn_def.specs.declared.table.Bank.TheVariants.{Control};
ghost use Rattle.sn_def.specs.Units.{row_of};
ghost use Rattle.sn_foot.specs.Mixers.{mixes_audio};
ghost use Rattle.sn_foot.specs.Judging.{is_alone, judged};
ghost use Rattle.sn_foot.specs.Putting.{number_at, put_controls, put_held, put_nodes, put_number, put_span, put_units, put_used, role_in};
ghost use Rattle.sn_foot.specs.Uses.{PutsUses};

use crate::judging::judge;
use crate::mixers::mixes_audio;
use crate::resource::Resource;
use crate::units::{index_of, span};
use crate::uses::{Role, Use};
use sn_def::{Access, Bank, Control as SynthControl, Unit, row_of};
use sn_ports::NoMemory;
use sn_ports::limits::CONTROL_BUS_COUNT;
use sn_world::Held;
use std::alloc::Global;

/// How a unit uses what its row says. It adds to what audio buses hold, or it doesn't.
fn role_in(adds: bool, access: Access, bank: Bank) -> Role
    ensures { result ≡ role_in adds access bank }
{
    match (access, bank) {
        (Access::Read, _) => Role::Read,
        (Access::Write, Bank::Audio) => { if adds { Role::Mix } else { Role::Write } }
        (Access::Write, Bank::Control) => Role::Write,
        (Access::Write, Bank::Buffer) => Role::Write,
    }
}

/// No control bus and no buffer has this number or a higher one, and no audio bus.
const END: i64 = CONTROL_BUS_COUNT as i64;

/// A number, if a bus or a buffer may have it.
fn number_at(first: i32, more: usize) -> Option<u32>
    requires { more < 2 ^ 61 }
    ensures { result ≡ number_at (first +ℤ pos more) }
{
    let number = first as i64 + more as i64;
    if number >= 0 && number < END {
        Some(number as u32)
    } else {
        None
    }
}

/// Appends a use, if there is a number.
fn push_number(
    uses: &mut Vec<Use>,
    role: Role,
    bank: Bank,
    number: Option<u32>,
) -> Result<(), NoMemory>
    ensures { OnOk result (uses.new.items ≡ put_number role bank number uses.old.items) }
{
    let Some(number) = number else {
        return Ok(());
    };
    uses.push(Use {
        role,
        resource: Resource::of(bank, number),
    })?;
    Ok(())
}

/// Appends the uses of `count` numbers from `first` on.
#[tactic(auto, using(crate::proofs::Putting::span_next, crate::proofs::Putting::span_none))]
fn push_span(
    uses: &mut Vec<Use>,
    role: Role,
    bank: Bank,
    first: i32,
    count: usize,
) -> Result<(), NoMemory>
    requires { count < 2 ^ 61 }
    ensures { OnOk result (uses.new.items ≡ put_span role bank first count uses.old.items) }
{
    for more in 0..count {
        push_number(uses, role, bank, number_at(first, more))?;
    }
    Ok(())
}

/// Appends what a unit uses, as the row of its kind says.
fn push_unit(uses: &mut Vec<Use>, controls: &[SynthControl], unit: &Unit) -> Result<(), NoMemory>
    ensures { OnOk result (uses.new.items ≡ put_used (mixes_audio unit.now.kind) (row_of unit.now.kind).uses controls.now unit.now uses.old.items) }
{
    match row_of(unit.kind).uses {
        Some(used) => push_span(
            uses,
            role_in(mixes_audio(unit.kind), used.access, used.bank),
            used.bank,
            index_of(controls, unit),
            span(used.access, used.bank, unit),
        ),
        None => Ok(()),
    }
}

/// Appends what units use.
fn push_units(
    uses: &mut Vec<Use>,
    controls: &[SynthControl],
    units: &[Unit],
) -> Result<(), NoMemory>
    ensures { OnOk result (uses.new.items ≡ put_units controls.now units.now uses.old.items) }
{
    for unit in units {
        push_unit(uses, controls, unit)?;
    }
    Ok(())
}

/// Appends what controls read: the control buses that they follow.
fn push_controls(uses: &mut Vec<Use>, controls: &[SynthControl]) -> Result<(), NoMemory>
    ensures { OnOk result (uses.new.items ≡ put_controls controls.now uses.old.items) }
{
    for control in controls {
        push_number(uses, Role::Read, Bank::Control, control.bus)?;
    }
    Ok(())
}

/// Appends what a synth uses.
fn push_synth(
    alloc: Global,
    uses: &mut Vec<Use>,
    controls: &[SynthControl],
    units: &[Unit],
) -> Result<(), NoMemory>
    ensures { let own = put_units controls.now units.now (put_controls controls.now []) in OnOk result (uses.new.items ≡ uses.old.items ++ judged (is_alone own) own) }
{
    let first = uses.len();
    push_controls(uses, controls)?;
    push_units(uses, controls, units)?;
    judge(alloc, uses, first)
}

/// Appends what a node uses by itself, as the rows of its units say.
fn push_node(alloc: Global, uses: &mut Vec<Use>, held: &Held) -> Result<(), NoMemory>
    ensures { OnOk result (uses.new.items ≡ put_held held.now uses.old.items) }
{
    match held {
        Held::Group => Ok(()),
        Held::Synth { def, controls, .. } => {
            push_synth(alloc, uses, controls.as_slice(), def.units.as_slice())
        }
    }
}

/// Appends what a node uses by itself. A bus or buffer below 1,024 is then used if it was before, or by the node.
pub fn push_held(alloc: Global, uses: &mut Vec<Use>, held: &Held) -> Result<(), NoMemory>
    ensures { OnOk result (PutsUses held.now uses.old.items uses.new.items) }
{
    push_node(alloc, uses, held)
}

/// Appends what nodes use.
fn push_nodes(alloc: Global, uses: &mut Vec<Use>, nodes: &[&Held]) -> Result<(), NoMemory>
    ensures { OnOk result (uses.new.items ≡ put_nodes (map (λ h. h.now) nodes.now) uses.old.items) }
{
    for held in nodes {
        push_node(alloc, uses, held)?;
    }
    Ok(())
}

/// What nodes use.
pub fn uses_of(alloc: Global, nodes: &[&Held]) -> Result<Vec<Use>, NoMemory>
    ensures { IfOk result (λ uses. uses.items ≡ put_nodes (map (λ h. h.now) nodes.now) []) }
{
    let mut uses = Vec::new(alloc);
    push_nodes(alloc, &mut uses, nodes)?;
    Ok(uses)
}
