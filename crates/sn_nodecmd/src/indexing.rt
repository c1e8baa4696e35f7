//! Index controls among the controls of mappings.
ghost use Rattle.std.specs.Prelude.{◌≡◌, map, zip};
ghost use Rattle.std.specs.List.{list_any};
ghost use Rattle.sn_def.specs.Defs.{definition_of};
ghost use Rattle.sn_tree.specs.Trees.{subtree};
ghost use Rattle.sn_world.specs.NewSynth.{control_of};
ghost use Rattle.sn_world.specs.Mappings.{is_index_of, any_node};
ghost use Rattle.sn_nodecmd.specs.Runs.{name_of, run_of};
ghost use Rattle.sn_nodecmd.specs.Mapped.{mapping_of, run_for};
ghost use Rattle.sn_nodecmd.specs.Indexing.{reaches, input_taken, unit_takes, definition_takes, held_takes};

use crate::mappings::Mapping;
use crate::names::{NamedControl, number_of};
use crate::resolved::Resolved;
use sn_def::{Def, Input, Mark, Unit, row_of};
use sn_tree::Tree;
use sn_world::Held;

/// Whether a control is given a number.
fn reaches(last: &[Option<i32>], control: u32) -> bool
    ensures { result ≡ reaches last.now control }
{
    let number = last.get(control as usize).copied().unwrap_or(None);
    number.is_some()
}

/// Whether an input is an index control that is given a number.
fn input_taken(last: &[Option<i32>], mark: Mark, input: Input) -> bool
    ensures { result ≡ input_taken last.now mark input }
{
    match mark {
        Mark::Index => match input {
            Input::Control(control) => reaches(last, control),
            _ => false,
        },
        _ => false,
    }
}

fn any_taken(last: &[Option<i32>], marks: &[Mark], inputs: &[Input]) -> bool
    ensures { result ≡ list_any (λ p. input_taken last.now p.0 p.1) (zip marks.now inputs.now) }
{
    marks
        .iter()
        .zip(inputs.iter())
        .any(|(mark, input)| input_taken(last, *mark, *input))
}

fn unit_takes(last: &[Option<i32>], unit: &Unit) -> bool
    ensures { result ≡ unit_takes last.now unit.now }
{
    any_taken(last, row_of(unit.kind).inputs, unit.inputs.as_slice())
}

/// Whether an index control of these units is given a number.
fn any_takes(last: &[Option<i32>], units: &[Unit]) -> bool
    ensures { result ≡ list_any (unit_takes last.now) units.now }
{
    units.iter().any(|unit| unit_takes(last, unit))
}

/// Whether it is an index control of a definition.
fn is_index_of(def: &Def, control: NamedControl<'_>) -> bool
    ensures { result ≡ is_index_of (definition_of def.now) (control_of (definition_of def.now) (name_of control.entry)) }
{
    match number_of(def, control) {
        Some(number) => def.is_index(number),
        None => false,
    }
}

fn any_is_index(def: &Def, mappings: &[Mapping<'_>]) -> bool
    ensures { result ≡ list_any (λ m. is_index_of (definition_of def.now) (control_of (definition_of def.now) (name_of m.control))) mappings.now }
{
    mappings
        .iter()
        .any(|mapping| is_index_of(def, mapping.control))
}

/// Whether any of the mappings is of an index control of a definition.
fn definition_takes(def: &Def, mappings: &[Mapping<'_>], resolved: &Resolved<'_>) -> bool
    requires alike { map run_of resolved.now.runs.now ≡ map run_for (map mapping_of mappings.now) }
    ensures { result ≡ definition_takes (map mapping_of mappings.now) (definition_of def.now) }
{
    match resolved.last_for(def, 0) {
        Some(last) => any_takes(last, def.units.as_slice()),
        None => any_is_index(def, mappings),
    }
}

fn held_takes(held: &Held, mappings: &[Mapping<'_>], resolved: &Resolved<'_>) -> bool
    requires alike { map run_of resolved.now.runs.now ≡ map run_for (map mapping_of mappings.now) }
    ensures { result ≡ held_takes (map mapping_of mappings.now) held.now }
{
    match held {
        Held::Group => false,
        Held::Synth { def, .. } => definition_takes(def, mappings, resolved),
    }
}

/// Whether any of the mappings is of an index control of a synth, which is a node or below it.
pub fn take_index_below(
    tree: &Tree<Held>,
    id: i32,
    mappings: &[Mapping<'_>],
    resolved: &Resolved<'_>,
) -> bool
    requires alike { map run_of resolved.now.runs.now ≡ map run_for (map mapping_of mappings.now) }
    ensures { result ≡ any_node (held_takes (map mapping_of mappings.now)) (subtree id tree.now.attached) }
{
    for member in tree.members(id) {
        if held_takes(member.payload, mappings, resolved) {
            return true;
        }
    }
    false
}
