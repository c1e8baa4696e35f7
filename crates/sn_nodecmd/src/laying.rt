//! Numbers that runs give a field of controls.
ghost use Rattle.std.specs.Prelude.{◌≡◌, ◌<◌, Some, map, length, slice_index_or};
ghost use Rattle.sn_def.specs.Defs.{definition_of};
ghost use Rattle.sn_world.specs.NewSynth.{control_of};
ghost use Rattle.sn_world.specs.Mappings.{followed_bus};
ghost use Rattle.sn_nodecmd.specs.Runs.{name_of, values_of, run_of};
ghost use Rattle.sn_nodecmd.specs.Laying.{with_number, laid_at, laid_from, laid_run, laid_runs, laid};

use crate::names::number_of;
use crate::runs::{Run, RunValues, split_first};
use sn_def::{Control, Controls, Def};

/// The field of a control that a number is for.
#[derive(Clone, Copy)]
pub enum Field {
    /// Its own value. It then follows no bus.
    Value,
    /// The control bus that it follows, or -1 for none. It keeps its own value.
    Bus,
}

fn followed_bus(bus: i32) -> Option<u32>
    ensures { result ≡ followed_bus bus }
{
    if bus >= 0 { Some(bus as u32) } else { None }
}

fn with_number(field: Field, number: i32, control: &Control) -> Control
    ensures { result ≡ with_number field number control.now }
{
    match field {
        Field::Value => Control {
            value: number,
            bus: None,
        },
        Field::Bus => Control {
            value: control.value,
            bus: followed_bus(number),
        },
    }
}

/// Gives a number to the control at a place, if both are there.
fn lay_at(field: Field, number: Option<i32>, place: usize, controls: &mut Controls)
    ensures { controls.new ≡ laid_at field number place controls.old }
{
    let Some(number) = number else {
        return;
    };
    let Some(control) = controls.as_slice().get(place) else {
        return;
    };
    let control = with_number(field, number, control);
    controls.set(place, control);
}

/// Gives numbers to the controls from one on, up to the last control.
fn lay_from(field: Field, controls: &mut Controls, first: u32, values: RunValues<'_>)
    ensures { controls.new ≡ laid_from field first (values_of values.entry) controls.old }
{
    let mut place = first as usize;
    let mut left = values;
    while place < controls.as_slice().len() {
        let Some((value, rest)) = split_first(left) else {
            return;
        };
        lay_at(field, Some(value), place, controls);
        place += 1;
        left = rest;
    }
}

/// Gives the numbers of a run. If it begins at none of the definition's controls, it is ignored.
fn lay_run(field: Field, def: &Def, run: &Run<'_>, controls: &mut Controls)
    ensures { controls.new ≡ laid_run field (control_of (definition_of def.now) (name_of run.now.control)) (values_of run.now.values) controls.old }
{
    let Some(number) = number_of(def, run.control) else {
        return;
    };
    lay_from(field, controls, number, run.values);
}

/// Gives the numbers of runs, one after the other.
pub fn lay_runs(field: Field, def: &Def, runs: &[Run<'_>], controls: &mut Controls)
    ensures { controls.new ≡ laid_runs field (map run_of runs.now) (definition_of def.now) controls.old }
{
    for run in runs {
        lay_run(field, def, run, controls);
    }
}

/// The last number for the control at a place.
fn number_at(last: &[Option<i32>], place: usize) -> Option<i32>
    requires { place < length last.now }
    ensures { result ≡ slice_index_or last.now place result }
{
    last[place]
}

/// Gives each control its last number, if it has one.
pub fn lay(field: Field, last: &[Option<i32>], controls: &mut Controls)
    ensures { controls.new ≡ laid field last.now controls.old }
{
    let mut place = 0;
    while place < last.len() {
        let number = number_at(last, place);
        lay_at(field, number, place, controls);
        place += 1;
    }
}
