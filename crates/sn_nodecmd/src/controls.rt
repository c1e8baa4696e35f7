//! The controls that a synth begins with.
ghost use Rattle.std.specs.Prelude.{◌≡◌, ◌<◌, [], map, unwrap_or, IfOk, Some};
ghost use Rattle.sn_osc.specs.Shape.{argument_of};
ghost use Rattle.sn_def.specs.Defs.{definition_of};
ghost use Rattle.sn_synth.specs.Conditions.{AreControlsOf};
ghost use Rattle.sn_world.specs.Rows.{pairs};
ghost use Rattle.sn_world.specs.NewSynth.{numbered, control_of, control_name, control_value, with_value, with_values, defaults};
ghost use Rattle.sn_nodecmd.specs.Asking.{AreValues};
ghost use Rattle.sn_nodecmd.specs.Setting.{number_of, with_pair};

use sn_def::{Control, Controls, Def};
use sn_osc::Arg;
use sn_ports::NoMemory;
use std::alloc::Global;

/// The control with a number, if the definition has one.
pub fn numbered(def: &Def, number: i32) -> Option<u32>
    ensures { result ≡ control_of (definition_of def.now) (numbered number) }
{
    if number >= 0 && (number as usize) < def.controls.as_slice().len() {
        return Some(number as u32);
    }
    None
}

fn control_number(def: &Def, control: &Arg) -> Option<u32>
    ensures { result ≡ number_of (definition_of def.now) (control_name (argument_of control.now)) }
{
    match control {
        Arg::Int(number) => numbered(def, *number),
        Arg::Text(name) => def.control_named(name.as_slice()),
        Arg::Blob(_) => None,
    }
}

fn put_value(controls: &mut [Control], number: u32, value: i32)
    ensures { controls.new ≡ with_value (Some number) value controls.old }
{
    let number = number as usize;
    if number < controls.len() {
        controls[number] = Control { value, bus: None };
    }
}

/// Gives a control its value. A control that the definition doesn't have is ignored.
fn set_control(def: &Def, control: &Arg, value: &Arg, controls: &mut [Control])
    ensures { controls.new ≡ with_pair (definition_of def.now) (control_value (argument_of control.now) (argument_of value.now)) controls.old }
{
    let Arg::Int(value) = value else {
        return;
    };
    let Some(number) = control_number(def, control) else {
        return;
    };
    put_value(controls, number, *value);
}

fn defaults(alloc: Global, def: &Def) -> Result<Vec<Control>, NoMemory>
    ensures { IfOk result (λ controls. controls.items ≡ defaults (definition_of def.now)) }
{
    let mut controls = Vec::new(alloc);
    for param in def.controls.as_slice() {
        controls.push(Control {
            value: param.default,
            bus: None,
        })?;
    }
    Ok(controls)
}

/// The defaults, and then the given values.
pub fn controls_of(alloc: Global, def: &Def, values: &[Arg]) -> Result<Controls, NoMemory>
    requires { AreValues values.now }
    ensures set { IfOk result (λ controls. controls ≡ with_values (definition_of def.now) (unwrap_or (pairs control_value (map argument_of values.now)) []) (defaults (definition_of def.now))) }
    ensures each { IfOk result (λ controls. AreControlsOf (definition_of def.now) controls) }
{
    let mut controls = defaults(alloc, def)?;
    let mut rest = values;
    while let [control, value, after @ ..] = rest {
        set_control(def, control, value, &mut controls);
        rest = after;
    }
    Ok(Controls::from_vec(controls))
}
