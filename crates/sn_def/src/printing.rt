//! The text of a definition.
ghost use Rattle.std.specs.Prelude.{◌≡◌, ◌+◌, ◌-◌, ◌++◌, ◌∷◌, ◌≤◌, [], codes, map, flat_map, take, drop, length, unwrap_or, slice_get, IfOk, OnOk};
ghost use Rattle.std.specs.Fmt.{signed_decimal};
ghost use Rattle.std.specs.Option.{option_map};
ghost use Rattle.sn_def.specs.Definition.{control_names};
ghost use Rattle.sn_def.specs.Reading.{text_at};
ghost use Rattle.sn_def.specs.Grammar.{line, control_fields, output_fields, unit_fields, DefinitionText};
ghost use Rattle.sn_def.specs.Versions.{title};
ghost use Rattle.sn_def.specs.Printing.{version_for, first_name, control_printed, array_printed, controls_printed, input_printed, unit_printed, units_printed, print_of};
ghost use Rattle.sn_def.specs.WellFormed.{RunsFit, outputs_of};
ghost use Rattle.sn_def.specs.Params.{parameter_of};
ghost use Rattle.sn_def.specs.Defs.{definition_of};

use crate::arrays::Run;
use crate::definition::{Def, Param};
use crate::table::row_of;
use crate::unit::{Input, Unit};
use crate::version::Version;
use sn_fixed::{digits_read_back, literal_bytes};
use sn_ports::{NoMemory, Text, show};
use std::alloc::Global;

/// A line `control NAME VALUE`.
fn print_control(alloc: Global, text: &mut Text, control: &Param) -> Result<(), NoMemory>
    ensures { OnOk result (text.new.bytes ≡ text.old.bytes ++ line (control_fields (control_printed (parameter_of control.now)))) }
{
    text.append(b"control ")?;
    text.append(control.name.as_slice())?;
    text.append(b" ")?;
    text.append(show(alloc, control.default)?.as_slice())?;
    text.append(b"\n")
}

fn print_controls(alloc: Global, text: &mut Text, controls: &[Param]) -> Result<(), NoMemory>
    ensures { OnOk result (text.new.bytes ≡ text.old.bytes ++ flat_map (λ c. line (control_fields (control_printed (parameter_of c)))) controls.now) }
{
    for control in controls {
        print_control(alloc, text, control)?;
    }
    Ok(())
}

fn first_name(controls: &[Param]) -> &[u8]
    ensures { result.now ≡ first_name (map parameter_of controls.now) }
{
    match controls {
        [] => &[],
        [first, ..] => first.name.as_slice(),
    }
}

/// A value, after a space.
fn print_value(alloc: Global, text: &mut Text, control: &Param) -> Result<(), NoMemory>
    ensures { OnOk result (text.new.bytes ≡ text.old.bytes ++ 32 ∷ signed_decimal control.now.default) }
{
    text.append(b" ")?;
    text.append(show(alloc, control.default)?.as_slice())
}

/// The values of controls, each after a space.
fn print_values(alloc: Global, text: &mut Text, controls: &[Param]) -> Result<(), NoMemory>
    ensures { OnOk result (text.new.bytes ≡ text.old.bytes ++ flat_map (λ c. 32 ∷ signed_decimal c.default) controls.now) }
{
    for control in controls {
        print_value(alloc, text, control)?;
    }
    Ok(())
}

/// A line `array NAME VALUE ..`.
fn print_array(alloc: Global, text: &mut Text, controls: &[Param]) -> Result<(), NoMemory>
    ensures { OnOk result (text.new.bytes ≡ text.old.bytes ++ line (control_fields (array_printed (map parameter_of controls.now)))) }
{
    text.append(b"array ")?;
    text.append(first_name(controls))?;
    print_values(alloc, text, controls)?;
    text.append(b"\n")
}

/// The lines of the controls from a number on that stand before an array, and the array's line.
fn print_run(
    alloc: Global,
    text: &mut Text,
    controls: &[Param],
    next: usize,
    array: &Run,
) -> Result<(), NoMemory>
    requires from { next ≤ array.now.first }
    requires within { array.now.first + array.now.len ≤ length controls.now }
    ensures { OnOk result (text.new.bytes ≡ (text.old.bytes ++ flat_map (λ c. line (control_fields (control_printed (parameter_of c)))) (take (array.now.first - next) (drop next controls.now))) ++ line (control_fields (array_printed (map parameter_of (take array.now.len (drop array.now.first controls.now)))))) }
{
    let first = array.first as usize;
    let after = first + array.len as usize;
    print_controls(alloc, text, &controls[next..first])?;
    print_array(alloc, text, &controls[first..after])
}

/// The lines of controls, if these are their arrays.
fn print_control_lines(
    alloc: Global,
    text: &mut Text,
    controls: &[Param],
    arrays: &[Run],
) -> Result<(), NoMemory>
    requires { RunsFit 0 (length controls.now) arrays.now }
    ensures { OnOk result (text.new.bytes ≡ text.old.bytes ++ flat_map (λ c. line (control_fields c)) (controls_printed 0 (map parameter_of controls.now) arrays.now)) }
{
    let mut next = 0;
    for array in arrays {
        print_run(alloc, text, controls, next, array)?;
        next = array.first as usize + array.len as usize;
    }
    print_controls(alloc, text, &controls[next..])
}

fn name_at(controls: &[Param], number: u32) -> &[u8]
    ensures { result.now ≡ unwrap_or (option_map (λ p. p.name.bytes) (slice_get controls.now number)) [] }
{
    match controls.get(number as usize) {
        Some(control) => control.name.as_slice(),
        None => &[],
    }
}

fn control_name(def: &Def, number: u32) -> &[u8]
    ensures { result.now ≡ unwrap_or (slice_get (control_names (definition_of def.now)) number) [] }
{
    name_at(def.controls.as_slice(), number)
}

fn wire_name(def: &Def, number: u32) -> &[u8]
    ensures { result.now ≡ unwrap_or (slice_get (definition_of def.now).wires number) [] }
{
    match def.wires.as_slice().get(number as usize) {
        Some(name) => name.as_slice(),
        None => &[],
    }
}

fn print_input(alloc: Global, text: &mut Text, def: &Def, input: Input) -> Result<(), NoMemory>
    ensures { OnOk result (text.new.bytes ≡ text.old.bytes ++ 32 ∷ input_printed (definition_of def.now) input) }
{
    text.append(b" ")?;
    match input {
        Input::Literal(value) => text.append(show(alloc, value)?.as_slice()),
        Input::Control(number) => text.append(control_name(def, number)),
        Input::Wire(number) => text.append(wire_name(def, number)),
    }
}

fn print_inputs(alloc: Global, text: &mut Text, def: &Def, inputs: &[Input]) -> Result<(), NoMemory>
    ensures { OnOk result (text.new.bytes ≡ text.old.bytes ++ flat_map (λ x. 32 ∷ input_printed (definition_of def.now) x) inputs.now) }
{
    for input in inputs {
        print_input(alloc, text, def, *input)?;
    }
    Ok(())
}

fn print_names(text: &mut Text, names: &[Text]) -> Result<(), NoMemory>
    ensures { OnOk result (text.new.bytes ≡ text.old.bytes ++ flat_map (λ n. n.bytes ++ 32 ∷ []) names.now) }
{
    for name in names {
        text.append(name.as_slice())?;
        text.append(b" ")?;
    }
    Ok(())
}

/// The names of the output wires, and `=` if there are any.
fn print_outputs(text: &mut Text, names: &[Text]) -> Result<(), NoMemory>
    ensures { OnOk result (text.new.bytes ≡ text.old.bytes ++ flat_map (λ f. f ++ 32 ∷ []) (output_fields (map (λ n. n.bytes) names.now))) }
{
    if names.is_empty() {
        return Ok(());
    }
    print_names(text, names)?;
    text.append(b"= ")
}

/// A unit line, by the names of its output wires.
fn print_unit(
    alloc: Global,
    text: &mut Text,
    def: &Def,
    names: &[Text],
    unit: &Unit,
) -> Result<(), NoMemory>
    ensures { OnOk result (text.new.bytes ≡ text.old.bytes ++ line (unit_fields (unit_printed (definition_of def.now) (map (λ n. n.bytes) names.now) unit.now))) }
{
    print_outputs(text, names)?;
    text.append(row_of(unit.kind).name)?;
    print_inputs(alloc, text, def, unit.inputs.as_slice())?;
    text.append(b"\n")
}

/// Unit lines, whose output wires have these names.
fn print_units(
    alloc: Global,
    text: &mut Text,
    def: &Def,
    names: &[Text],
    units: &[Unit],
) -> Result<(), NoMemory>
    requires { outputs_of units.now ≤ length names.now }
    ensures { OnOk result (text.new.bytes ≡ text.old.bytes ++ flat_map (λ u. line (unit_fields u)) (units_printed (definition_of def.now) (map (λ n. n.bytes) names.now) units.now)) }
{
    let mut first = 0;
    for unit in units {
        let after = first + unit.outputs as usize;
        print_unit(alloc, text, def, &names[first..after], unit)?;
        first = after;
    }
    Ok(())
}

/// The lower version that has the arrays and as many controls.
fn version_for(arrays: &[Run], controls: usize) -> Version
    ensures { result ≡ version_for arrays.now controls }
{
    match arrays {
        [] => {
            if controls <= 128 {
                return Version::One;
            }
            Version::Two
        }
        _ => Version::Two,
    }
}

/// The title, and the line `def NAME`.
fn print_title(alloc: Global, version: Version, name: &[u8]) -> Result<Text, NoMemory>
    ensures { IfOk result (λ text. text.bytes ≡ (title version ++ 10 ∷ []) ++ line (codes "def" ∷ name.now ∷ [])) }
{
    let mut text = Text::from_slice(alloc, version.title())?;
    text.append(b"\ndef ")?;
    text.append(name)?;
    text.append(b"\n")?;
    Ok(text)
}

/// The text of a definition, in which every value is written as a whole number: in version 1 if it has no array and at
/// most 128 controls, else in version 2. `read` gives an equal definition.
///
/// # Errors
///
/// `NoMemory` alone.
pub fn print(alloc: Global, def: &Def) -> Result<Text, NoMemory>
    ensures printed { IfOk result (λ text. text.bytes ≡ print_of (definition_of def.now)) }
    ensures read { IfOk result (λ text. text_at text.bytes ≡ Ok (definition_of def.now)) }
    ensures text { IfOk result (λ text. DefinitionText text.bytes (definition_of def.now)) }
{
    digits_read_back();
    literal_bytes();
    let controls = def.controls.as_slice();
    let arrays = def.arrays.as_slice();
    let version = version_for(arrays, controls.len());
    let mut text = print_title(alloc, version, def.name.as_slice())?;
    print_control_lines(alloc, &mut text, controls, arrays)?;
    print_units(
        alloc,
        &mut text,
        def,
        def.wires.as_slice(),
        def.units.as_slice(),
    )?;
    text.append(b"end\n")?;
    Ok(text)
}
