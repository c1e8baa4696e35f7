//! A definition of which some lines were read.
ghost use Rattle.std.specs.Prelude.{◌≡◌, ◌==◌, ◌+◌, ◌<◌, ◌≤◌, ◌∷◌, ◌++◌, [], false, length, map, position, None, IfOk, OnOk, if◌then◌else◌};
ghost use Rattle.std.specs.Fmt.{decimal};
ghost use Rattle.std.specs.Str.{bytes_eq};
ghost use Rattle.sn_ports.specs.Limits.{most_wires, most_elements, most_units};
ghost use Rattle.sn_def.specs.Params.{parameter_of};
ghost use Rattle.sn_def.specs.Definition.{place_of, named, named_only, element_name, elements, with_control, with_array, with_wires, with_unit};
ghost use Rattle.sn_def.specs.Drafts.{has_point};
ghost use Rattle.sn_def.specs.Reading.{IsWritten};
ghost use Rattle.sn_def.specs.Defs.{definition_of};

use crate::arrays::{Run, Runs};
use crate::definition::{Def, Names, Param, Params};
use crate::kind::Kind;
use crate::known::Known;
use crate::unit::{Input, Inputs, Unit, Units};
use sn_ports::{NoMemory, Text};
use std::alloc::Global;
use std::marker::Model;

/// What has been read of a definition, with the names that it has given.
#[derive(Drop)]
pub(crate) struct Draft<'a> {
    name: Text,
    controls: Vec<Param>,
    arrays: Vec<Run>,
    units: Vec<Unit>,
    wires: Vec<Text>,
    known: Known<'a>,
}

impl<'a> Model for Draft<'a> {
    ghost use Rattle.sn_def.specs.Definition.{Definition};
    ghost use Rattle.sn_def.specs.Drafts.{draft_of, IsDraft};

    ghost Value = { Definition };

    ghost view = { λ s. draft_of s.name s.controls.items s.arrays.items s.units.items s.wires.items };

    ghost invariant = { λ s. IsDraft (draft_of s.name s.controls.items s.arrays.items s.units.items s.wires.items) s.known.map };
}

fn has_point(name: &[u8]) -> bool
    ensures { result ≡ has_point name.now }
{
    name.iter().any(|byte| *byte == b'.')
}

fn place_of(controls: &[Param], name: &[u8]) -> Option<usize>
    ensures { result ≡ position (λ c. bytes_eq c.name.bytes name.now) controls.now }
{
    controls
        .iter()
        .position(|control| control.name.as_slice() == name)
}

/// Where the element of an array of this name stands among controls.
fn element(controls: &[Param], name: &[u8]) -> Option<usize>
    ensures { result ≡ (if has_point name.now then place_of name.now (map (λ c. c.name) (map parameter_of controls.now)) else None) }
{
    if has_point(name) {
        return place_of(controls, name);
    }
    None
}

fn digits(alloc: Global, number: usize) -> Result<Text, NoMemory>
    ensures { IfOk result (λ text. text.bytes ≡ decimal number) }
{
    Ok(Text::from_vec(format!(in alloc; "{number}")?.into_bytes()))
}

/// The name of the element of an array with this number.
fn element_name(alloc: Global, name: &[u8], number: usize) -> Result<Text, NoMemory>
    ensures { IfOk result (λ text. text.bytes ≡ element_name name.now number) }
{
    let mut text = Text::from_slice(alloc, name)?;
    if number == 0 {
        return Ok(text);
    }
    text.append(b".")?;
    text.append(digits(alloc, number)?.as_slice())?;
    Ok(text)
}

/// The elements of an array, each as a control.
fn push_elements(
    alloc: Global,
    controls: &mut Vec<Param>,
    name: &[u8],
    defaults: &[i32],
) -> Result<(), NoMemory>
    ensures { OnOk result (map parameter_of controls.new.items ≡ map parameter_of controls.old.items ++ elements name.now 0 defaults.now) }
{
    for (number, default) in defaults.iter().enumerate() {
        controls.push(Param {
            name: element_name(alloc, name, number)?,
            default: *default,
        })?;
    }
    Ok(())
}

impl<'a> Draft<'a> {
    /// A draft of this name, without controls, units and wires.
    pub fn new(alloc: Global, name: Text) -> Self
        ensures { result ≡ named_only name.bytes }
    {
        Draft {
            name,
            controls: Vec::new(alloc),
            arrays: Vec::new(alloc),
            units: Vec::new(alloc),
            wires: Vec::new(alloc),
            known: Known::new(alloc),
        }
    }

    /// What the name stands for.
    pub fn find(&self, name: &'a [u8]) -> Option<Input>
        ensures { result ≡ named self.now name.now }
    {
        match element(&self.controls, name) {
            Some(number) => Some(Input::Control(number as u32)),
            None => self.known.find(name),
        }
    }

    /// How many controls there are.
    pub fn controls(&self) -> usize
        ensures count { result ≡ length self.now.controls }
        ensures few { result ≤ most_wires }
    {
        self.controls.len()
    }

    /// How many units there are.
    pub fn units(&self) -> usize
        ensures { result ≡ length self.now.units }
    {
        self.units.len()
    }

    /// How many wires there are.
    pub fn wires(&self) -> usize
        ensures count { result ≡ length self.now.wires }
        ensures few { result ≤ most_wires }
    {
        self.wires.len()
    }

    /// The number of the line, from 1, that comes after the first two and `read` more, each of which gave a control or
    /// a unit.
    pub fn line(&self, read: usize) -> u32
        requires { read ≤ length self.now.controls + length self.now.units }
        ensures count { result ≡ 3 + read }
        ensures few { result ≤ 771 }
    {
        // The bounds of the draft say that the number fits.
        let _ = &self.controls;
        3 + read as u32
    }

    /// One more control, under a name that stands for nothing yet.
    pub fn with_control(self, alloc: Global, name: &'a [u8], default: i32) -> Result<Self, NoMemory>
        requires fresh { named self name.now ≡ None }
        requires room { length self.controls < most_wires }
        ensures { IfOk result (λ d. d ≡ with_control self.entry name.now default) }
    {
        let mut draft = self;
        let number = draft.controls.len() as u32;
        draft.known.add(name, Input::Control(number))?;
        draft.controls.push(Param {
            name: Text::from_slice(alloc, name)?,
            default,
        })?;
        Ok(draft)
    }

    /// One more array, under a name that stands for nothing yet.
    pub fn with_array(
        self,
        alloc: Global,
        name: &'a [u8],
        defaults: &[i32],
    ) -> Result<Self, NoMemory>
        requires fresh { named self name.now ≡ None }
        requires plain { has_point name.now ≡ false }
        requires some { 0 < length defaults.now }
        requires few { length defaults.now ≤ most_elements }
        requires room { length self.controls + length defaults.now ≤ most_wires }
        ensures { IfOk result (λ d. d ≡ with_array self.entry name.now defaults.now) }
    {
        let mut draft = self;
        let first = draft.controls.len() as u32;
        draft.known.add(name, Input::Control(first))?;
        push_elements(alloc, &mut draft.controls, name, defaults)?;
        draft.arrays.push(Run {
            first,
            len: defaults.len() as u32,
        })?;
        Ok(draft)
    }

    /// One more wire, under a name that stands for nothing yet.
    pub fn with_wire(self, alloc: Global, name: &'a [u8]) -> Result<Self, NoMemory>
        requires fresh { named self name.now ≡ None }
        requires room { length self.wires < most_wires }
        ensures { IfOk result (λ d. d ≡ with_wires self.entry (name.now ∷ [])) }
    {
        let mut draft = self;
        let number = draft.wires.len() as u32;
        draft.known.add(name, Input::Wire(number))?;
        draft.wires.push(Text::from_slice(alloc, name)?)?;
        Ok(draft)
    }

    /// One unit more.
    pub fn with_unit(self, kind: Kind, inputs: Inputs, outputs: u32) -> Result<Self, NoMemory>
        requires { length self.units < most_units }
        ensures { IfOk result (λ d. d ≡ with_unit self.entry kind inputs outputs) }
    {
        let mut draft = self;
        draft.units.push(Unit {
            kind,
            inputs,
            outputs,
        })?;
        Ok(draft)
    }

    /// The definition, after it has a unit and all its wires.
    pub fn into_def(self, alloc: Global) -> Result<Def, NoMemory>
        requires { IsWritten self }
        ensures { IfOk result (λ d. definition_of d ≡ self.entry) }
    {
        Def::new(
            alloc,
            self.name,
            Params::from_vec(self.controls),
            Runs::from_vec(self.arrays),
            Units::from_vec(self.units),
            Names::from_vec(self.wires),
        )
    }
}
