//! What is asked of a definition: its index controls, and its controls by name.
ghost use Rattle.std.specs.Prelude.{◌≡◌, position, zip};
ghost use Rattle.std.specs.List.{list_any};
ghost use Rattle.std.specs.Str.{bytes_eq};
ghost use Rattle.sn_def.specs.Asked.{is_index_input, has_index, is_index, control_named};
ghost use Rattle.sn_def.specs.Defs.{definition_of};
ghost use Rattle.sn_def.specs.WellFormed.{IsWellFormed};

use crate::definition::{Def, Param};
use crate::table::{Mark, row_of};
use crate::unit::{Input, Unit};

fn is_index_input(control: u32, mark: Mark, input: Input) -> bool
    ensures { result ≡ is_index_input control mark input }
{
    match mark {
        Mark::Index => match input {
            Input::Control(number) => number == control,
            _ => false,
        },
        _ => false,
    }
}

fn any_index_input(control: u32, marks: &[Mark], inputs: &[Input]) -> bool
    ensures { result ≡ list_any (λ p. is_index_input control p.0 p.1) (zip marks.now inputs.now) }
{
    marks
        .iter()
        .zip(inputs.iter())
        .any(|(mark, input)| is_index_input(control, *mark, *input))
}

#[tactic(auto, unfolding(crate::specs::Asked::has_index))]
fn has_index(control: u32, unit: &Unit) -> bool
    ensures { result ≡ has_index control unit.now }
{
    any_index_input(control, row_of(unit.kind).inputs, unit.inputs.as_slice())
}

fn any_has_index(control: u32, units: &[Unit]) -> bool
    ensures { result ≡ list_any (has_index control) units.now }
{
    units.iter().any(|unit| has_index(control, unit))
}

fn place_of(controls: &[Param], name: &[u8]) -> Option<usize>
    ensures { result ≡ position (λ c. bytes_eq c.name.bytes name.now) controls.now }
{
    controls
        .iter()
        .position(|control| control.name.as_slice() == name)
}

impl Def {
    /// A definition keeps the limits. Each of its units takes as many inputs and gives as many outputs as its row says.
    /// The inputs are of the kinds that its row says, and from earlier lines.
    pub fn well_formed(&self)
        ensures { IsWellFormed (definition_of self.now) }
    {}

    /// Whether a unit has this control as the number of a bus or of a buffer.
    pub fn is_index(&self, control: u32) -> bool
        ensures { result ≡ is_index (definition_of self.now) control }
    {
        any_has_index(control, self.units.as_slice())
    }

    /// The number of the control of this name, from 0. `None` comes exactly if no control has the name.
    pub fn control_named(&self, name: &[u8]) -> Option<u32>
        ensures { result ≡ control_named (definition_of self.now) name.now }
    {
        match place_of(self.controls.as_slice(), name) {
            Some(place) => Some(place as u32),
            None => None,
        }
    }
}
