//! Units and their inputs.
ghost use Rattle.std.specs.Prelude.{◌≡◌, List};

use crate::kind::Kind;
use std::marker::Model;

/// An input of a unit. Controls and wires are numbered from 0, in the order of the text.
#[derive(Clone, Copy, Debug)]
pub enum Input {
    /// A raw value.
    Literal(i32),
    /// The number of a control.
    Control(u32),
    /// The number of a wire.
    Wire(u32),
}

/// The inputs of a unit.
#[derive(Debug, Drop)]
pub struct Inputs {
    items: Vec<Input>,
}

impl Model for Inputs {
    ghost use Rattle.std.specs.Prelude.{List};
    ghost use Rattle.sn_def.specs.declared.unit.Input.{Input};

    ghost Value = { List Input };

    ghost view = { λ s. s.items.items };
}

impl Inputs {
    /// The inputs in this order.
    pub fn from_vec(items: Vec<Input>) -> Self
        ensures { result ≡ items.items }
    {
        Inputs { items }
    }

    /// The inputs, in their order.
    pub fn as_slice(&self) -> &[Input]
        ensures { result.now ≡ self.now }
    {
        &self.items
    }
}

/// A unit line. Its outputs are the next `outputs` wires, in the order of the text.
#[derive(Debug, Drop)]
pub struct Unit {
    /// Its kind.
    pub kind: Kind,
    /// Its inputs, in the order of the line.
    pub inputs: Inputs,
    /// The number of its outputs.
    pub outputs: u32,
}

/// The units of a definition, in the order in which they run.
#[derive(Debug, Drop)]
pub struct Units {
    items: Vec<Unit>,
}

impl Model for Units {
    ghost use Rattle.std.specs.Prelude.{List};
    ghost use Rattle.sn_def.specs.declared.unit.Unit.{Unit};

    ghost Value = { List Unit };

    ghost view = { λ s. s.items.items };
}

impl Units {
    /// The units in this order.
    pub fn from_vec(items: Vec<Unit>) -> Self
        ensures { result ≡ items.items }
    {
        Units { items }
    }

    /// The units, in their order.
    pub fn as_slice(&self) -> &[Unit]
        ensures { result.now ≡ self.now }
    {
        &self.items
    }
}
