//! The controls of a synth, and what a unit is given of its surroundings.
ghost use Rattle.std.specs.Prelude.{◌≡◌, List, slice_set};

use std::marker::Model;

/// What the run of a unit is given of its surroundings.
#[derive(Clone, Copy, Debug)]
pub struct Now {
    /// The sample rate, in frames a second.
    pub rate: u32,
    /// The block's number, from 0.
    pub block: u64,
    /// The synth's node id.
    pub node: i32,
    /// The unit's number in its definition, from 0.
    pub unit: u32,
}

/// A control of a synth: its own value, and the control bus that it follows, if any.
#[derive(Clone, Copy, Debug)]
pub struct Control {
    /// Its own value: a raw sample, in units of 2^-24.
    pub value: i32,
    /// The number of the control bus that it follows, if any.
    pub bus: Option<u32>,
}

/// The controls of a synth, one for each control of its definition, in that order.
#[derive(Debug, Drop)]
pub struct Controls {
    items: Vec<Control>,
}

impl Model for Controls {
    ghost use Rattle.std.specs.Prelude.{List};
    ghost use Rattle.sn_def.specs.declared.control.Control.{Control};

    ghost Value = { List Control };

    ghost view = { λ s. s.items.items };
}

impl Controls {
    /// The controls in this order.
    pub fn from_vec(items: Vec<Control>) -> Self
        ensures { result ≡ items.items }
    {
        Controls { items }
    }

    /// The controls, by their numbers.
    pub fn as_slice(&self) -> &[Control]
        ensures { result.now ≡ self.now }
    {
        &self.items
    }

    /// Sets the control with a number, if there is one.
    #[tactic(auto, using(std::proofs::lemmas::List::set_past))]
    pub fn set(&mut self, number: usize, control: Control)
        ensures { self.new ≡ slice_set self.old number control }
    {
        if number >= self.items.len() {
            return;
        }
        self.items[number] = control;
    }
}
