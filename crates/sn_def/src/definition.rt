//! Definitions, as they are kept.
ghost use Rattle.std.specs.Prelude.{◌≡◌, ◌<◌, ◌≤◌, List, map, length, IfOk, IfSome};
ghost use Rattle.sn_ports.specs.Limits.{most_wires, most_units, low_rate, middle_rate, high_rate};
ghost use Rattle.sn_def.specs.Params.{parameter_of};
ghost use Rattle.sn_def.specs.Definition.{whole};
ghost use Rattle.sn_def.specs.Reading.{IsWritten};
ghost use Rattle.sn_def.specs.StateWords.{units_words};
ghost use Rattle.sn_def.specs.Layout.{laid_out, words_at};

use crate::arrays::Runs;
use crate::layout::{UnitWords, laid_out, row_at, words_at};
use crate::unit::Units;
use sn_ports::limits::{HIGH_RATE, LOW_RATE, MIDDLE_RATE};
use sn_ports::{NoMemory, Text};
use std::alloc::Global;
use std::marker::Model;

/// A control of a definition: its name, and its first value.
#[derive(Debug, Drop)]
pub struct Param {
    /// The control's name.
    pub name: Text,
    /// The first value: a raw sample, in units of 2^-24.
    pub default: i32,
}

/// The controls of a definition.
#[derive(Debug, Drop)]
pub struct Params {
    items: Vec<Param>,
}

impl Model for Params {
    ghost use Rattle.std.specs.Prelude.{List, map};
    ghost use Rattle.sn_def.specs.Definition.{Parameter};
    ghost use Rattle.sn_def.specs.Params.{parameter_of};

    ghost Value = { List Parameter };

    ghost view = { λ s. map parameter_of s.items.items };
}

impl Params {
    /// The controls in this order.
    pub fn from_vec(items: Vec<Param>) -> Self
        ensures { result ≡ map parameter_of items.items }
    {
        Params { items }
    }

    /// The controls, by their numbers.
    pub fn as_slice(&self) -> &[Param]
        ensures { map parameter_of result.now ≡ self.now }
    {
        &self.items
    }
}

/// A list of names.
#[derive(Debug, Drop)]
pub struct Names {
    items: Vec<Text>,
}

impl Model for Names {
    ghost use Rattle.std.specs.Prelude.{List, ℕ, map};
    ghost use Rattle.sn_ports.specs.Octets.{Octets};

    ghost Value = { List (List ℕ) };

    ghost view = { λ s. map (λ n. n.bytes) s.items.items };
}

impl Names {
    /// The names in this order.
    pub fn from_vec(items: Vec<Text>) -> Self
        ensures { result ≡ map (λ n. n.bytes) items.items }
    {
        Names { items }
    }

    /// The names, in their order.
    pub fn as_slice(&self) -> &[Text]
        ensures { map (λ n. n.bytes) result.now ≡ self.now }
    {
        &self.items
    }
}

/// A definition of an instrument. It is always the definition of some text.
#[derive(Debug, Drop)]
pub struct Def {
    /// The definition's name.
    pub name: Text,
    /// At most 512 controls, in the order of the text. Each element of an array is one.
    pub controls: Params,
    /// The arrays of controls, in the order of the text.
    pub arrays: Runs,
    /// At most 256 units, in the order of the text.
    pub units: Units,
    /// The names of the wires, at most 512, in the order of the text.
    pub wires: Names,
    /// The words of each unit's state at 44,100 frames a second, at 48,000 and at 96,000.
    low: Vec<UnitWords>,
    middle: Vec<UnitWords>,
    high: Vec<UnitWords>,
    pub ghost controls_bound: { length controls ≤ most_wires },
    pub ghost units_bound: { length units ≤ most_units },
    pub ghost wires_bound: { length wires ≤ most_wires },
    pub ghost written: { ∥ IsWritten (whole name.bytes controls arrays units wires) ∥₁ },
    ghost low_is: { low.items ≡ laid_out low_rate 0 units },
    ghost middle_is: { middle.items ≡ laid_out middle_rate 0 units },
    ghost high_is: { high.items ≡ laid_out high_rate 0 units },
}

impl Def {
    /// The definition of these parts.
    pub(crate) fn new(
        alloc: Global,
        name: Text,
        controls: Params,
        arrays: Runs,
        units: Units,
        wires: Names,
    ) -> Result<Self, NoMemory>
        requires { IsWritten (whole name.bytes controls arrays units wires) }
        ensures { IfOk result (λ d. whole d.name.bytes d.controls d.arrays d.units d.wires ≡ whole name.bytes controls arrays units wires) }
    {
        let low = laid_out(alloc, units.as_slice(), LOW_RATE)?;
        let middle = laid_out(alloc, units.as_slice(), MIDDLE_RATE)?;
        let high = laid_out(alloc, units.as_slice(), HIGH_RATE)?;
        Ok(Def {
            name,
            controls,
            arrays,
            units,
            wires,
            low,
            middle,
            high,
        })
    }

    /// The words of the unit of a number, if they are kept for this rate.
    fn kept_words(&self, number: usize, rate: u32) -> Option<UnitWords>
        ensures { IfSome result (λ w. w ≡ words_at rate self.now.units number) }
    {
        match rate {
            LOW_RATE => row_at(&self.low, number),
            MIDDLE_RATE => row_at(&self.middle, number),
            HIGH_RATE => row_at(&self.high, number),
            _ => None,
        }
    }

    /// The words of state of the unit of a number, from 0, among those of all units, at `rate`
    /// frames a second. They are kept for 44,100, 48,000 and 96,000, and worked out for any other
    /// rate.
    #[inline(always)]
    pub fn unit_words(&self, number: usize, rate: u32) -> UnitWords
        requires { units_words rate self.now.units < 4294967296 }
        ensures { result ≡ words_at rate self.now.units number }
    {
        match self.kept_words(number, rate) {
            Some(words) => words,
            None => words_at(self.units.as_slice(), number, rate),
        }
    }
}
