//! How many words of state units have.
ghost use Rattle.std.specs.Prelude.{◌≡◌, ◌≤◌, ◌<◌, position};
ghost use Rattle.sn_ports.specs.Limits.{high_rate};
ghost use Rattle.sn_def.specs.Defs.{definition_of};
ghost use Rattle.sn_def.specs.StateWords.{is_longest, literal_value, longest, words_of, unit_words, units_words, state_words};

use crate::definition::Def;
use crate::table::{Mark, StateSize, row_of};
use crate::unit::{Input, Unit};
use sn_fixed::frames_of;

fn is_longest(mark: Mark) -> bool
    ensures { result ≡ is_longest mark }
{
    matches!(&mark, Mark::Longest)
}

/// The place of the longest delay among a unit's inputs.
fn longest_place(marks: &[Mark]) -> Option<usize>
    ensures { result ≡ position is_longest marks.now }
{
    marks.iter().position(|mark| is_longest(*mark))
}

fn literal_value(input: Option<Input>) -> i32
    ensures { result ≡ literal_value input }
{
    match input {
        Some(Input::Literal(value)) => value,
        _ => 0,
    }
}

/// The milliseconds of a unit's longest delay.
fn longest(marks: &[Mark], inputs: &[Input]) -> i32
    ensures { result ≡ longest marks.now inputs.now }
{
    match longest_place(marks) {
        Some(place) => literal_value(inputs.get(place).copied()),
        None => 0,
    }
}

fn words_of(words: StateSize, frames: u32) -> u32
    requires { frames ≤ 2147483647 }
    ensures { result ≡ words_of words frames }
{
    match words {
        StateSize::Fixed(count) => count,
        StateSize::Delay => frames + 2,
        StateSize::Comb => frames.max(1) + 2,
        StateSize::DampedComb => frames.max(1) + 3,
    }
}

pub(crate) fn total_words(units: &[Unit], rate: u32) -> u32
    requires { units_words rate units.now < 4294967296 }
    ensures { result ≡ units_words rate units.now }
{
    let mut total = 0;
    for unit in units {
        total += unit.state_words(rate);
    }
    total
}

impl Unit {
    /// The unit's words of state, at `rate` frames a second.
    #[tactic(auto, unfolding(crate::specs::StateWords::unit_words))]
    pub fn state_words(&self, rate: u32) -> u32
        ensures { result ≡ unit_words rate self.now }
    {
        let row = row_of(self.kind);
        let delay = longest(row.inputs, self.inputs.as_slice());
        words_of(row.words, frames_of(delay, rate))
    }
}

impl Def {
    /// The words of state of all units, at `rate` frames a second. They lie one unit's after the
    /// other's.
    pub fn state_words(&self, rate: u32) -> u32
        requires { rate ≤ high_rate }
        ensures words { result ≡ state_words rate (definition_of self.now) }
        ensures bound { result ≤ 1474560768 }
    {
        total_words(self.units.as_slice(), rate)
    }
}
