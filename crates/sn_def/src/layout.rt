//! Where the units of a definition have their words of state.
ghost use Rattle.std.specs.Prelude.{◌≡◌, ◌<◌, IfOk, slice_get, take};
ghost use Rattle.sn_def.specs.StateWords.{units_words};
ghost use Rattle.sn_def.specs.Layout.{words_if_there, words_at, laid_out};

use crate::state::total_words;
use crate::unit::Unit;
use sn_ports::NoMemory;
use std::alloc::Global;

/// A unit's words of state, among those of all units of its definition.
#[derive(Clone, Copy, Debug)]
pub struct UnitWords {
    /// The number of the first one, from 0.
    pub first: u32,
    /// How many there are.
    pub count: u32,
}

/// The words of units at a rate, one unit's after the other's.
pub(crate) fn laid_out(alloc: Global, units: &[Unit], rate: u32) -> Result<Vec<UnitWords>, NoMemory>
    requires { units_words rate units.now < 4294967296 }
    ensures { IfOk result (λ rows. rows.items ≡ laid_out rate 0 units.now) }
{
    let mut rows = Vec::new(alloc);
    let mut first = 0;
    for unit in units {
        let count = unit.state_words(rate);
        rows.push(UnitWords { first, count })?;
        first += count;
    }
    Ok(rows)
}

/// The row of a number, if it is there.
pub(crate) fn row_at(rows: &[UnitWords], number: usize) -> Option<UnitWords>
    ensures { result ≡ slice_get rows.now number }
{
    rows.get(number).copied()
}

/// How many words the unit of a number has, if it is there.
fn words_if_there(units: &[Unit], number: usize, rate: u32) -> u32
    ensures { result ≡ words_if_there rate (slice_get units.now number) }
{
    match units.get(number) {
        Some(unit) => unit.state_words(rate),
        None => 0,
    }
}

/// The first units, at most `number`.
fn first_units(units: &[Unit], number: usize) -> &[Unit]
    ensures { result.now ≡ take number units.now }
{
    &units[..number.min(units.len())]
}

/// The words of the unit of a number, worked out.
#[cold]
#[inline(never)]
pub(crate) fn words_at(units: &[Unit], number: usize, rate: u32) -> UnitWords
    requires { units_words rate units.now < 4294967296 }
    ensures { result ≡ words_at rate units.now number }
{
    UnitWords {
        first: total_words(first_units(units, number), rate),
        count: words_if_there(units, number, rate),
    }
}
