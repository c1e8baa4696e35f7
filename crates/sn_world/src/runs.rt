//! Runs of values in arguments: (first count value..)..
ghost use Rattle.std.specs.Prelude.{◌≡◌, map, IfOk};
ghost use Rattle.std.specs.Option.{option_map};
ghost use Rattle.sn_osc.specs.Shape.{argument_of};
ghost use Rattle.sn_world.specs.Runs.{number, value_runs};

use crate::arguments::{Pair, Single, singles};
use crate::repetition::Run;
use sn_osc::Arg;
use sn_ports::NoMemory;
use std::alloc::Global;
use std::marker::Model;

/// A first place, and the values from it on.
#[derive(Drop)]
pub struct ValueRun {
    first: i32,
    values: Vec<i32>,
}

impl Model for ValueRun {
    ghost use Rattle.sn_world.specs.Runs.{ValuesAt};

    ghost Value = { ValuesAt };

    ghost view = { λ r. record { first = r.first; values = r.values.items } };
}

impl ValueRun {
    /// The values from a place on.
    pub fn new(first: i32, values: Vec<i32>) -> Self
        ensures { result ≡ record { first = first; values = values.items } }
    {
        ValueRun { first, values }
    }

    /// The first place.
    pub fn first(&self) -> i32
        ensures { result ≡ self.now.first }
    {
        self.first
    }

    /// The values, in order.
    pub fn values(&self) -> &[i32]
        ensures { result.now ≡ self.now.values }
    {
        &self.values
    }
}

impl Single for i32 {
    ghost from_one = { number };

    fn from_one(value: &Arg) -> Option<i32> {
        match value {
            Arg::Int(value) => Some(*value),
            _ => None,
        }
    }
}

/// Runs, each of which says how many values it has.
pub fn value_runs(alloc: Global, arguments: &[Arg]) -> Result<Option<Vec<ValueRun>>, NoMemory>
    ensures { IfOk result (λ found. option_map (λ v. v.items) found ≡ value_runs (map argument_of arguments.now)) }
{
    let mut found = Vec::new(alloc);
    let mut rest = arguments;
    while let [first, count, after @ ..] = rest {
        let Some(run) = Run::from_two(first, count) else {
            return Ok(None);
        };
        let count = run.count as usize;
        if after.len() < count {
            return Ok(None);
        }
        let (here, behind) = after.split_at(count);
        let Some(values) = singles::<i32>(alloc, here)? else {
            return Ok(None);
        };
        found.push(ValueRun::new(run.first, values))?;
        rest = behind;
    }
    if rest.is_empty() {
        Ok(Some(found))
    } else {
        Ok(None)
    }
}
