//! Arguments that repeat: a value is read from one, two or three of them, and then the next.
ghost use Rattle.std.specs.Prelude.{◌≡◌, map, IfOk};
ghost use Rattle.std.specs.Option.{option_map};
ghost use Rattle.sn_osc.specs.Shape.{argument_of};
ghost use Rattle.sn_world.specs.Rows.{singles, pairs, triples, some_of};
ghost use Rattle.sn_world.specs.NewNodes.{new_node};
ghost use Rattle.sn_world.specs.Freeing.{node_id};
ghost use Rattle.sn_world.specs.Runs.{place_run};
ghost use Rattle.sn_world.specs.Buses.{bus_number, bus_value, bus_fill};

use crate::repetition::{BusFill, BusNumber, BusValue, NewNode, NodeId, Run};
use sn_osc::Arg;
use sn_ports::NoMemory;
use std::alloc::Global;

/// A value that is read from one argument.
pub trait Single: Drop {
    ghost use Rattle.std.specs.Prelude.{Option, ◌≡◌};
    ghost use Rattle.sn_osc.specs.Shape.{Argument, argument_of};

    ghost from_one: { Argument → Option Self };

    /// What an argument says, if it is of this form.
    fn from_one(first: &Arg) -> Option<Self>
        ensures { result ≡ from_one (argument_of first.now) };
}

/// A value that is read from two arguments.
pub trait Pair: Drop {
    ghost use Rattle.std.specs.Prelude.{Option, ◌≡◌};
    ghost use Rattle.sn_osc.specs.Shape.{Argument, argument_of};

    ghost from_two: { Argument → Argument → Option Self };

    /// What two arguments say, if they are of this form.
    fn from_two(first: &Arg, second: &Arg) -> Option<Self>
        ensures { result ≡ from_two (argument_of first.now) (argument_of second.now) };
}

/// A value that is read from three arguments.
pub trait Triple: Drop {
    ghost use Rattle.std.specs.Prelude.{Option, ◌≡◌};
    ghost use Rattle.sn_osc.specs.Shape.{Argument, argument_of};

    ghost from_three: { Argument → Argument → Argument → Option Self };

    /// What three arguments say, if they are of this form.
    fn from_three(first: &Arg, second: &Arg, third: &Arg) -> Option<Self>
        ensures { result ≡ from_three (argument_of first.now) (argument_of second.now) (argument_of third.now) };
}

impl Single for BusNumber {
    ghost from_one = { bus_number };

    fn from_one(bus: &Arg) -> Option<BusNumber> {
        match bus {
            Arg::Int(bus) => Some(BusNumber { bus: *bus }),
            _ => None,
        }
    }
}

impl Pair for BusValue {
    ghost from_two = { bus_value };

    fn from_two(bus: &Arg, value: &Arg) -> Option<BusValue> {
        match (bus, value) {
            (Arg::Int(bus), Arg::Int(value)) => Some(BusValue {
                bus: *bus,
                value: *value,
            }),
            _ => None,
        }
    }
}

impl Pair for Run {
    ghost from_two = { place_run };

    fn from_two(first: &Arg, count: &Arg) -> Option<Run> {
        match (first, count) {
            (Arg::Int(first), Arg::Int(count)) if *count >= 0 => Some(Run {
                first: *first,
                count: *count as u32,
            }),
            _ => None,
        }
    }
}

impl Triple for BusFill {
    ghost from_three = { bus_fill };

    fn from_three(bus: &Arg, count: &Arg, value: &Arg) -> Option<BusFill> {
        match (bus, count, value) {
            (Arg::Int(bus), Arg::Int(count), Arg::Int(value)) if *count >= 0 => Some(BusFill {
                bus: *bus,
                count: *count as u32,
                value: *value,
            }),
            _ => None,
        }
    }
}

impl Single for NodeId {
    ghost from_one = { node_id };

    fn from_one(id: &Arg) -> Option<NodeId> {
        match id {
            Arg::Int(id) => Some(NodeId { id: *id }),
            _ => None,
        }
    }
}

impl Triple for NewNode {
    ghost from_three = { new_node };

    fn from_three(id: &Arg, action: &Arg, target: &Arg) -> Option<NewNode> {
        match (id, action, target) {
            (Arg::Int(id), Arg::Int(action), Arg::Int(target)) if *id >= -1 => Some(NewNode {
                id: *id,
                action: *action,
                target: *target,
            }),
            _ => None,
        }
    }
}

/// Repetitions of one argument.
pub fn singles<R: Single>(alloc: Global, arguments: &[Arg]) -> Result<Option<Vec<R>>, NoMemory>
    ensures { IfOk result (λ found. option_map (λ v. v.items) found ≡ singles R.from_one (map argument_of arguments.now)) }
{
    let mut found = Vec::new(alloc);
    for argument in arguments {
        let Some(single) = R::from_one(argument) else {
            return Ok(None);
        };
        found.push(single)?;
    }
    Ok(Some(found))
}

/// Repetitions of two arguments.
pub fn pairs<R: Pair>(alloc: Global, arguments: &[Arg]) -> Result<Option<Vec<R>>, NoMemory>
    ensures { IfOk result (λ found. option_map (λ v. v.items) found ≡ pairs R.from_two (map argument_of arguments.now)) }
{
    let mut found = Vec::new(alloc);
    let mut rest = arguments;
    while let [first, second, after @ ..] = rest {
        let Some(pair) = R::from_two(first, second) else {
            return Ok(None);
        };
        found.push(pair)?;
        rest = after;
    }
    if rest.is_empty() {
        Ok(Some(found))
    } else {
        Ok(None)
    }
}

/// Repetitions of three arguments.
pub fn triples<R: Triple>(alloc: Global, arguments: &[Arg]) -> Result<Option<Vec<R>>, NoMemory>
    ensures { IfOk result (λ found. option_map (λ v. v.items) found ≡ triples R.from_three (map argument_of arguments.now)) }
{
    let mut found = Vec::new(alloc);
    let mut rest = arguments;
    while let [first, second, third, after @ ..] = rest {
        let Some(triple) = R::from_three(first, second, third) else {
            return Ok(None);
        };
        found.push(triple)?;
        rest = after;
    }
    if rest.is_empty() {
        Ok(Some(found))
    } else {
        Ok(None)
    }
}

/// The repetitions, if there is at least one.
pub fn some_of<R: Drop>(found: Option<Vec<R>>) -> Option<Vec<R>>
    ensures { option_map (λ v. v.items) result ≡ some_of (option_map (λ v. v.items) found) }
{
    match found {
        Some(all) if !all.is_empty() => Some(all),
        _ => None,
    }
}
