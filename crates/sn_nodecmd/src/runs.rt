//! Runs of controls: how they are read.
ghost use Rattle.std.specs.Prelude.{◌≡◌, ◌<◌, ◌≤◌, ◌∷◌, [], map, drop, replicate, length, Some, IfOk, IfSome, MatchOption, FitsSigned};
ghost use Rattle.std.specs.Int.{w32};
ghost use Rattle.std.specs.Option.{option_map};
ghost use Rattle.std.specs.List.{list_all};
ghost use Rattle.sn_osc.specs.Shape.{argument_of};
ghost use Rattle.sn_world.specs.NewSynth.{control_name};
ghost use Rattle.sn_world.specs.Runs as given;
ghost use Rattle.sn_world.specs.ControlRuns.{count_of, one_value, first_values, same_values, left_after, run_with, value_run, values_run, fill_run, repeated};
ghost use Rattle.sn_nodecmd.specs.Runs.{is_int, value_in, values_of, run_of, read_of, reader};

use crate::latest::{Covering, is_same};
use crate::names::{NamedControl, control_name};
use sn_osc::Arg;
use sn_ports::NoMemory;
use std::alloc::Global;

/// Values for a control and the controls that follow it.
#[derive(Clone, Copy)]
pub enum RunValues<'a> {
    /// The number of each of these arguments.
    Each(&'a [Arg]),
    /// One number so often.
    Same { value: i32, count: u32 },
}

/// A control, and values for it and the controls that follow it.
#[derive(Clone, Copy)]
pub struct Run<'a> {
    pub control: NamedControl<'a>,
    pub values: RunValues<'a>,
}

impl Covering for Run<'_> {
    ghost use Rattle.sn_nodecmd.specs.Runs.{run_of};
    ghost use Rattle.sn_nodecmd.specs.Covering.{Covers};

    ghost covered = { λ r later. Covers (run_of r) (run_of later) };

    fn control(&self) -> NamedControl<'_> {
        self.control
    }

    fn is_covered_by(&self, later: &Self) -> bool {
        is_same(self.control, later.control)
            && value_count(self.values) <= value_count(later.values)
    }
}

/// How many values these are.
pub fn value_count(values: RunValues<'_>) -> usize
    ensures { result ≡ length (values_of values.entry) }
{
    match values {
        RunValues::Each(arguments) => arguments.len(),
        RunValues::Same { value: _, count } => count as usize,
    }
}

/// A run, and the arguments after it.
#[derive(Clone, Copy)]
pub struct ReadRun<'a> {
    pub run: Run<'a>,
    pub rest: &'a [Arg],
}

/// How a run is read.
#[derive(Clone, Copy, PartialEq, Eq)]
pub enum RunForm {
    /// control value
    Value,
    /// control count value..
    Values,
    /// control count value
    Fill,
}

fn count_of(argument: &Arg) -> Option<u32>
    ensures { result ≡ count_of (argument_of argument.now) }
{
    match argument {
        Arg::Int(count) if *count >= 0 => Some(*count as u32),
        _ => None,
    }
}

fn is_int(argument: &Arg) -> bool
    ensures { result ≡ is_int (argument_of argument.now) }
{
    matches!(argument, Arg::Int(_))
}

/// A value for one control.
fn one_value<'a>(value: &Arg) -> Option<RunValues<'a>>
    ensures { option_map values_of result ≡ one_value (given.number (argument_of value.now)) }
{
    match value {
        Arg::Int(value) => Some(RunValues::Same {
            value: *value,
            count: 1,
        }),
        _ => None,
    }
}

/// One value for `count` controls.
fn same_values<'a>(count: u32, value: &Arg) -> Option<RunValues<'a>>
    ensures { option_map values_of result ≡ same_values (Some count) (given.number (argument_of value.now)) }
{
    match value {
        Arg::Int(value) => Some(RunValues::Same {
            value: *value,
            count,
        }),
        _ => None,
    }
}

fn are_ints(arguments: &[Arg]) -> bool
    ensures { result ≡ list_all (λ a. is_int (argument_of a)) arguments.now }
{
    arguments.iter().all(|argument| is_int(argument))
}

/// `count` values, with which the arguments begin.
fn first_values(count: u32, arguments: &[Arg]) -> Option<RunValues<'_>>
    ensures within { IfSome result (λ _. count ≤ length arguments.now) }
    ensures values { option_map values_of result ≡ first_values (Some count) (map argument_of arguments.now) }
{
    let count = count as usize;
    if count > arguments.len() {
        return None;
    }
    let values = &arguments[..count];
    if !are_ints(values) {
        return None;
    }
    Some(RunValues::Each(values))
}

/// The arguments after so many.
fn past(arguments: &[Arg], count: u32) -> &[Arg]
    requires within { count ≤ length arguments.now }
    ensures arguments { map argument_of result.now ≡ drop count (map argument_of arguments.now) }
    ensures fewer { length result.now ≤ length arguments.now }
{
    &arguments[count as usize..]
}

fn read_value<'a>(control: &'a Arg, value: &Arg, rest: &'a [Arg]) -> Option<ReadRun<'a>>
    ensures read { option_map read_of result ≡ run_with (control_name (argument_of control.now)) (one_value (given.number (argument_of value.now))) (map argument_of rest.now) }
    ensures fewer { IfSome result (λ r. length r.rest.now ≤ length rest.now) }
{
    let Some(control) = control_name(control) else {
        return None;
    };
    let Some(values) = one_value(value) else {
        return None;
    };
    Some(ReadRun {
        run: Run { control, values },
        rest,
    })
}

fn read_values<'a>(control: &'a Arg, count: &Arg, rest: &'a [Arg]) -> Option<ReadRun<'a>>
    ensures read { option_map read_of result ≡ run_with (control_name (argument_of control.now)) (first_values (count_of (argument_of count.now)) (map argument_of rest.now)) (left_after (count_of (argument_of count.now)) (map argument_of rest.now)) }
    ensures fewer { IfSome result (λ r. length r.rest.now ≤ length rest.now) }
{
    let Some(control) = control_name(control) else {
        return None;
    };
    let Some(count) = count_of(count) else {
        return None;
    };
    let Some(values) = first_values(count, rest) else {
        return None;
    };
    Some(ReadRun {
        run: Run { control, values },
        rest: past(rest, count),
    })
}

fn read_fill<'a>(control: &'a Arg, count: &Arg, value: &Arg, rest: &'a [Arg]) -> Option<ReadRun<'a>>
    ensures read { option_map read_of result ≡ run_with (control_name (argument_of control.now)) (same_values (count_of (argument_of count.now)) (given.number (argument_of value.now))) (map argument_of rest.now) }
    ensures fewer { IfSome result (λ r. length r.rest.now ≤ length rest.now) }
{
    let Some(control) = control_name(control) else {
        return None;
    };
    let Some(count) = count_of(count) else {
        return None;
    };
    let Some(values) = same_values(count, value) else {
        return None;
    };
    Some(ReadRun {
        run: Run { control, values },
        rest,
    })
}

fn value_run(arguments: &[Arg]) -> Option<ReadRun<'_>>
    ensures read { option_map read_of result ≡ value_run (map argument_of arguments.now) }
    ensures fewer { IfSome result (λ r. length r.rest.now < length arguments.now) }
{
    let [control, value, rest @ ..] = arguments else {
        return None;
    };
    read_value(control, value, rest)
}

fn values_run(arguments: &[Arg]) -> Option<ReadRun<'_>>
    ensures read { option_map read_of result ≡ values_run (map argument_of arguments.now) }
    ensures fewer { IfSome result (λ r. length r.rest.now < length arguments.now) }
{
    let [control, count, rest @ ..] = arguments else {
        return None;
    };
    read_values(control, count, rest)
}

fn fill_run(arguments: &[Arg]) -> Option<ReadRun<'_>>
    ensures read { option_map read_of result ≡ fill_run (map argument_of arguments.now) }
    ensures fewer { IfSome result (λ r. length r.rest.now < length arguments.now) }
{
    let [control, count, value, rest @ ..] = arguments else {
        return None;
    };
    read_fill(control, count, value, rest)
}

/// The run that arguments begin with, and the arguments after it.
pub fn read_run(form: RunForm, arguments: &[Arg]) -> Option<ReadRun<'_>>
    ensures read { option_map read_of result ≡ reader form (map argument_of arguments.now) }
    ensures fewer { IfSome result (λ r. length r.rest.now < length arguments.now) }
{
    match form {
        RunForm::Value => value_run(arguments),
        RunForm::Values => values_run(arguments),
        RunForm::Fill => fill_run(arguments),
    }
}

/// The runs that arguments give, one after the other.
pub fn runs_of(
    alloc: Global,
    form: RunForm,
    arguments: &[Arg],
) -> Result<Option<Vec<Run<'_>>>, NoMemory>
    ensures { IfOk result (λ found. option_map (λ v. map run_of v.items) found ≡ repeated (reader form) (length (map argument_of arguments.now)) (map argument_of arguments.now)) }
{
    let mut found = Vec::new(alloc);
    let mut rest = arguments;
    while 0 < rest.len() {
        let Some(read) = read_run(form, rest) else {
            return Ok(None);
        };
        found.push(read.run)?;
        rest = read.rest;
    }
    Ok(Some(found))
}

/// The first of the values, and the others.
pub fn split_first(values: RunValues<'_>) -> Option<(i32, RunValues<'_>)>
    ensures split { MatchOption result (values_of values.entry ≡ []) (λ v. values_of values.entry ≡ v.0 ∷ values_of v.1) }
    ensures fits { IfSome result (λ v. FitsSigned w32 v.0) }
{
    match values {
        RunValues::Each(arguments) => split_each(arguments),
        RunValues::Same { value, count } => split_same(value, count),
    }
}

fn int_in(argument: &Arg) -> i32
    ensures value { result ≡ value_in (argument_of argument.now) }
    ensures fits { FitsSigned w32 result }
{
    match argument {
        Arg::Int(value) => *value,
        _ => 0,
    }
}

fn split_each(arguments: &[Arg]) -> Option<(i32, RunValues<'_>)>
    ensures split { MatchOption result (map argument_of arguments.now ≡ []) (λ v. map value_in (map argument_of arguments.now) ≡ v.0 ∷ values_of v.1) }
    ensures fits { IfSome result (λ v. FitsSigned w32 v.0) }
{
    let (first, rest) = arguments.split_first()?;
    Some((int_in(first), RunValues::Each(rest)))
}

fn split_same<'a>(value: i32, count: u32) -> Option<(i32, RunValues<'a>)>
    ensures split { MatchOption result (replicate count value ≡ []) (λ v. replicate count value ≡ v.0 ∷ values_of v.1) }
    ensures fits { IfSome result (λ v. FitsSigned w32 v.0) }
{
    if count == 0 {
        return None;
    }
    Some((
        value,
        RunValues::Same {
            value,
            count: count - 1,
        },
    ))
}
