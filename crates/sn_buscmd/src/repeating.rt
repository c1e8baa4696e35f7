//! What commands on the samples of a buffer repeat: how it is read, and what is against it.
ghost use Rattle.std.specs.Prelude.{◌≡◌, map, IfOk};
ghost use Rattle.std.specs.Option.{option_map};
ghost use Rattle.sn_osc.specs.Shape.{Argument, argument_of};
ghost use Rattle.sn_world.specs.Rows.{singles, pairs, triples};
ghost use Rattle.sn_world.specs.Runs.{value_runs};
ghost use Rattle.sn_world.specs.BufferSamples.{is_sample, is_run, sample_refusal, run_refusal, begin_right, right_runs, few_asked, sample_index, sample_value, sample_run, sample_fill};
ghost use Rattle.sn_buscmd.specs.SampleCommands.{numbered};

use crate::counting::asks_few;
use crate::judging::Judged;
use sn_osc::Arg;
use sn_ports::NoMemory;
use sn_reply::Reason;
use sn_world::{
    SampleFill, SampleIndex, SampleRun, SampleValue, Single, ValueRun, pairs, singles, some_of,
    triples, value_runs,
};
use std::alloc::Global;

/// What a command on the samples of a buffer repeats, judged by the number of samples.
pub trait Repeated: Judged<u32> + Drop {
    ghost use Rattle.std.specs.Prelude.{List, Option, ◌≡◌, map, IfOk};
    ghost use Rattle.std.specs.Option.{option_map};
    ghost use Rattle.sn_osc.specs.Shape.{Argument, argument_of};

    ghost read: { List Argument → Option (List Self) };

    /// The repetitions that arguments say.
    fn read(alloc: Global, arguments: &[Arg]) -> Result<Option<Vec<Self>>, NoMemory>
        ensures { IfOk result (λ found. option_map (λ v. v.items) found ≡ read (map argument_of arguments.now)) };
}

fn is_sample(size: u32, index: i32) -> bool
    ensures { result ≡ is_sample size index }
{
    if index < 0 {
        return false;
    }
    (index as u32) < size
}

fn sample_refusal(size: u32, index: i32) -> Option<Reason>
    ensures { result ≡ sample_refusal size index }
{
    if !is_sample(size, index) {
        return Some(Reason::SampleIndex);
    }
    None
}

fn is_run(size: u32, first: i32, count: u64) -> bool
    ensures { result ≡ is_run size first count }
{
    if first < 0 {
        return false;
    }
    let first = first as u64;
    let size = u64::from(size);
    first < size && count <= size - first
}

fn run_refusal(size: u32, first: i32, count: u64) -> Option<Reason>
    ensures { result ≡ run_refusal size first count }
{
    if !is_run(size, first, count) {
        return Some(Reason::SampleIndex);
    }
    None
}

impl Judged<u32> for SampleIndex {
    ghost judge = { λ size r. sample_refusal size r.index };

    fn refusal(&self, size: u32) -> Option<Reason> {
        sample_refusal(size, self.index)
    }
}

impl Judged<u32> for SampleValue {
    ghost judge = { λ size r. sample_refusal size r.index };

    fn refusal(&self, size: u32) -> Option<Reason> {
        sample_refusal(size, self.index)
    }
}

impl Judged<u32> for SampleRun {
    ghost judge = { λ size r. run_refusal size r.first r.count };

    fn refusal(&self, size: u32) -> Option<Reason> {
        run_refusal(size, self.first, u64::from(self.count))
    }
}

impl Judged<u32> for SampleFill {
    ghost judge = { λ size r. run_refusal size r.first r.count };

    fn refusal(&self, size: u32) -> Option<Reason> {
        run_refusal(size, self.first, u64::from(self.count))
    }
}

impl Judged<u32> for ValueRun {
    ghost use Rattle.std.specs.Prelude.{length};

    ghost judge = { λ size r. run_refusal size r.first (length r.values) };

    fn refusal(&self, size: u32) -> Option<Reason> {
        run_refusal(size, self.first(), self.values().len() as u64)
    }
}

impl Repeated for SampleIndex {
    ghost read = { singles sample_index };

    fn read(alloc: Global, arguments: &[Arg]) -> Result<Option<Vec<SampleIndex>>, NoMemory> {
        singles(alloc, arguments)
    }
}

impl Repeated for SampleValue {
    ghost read = { pairs sample_value };

    fn read(alloc: Global, arguments: &[Arg]) -> Result<Option<Vec<SampleValue>>, NoMemory> {
        pairs(alloc, arguments)
    }
}

impl Repeated for SampleRun {
    ghost use Rattle.std.specs.Prelude.{List};

    ghost read = { λ (xs : List Argument). few_asked (pairs sample_run xs) };

    fn read(alloc: Global, arguments: &[Arg]) -> Result<Option<Vec<SampleRun>>, NoMemory> {
        match pairs::<SampleRun>(alloc, arguments)? {
            Some(runs) if asks_few(&runs) => Ok(Some(runs)),
            _ => Ok(None),
        }
    }
}

impl Repeated for SampleFill {
    ghost read = { triples sample_fill };

    fn read(alloc: Global, arguments: &[Arg]) -> Result<Option<Vec<SampleFill>>, NoMemory> {
        triples(alloc, arguments)
    }
}

/// Whether no run begins below 0.
fn begin_right(runs: &[ValueRun]) -> bool
    ensures { result ≡ begin_right runs.now }
{
    for run in runs {
        if run.first() < 0 {
            return false;
        }
    }
    true
}

impl Repeated for ValueRun {
    ghost use Rattle.std.specs.Prelude.{List};

    ghost read = { λ (xs : List Argument). right_runs (value_runs xs) };

    fn read(alloc: Global, arguments: &[Arg]) -> Result<Option<Vec<ValueRun>>, NoMemory> {
        match value_runs(alloc, arguments)? {
            Some(runs) if begin_right(&runs) => Ok(Some(runs)),
            _ => Ok(None),
        }
    }
}

/// The number of a buffer, and at least one repetition after it.
pub fn number_and_all<R: Repeated>(
    alloc: Global,
    arguments: &[Arg],
) -> Result<Option<(i32, Vec<R>)>, NoMemory>
    ensures { IfOk result (λ found. option_map (λ p. (p.0, p.1.items)) found ≡ numbered R.read (map argument_of arguments.now)) }
{
    let Some((first, rest)) = arguments.split_first() else {
        return Ok(None);
    };
    let Some(number) = i32::from_one(first) else {
        return Ok(None);
    };
    let Some(all) = some_of(R::read(alloc, rest)?) else {
        return Ok(None);
    };
    Ok(Some((number, all)))
}
