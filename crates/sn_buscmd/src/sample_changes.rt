//! `/b_set`, `/b_setn` and `/b_fill`: samples of a buffer that are changed.
ghost use Rattle.std.specs.Prelude.{◌≡◌, ◌≤◌, ◌+◌, ℕ, ℤ, List, None, length, map};
ghost use Rattle.std.specs.List.{All};
ghost use Rattle.sn_osc.specs.Shape.{argument_of};
ghost use Rattle.sn_mem.specs.Words.{MayWrite, SameButWords};
ghost use Rattle.sn_reply.specs.Replies.{ReplyShape};
ghost use Rattle.sn_mem.specs.Buffers.{samples_of};
ghost use Rattle.sn_world.specs.BufferSamples.{change_all, changing, of_buffer, set_value, set_values, fill_values, set_row, setn_row, fill_row};
ghost use Rattle.sn_world.specs.Rows.{first_refusal};
ghost use Rattle.sn_world.specs.World.{turn_of};
ghost use Rattle.sn_world.specs.Pictures.{Pictures, WritesWorld, KeepsOutside};
ghost use Rattle.sn_world.specs.Answers.{Follows, UnlessFollowed};
ghost use Rattle.sn_buscmd.specs.Fills.{fill_samples};
ghost use Rattle.sn_buscmd.specs.Samples.{KeepsAround};

use crate::buffers::find;
use crate::fills::fills_of;
use crate::judging::{Judged, first_refusal};
use crate::repeating::{Repeated, number_and_all};
use crate::samples::{fill_samples, set_sample, set_samples};
use sn_fills::{Fill, once_each};
use sn_mem::{Extent, Port};
use sn_osc::Arg;
use sn_ports::NoMemory;
use sn_reply::Reason;
use sn_world::{SampleFill, SampleValue, Stage, ValueRun};
use std::alloc::Global;

/// What changes samples of a buffer.
pub trait SampleChange: Repeated {
    ghost use Rattle.std.specs.Prelude.{◌≡◌, List, ℤ, None, OnErr, OnOk};
    ghost use Rattle.sn_mem.specs.Words.{MayWrite};
    ghost use Rattle.sn_mem.specs.Buffers.{samples_of};
    ghost use Rattle.sn_world.specs.BufferSamples.{change_all};
    ghost use Rattle.sn_world.specs.Rows.{first_refusal};
    ghost use Rattle.sn_buscmd.specs.Samples.{KeepsAround};

    ghost change: { Self → List ℤ → List ℤ };

    /// Changes samples, in the words that hold those of a buffer, as all repetitions do one after the other.
    fn change_all<P: Port>(
        alloc: Global,
        port: &mut P,
        words: Extent,
        all: &[Self],
    ) -> Result<(), NoMemory>
        requires foot { MayWrite (P.foot port.old) words.at words.len }
        requires free { first_refusal (Self.judge words.len) all.now ≡ None }
        ensures samples { OnOk result (samples_of (P.words port.new) words ≡ change_all change all.now (samples_of (P.words port.old) words)) }
        ensures unchanged { OnErr result (P.words port.new ≡ P.words port.old) }
        ensures others { KeepsAround words (P.words port.old) (P.words port.new) }
        ensures port { SameButWords P.foot P.rest port.old port.new };
}

/// A change of no more samples than it has values.
trait ShortChange: Judged<u32> {
    ghost use Rattle.std.specs.Prelude.{◌≡◌, List, ℤ, None};
    ghost use Rattle.sn_mem.specs.Words.{MayWrite};
    ghost use Rattle.sn_mem.specs.Buffers.{samples_of};
    ghost use Rattle.sn_buscmd.specs.Samples.{KeepsAround};

    ghost change: { Self → List ℤ → List ℤ };

    /// Changes samples in the words that hold those of a buffer.
    fn change<P: Port>(&self, port: &mut P, words: Extent)
        requires foot { MayWrite (P.foot port.old) words.at words.len }
        requires free { Self.judge words.len self.now ≡ None }
        ensures samples { samples_of (P.words port.new) words ≡ change self.now (samples_of (P.words port.old) words) }
        ensures others { KeepsAround words (P.words port.old) (P.words port.new) }
        ensures port { SameButWords P.foot P.rest port.old port.new };
}

impl ShortChange for SampleValue {
    ghost change = { set_value };

    fn change<P: Port>(&self, port: &mut P, words: Extent) {
        set_sample(port, words, self.index as u32, self.value);
    }
}

impl ShortChange for ValueRun {
    ghost change = { set_values };

    fn change<P: Port>(&self, port: &mut P, words: Extent) {
        set_samples(port, words, self.first() as u32, self.values());
    }
}

/// Changes samples of a buffer, one repetition after the other.
fn change_each<R: ShortChange, P: Port>(port: &mut P, words: Extent, all: &[R])
    requires foot { MayWrite (P.foot port.old) words.at words.len }
    requires free { first_refusal (R.judge words.len) all.now ≡ None }
    ensures samples { samples_of (P.words port.new) words ≡ change_all R.change all.now (samples_of (P.words port.old) words) }
    ensures others { KeepsAround words (P.words port.old) (P.words port.new) }
    ensures port { SameButWords P.foot P.rest port.old port.new }
{
    for repetition in all {
        repetition.change(port, words);
    }
}

/// Fills samples of a buffer, one fill after the other.
fn fill_each<P: Port>(port: &mut P, words: Extent, fills: &[Fill])
    requires foot { MayWrite (P.foot port.old) words.at words.len }
    requires within { All (λ f. f.first + f.count ≤ words.len) fills.now }
    ensures samples { samples_of (P.words port.new) words ≡ change_all fill_samples fills.now (samples_of (P.words port.old) words) }
    ensures others { KeepsAround words (P.words port.old) (P.words port.new) }
    ensures port { SameButWords P.foot P.rest port.old port.new }
{
    for fill in fills {
        fill_samples(port, words, fill.first, fill.count, fill.value);
    }
}

impl SampleChange for SampleValue {
    ghost change = { set_value };

    fn change_all<P: Port>(
        _alloc: Global,
        port: &mut P,
        words: Extent,
        all: &[SampleValue],
    ) -> Result<(), NoMemory> {
        change_each(port, words, all);
        Ok(())
    }
}

impl SampleChange for ValueRun {
    ghost change = { set_values };

    fn change_all<P: Port>(
        _alloc: Global,
        port: &mut P,
        words: Extent,
        all: &[ValueRun],
    ) -> Result<(), NoMemory> {
        change_each(port, words, all);
        Ok(())
    }
}

impl SampleChange for SampleFill {
    ghost change = { fill_values };

    /// Each sample is set once.
    fn change_all<P: Port>(
        alloc: Global,
        port: &mut P,
        words: Extent,
        all: &[SampleFill],
    ) -> Result<(), NoMemory> {
        let fills = fills_of(alloc, all)?;
        let once = once_each(alloc, &fills)?;
        fill_each(port, words, &once);
        Ok(())
    }
}

/// A command that changes samples: number repetition..
///
/// All repetitions are judged before the first one acts.
fn run_sample_change<R: SampleChange, P: Port>(
    alloc: Global,
    stage: &Stage,
    port: &mut P,
    arguments: &[Arg],
) -> Result<Option<Reason>, NoMemory>
    requires pictures { Pictures stage.now (P.words port.old) }
    requires foot { WritesWorld (P.foot port.old) stage.now.pool.region }
    ensures row { (replies : List ReplyShape) → Follows result (of_buffer R.read (changing R.judge R.change) (map argument_of arguments.now) (turn_of stage.now (P.words port.old) replies)) (turn_of stage.now (P.words port.new) replies) }
    ensures untouched { UnlessFollowed result (P.words port.new ≡ P.words port.old) }
    ensures pictures { Pictures stage.now (P.words port.new) }
    ensures others { KeepsOutside stage.now.pool.region (P.words port.old) (P.words port.new) }
    ensures len { length (P.words port.new) ≡ length (P.words port.old) }
    ensures port { SameButWords P.foot P.rest port.old port.new }
{
    let Some((number, all)) = number_and_all::<R>(alloc, arguments)? else {
        return Ok(Some(Reason::Arguments));
    };
    let Some(place) = find(&stage.buffers, number) else {
        return Ok(Some(Reason::Buffer));
    };
    if let Some(reason) = first_refusal(&all, place.extent.len) {
        return Ok(Some(reason));
    }
    R::change_all(alloc, port, place.extent, &all)?;
    Ok(None)
}

/// `/b_set` number (index value)..
pub fn run_set_samples<P: Port>(
    alloc: Global,
    stage: &Stage,
    port: &mut P,
    arguments: &[Arg],
) -> Result<Option<Reason>, NoMemory>
    requires pictures { Pictures stage.now (P.words port.old) }
    requires foot { WritesWorld (P.foot port.old) stage.now.pool.region }
    ensures row { (from : ℕ) (replies : List ReplyShape) → Follows result (set_row from (map argument_of arguments.now) (turn_of stage.now (P.words port.old) replies)) (turn_of stage.now (P.words port.new) replies) }
    ensures untouched { UnlessFollowed result (P.words port.new ≡ P.words port.old) }
    ensures pictures { Pictures stage.now (P.words port.new) }
    ensures others { KeepsOutside stage.now.pool.region (P.words port.old) (P.words port.new) }
    ensures len { length (P.words port.new) ≡ length (P.words port.old) }
    ensures port { SameButWords P.foot P.rest port.old port.new }
{
    run_sample_change::<SampleValue, P>(alloc, stage, port, arguments)
}

/// `/b_setn` number (index count value..)..
pub fn run_set_sample_runs<P: Port>(
    alloc: Global,
    stage: &Stage,
    port: &mut P,
    arguments: &[Arg],
) -> Result<Option<Reason>, NoMemory>
    requires pictures { Pictures stage.now (P.words port.old) }
    requires foot { WritesWorld (P.foot port.old) stage.now.pool.region }
    ensures row { (from : ℕ) (replies : List ReplyShape) → Follows result (setn_row from (map argument_of arguments.now) (turn_of stage.now (P.words port.old) replies)) (turn_of stage.now (P.words port.new) replies) }
    ensures untouched { UnlessFollowed result (P.words port.new ≡ P.words port.old) }
    ensures pictures { Pictures stage.now (P.words port.new) }
    ensures others { KeepsOutside stage.now.pool.region (P.words port.old) (P.words port.new) }
    ensures len { length (P.words port.new) ≡ length (P.words port.old) }
    ensures port { SameButWords P.foot P.rest port.old port.new }
{
    run_sample_change::<ValueRun, P>(alloc, stage, port, arguments)
}

/// `/b_fill` number (index count value)..
pub fn run_fill_samples<P: Port>(
    alloc: Global,
    stage: &Stage,
    port: &mut P,
    arguments: &[Arg],
) -> Result<Option<Reason>, NoMemory>
    requires pictures { Pictures stage.now (P.words port.old) }
    requires foot { WritesWorld (P.foot port.old) stage.now.pool.region }
    ensures row { (from : ℕ) (replies : List ReplyShape) → Follows result (fill_row from (map argument_of arguments.now) (turn_of stage.now (P.words port.old) replies)) (turn_of stage.now (P.words port.new) replies) }
    ensures untouched { UnlessFollowed result (P.words port.new ≡ P.words port.old) }
    ensures pictures { Pictures stage.now (P.words port.new) }
    ensures others { KeepsOutside stage.now.pool.region (P.words port.old) (P.words port.new) }
    ensures len { length (P.words port.new) ≡ length (P.words port.old) }
    ensures port { SameButWords P.foot P.rest port.old port.new }
{
    run_sample_change::<SampleFill, P>(alloc, stage, port, arguments)
}
