//! `/b_get` and `/b_getn`: samples of a buffer that are asked for.
ghost use Rattle.std.specs.Prelude.{◌≡◌, ◌≤◌, ◌<◌, ◌+◌, ◌*◌, ◌^◌, ◌∷◌, ◌++◌, ℤ, List, None, Some, length, map, IfOk, OnOk};
ghost use Rattle.sn_osc.specs.Shape.{Argument, int, argument_of, message_of};
ghost use Rattle.sn_mem.specs.Words.{MayWrite, SameButWords};
ghost use Rattle.sn_reply.specs.Answering.{IsAddress};
ghost use Rattle.sn_reply.specs.Sending.{IsSendable};
ghost use Rattle.sn_mem.specs.Buffers.{samples_of};
ghost use Rattle.sn_world.specs.BufferSamples.{answers, answered_with, asking, of_buffer, index_and_value, run_and_values, values_from, get_row, getn_row};
ghost use Rattle.sn_world.specs.Rows.{first_refusal};
ghost use Rattle.sn_world.specs.World.{turn_of};
ghost use Rattle.sn_world.specs.Pictures.{Pictures, WritesWorld};
ghost use Rattle.sn_world.specs.Answers.{Follows, UnlessFollowed};
ghost use Rattle.sn_buscmd.specs.SampleCommands.{numbered, AreFew};

use crate::buffers::find;
use crate::judging::first_refusal;
use crate::repeating::{Repeated, number_and_all};
use crate::samples::sample_at;
use sn_mem::{Extent, Port};
use sn_osc::{Arg, Message};
use sn_ports::NoMemory;
use sn_reply::{Answer, Reason, Replies, To};
use sn_world::{SampleIndex, SampleRun, Stage};
use std::alloc::Global;

/// What asks for samples of a buffer.
pub trait SampleQuestion: Repeated {
    ghost use Rattle.std.specs.Prelude.{◌≡◌, ◌<◌, ◌^◌, ◌++◌, List, ℤ, None, length, OnOk};
    ghost use Rattle.sn_osc.specs.Shape.{Argument};
    ghost use Rattle.sn_mem.specs.Words.{MayWrite};
    ghost use Rattle.sn_mem.specs.Buffers.{samples_of};

    ghost answer: { List ℤ → Self → List Argument };

    /// Appends what it asks for to what is answered already.
    fn push_answer<P: Port>(
        &self,
        port: &mut P,
        words: Extent,
        found: &mut Answer,
    ) -> Result<(), NoMemory>
        requires foot { MayWrite (P.foot port.old) words.at words.len }
        requires free { Self.judge words.len self.now ≡ None }
        requires few { length (answer (samples_of (P.words port.old) words) self.now) < 2 ^ 31 }
        ensures answered { OnOk result (found.new ≡ found.old ++ answer (samples_of (P.words port.old) words) self.now) }
        ensures words { P.words port.new ≡ P.words port.old }
        ensures port { SameButWords P.foot P.rest port.old port.new };
}

impl SampleQuestion for SampleIndex {
    ghost answer = { index_and_value };

    fn push_answer<P: Port>(
        &self,
        port: &mut P,
        words: Extent,
        found: &mut Answer,
    ) -> Result<(), NoMemory> {
        found.push_int(self.index)?;
        found.push_int(sample_at(port, words, self.index as u32))
    }
}

/// Appends samples in a row to what is answered already.
fn push_samples<P: Port>(
    port: &mut P,
    words: Extent,
    first: u32,
    count: u32,
    found: &mut Answer,
) -> Result<(), NoMemory>
    requires foot { MayWrite (P.foot port.old) words.at words.len }
    requires run { first + count ≤ words.len }
    ensures answered { OnOk result (found.new ≡ found.old ++ values_from (samples_of (P.words port.old) words) first count) }
    ensures words { P.words port.new ≡ P.words port.old }
    ensures port { SameButWords P.foot P.rest port.old port.new }
{
    let end = first + count;
    for index in first..end {
        found.push_int(sample_at(port, words, index))?;
    }
    Ok(())
}

impl SampleQuestion for SampleRun {
    ghost answer = { run_and_values };

    fn push_answer<P: Port>(
        &self,
        port: &mut P,
        words: Extent,
        found: &mut Answer,
    ) -> Result<(), NoMemory> {
        found.push_int(self.first)?;
        found.push_int(self.count as i32)?;
        push_samples(port, words, self.first as u32, self.count, found)?;
        Ok(())
    }
}

/// Appends what all repetitions ask for to what is answered already.
fn push_answers<R: SampleQuestion, P: Port>(
    port: &mut P,
    words: Extent,
    all: &[R],
    found: &mut Answer,
) -> Result<(), NoMemory>
    requires foot { MayWrite (P.foot port.old) words.at words.len }
    requires free { first_refusal (R.judge words.len) all.now ≡ None }
    requires few { length (answers R.answer (samples_of (P.words port.old) words) all.now) < 2 ^ 31 }
    ensures answered { OnOk result (found.new ≡ found.old ++ answers R.answer (samples_of (P.words port.old) words) all.now) }
    ensures words { P.words port.new ≡ P.words port.old }
    ensures port { SameButWords P.foot P.rest port.old port.new }
{
    for repetition in all {
        repetition.push_answer(port, words, found)?;
    }
    Ok(())
}

/// The message with the number of a buffer and what is asked for.
fn answer_with<R: SampleQuestion, P: Port>(
    alloc: Global,
    address: &[u8],
    port: &mut P,
    words: Extent,
    number: i32,
    all: &[R],
) -> Result<Message, NoMemory>
    requires address { IsAddress address.now }
    requires foot { MayWrite (P.foot port.old) words.at words.len }
    requires free { first_refusal (R.judge words.len) all.now ≡ None }
    requires few { AreFew (int number ∷ answers R.answer (samples_of (P.words port.old) words) all.now) }
    ensures message { IfOk result (λ m. message_of m ≡ answered_with address.now number (answers R.answer (samples_of (P.words port.old) words) all.now)) }
    ensures sendable { IfOk result (λ m. IsSendable (message_of m)) }
    ensures words { P.words port.new ≡ P.words port.old }
    ensures port { SameButWords P.foot P.rest port.old port.new }
{
    let mut answer = Answer::new(alloc);
    answer.push_int(number)?;
    push_answers(port, words, all, &mut answer)?;
    answer.into_long_message(address)
}

/// A command that asks for samples: number repetition..
fn run_sample_question<R: SampleQuestion, P: Port>(
    alloc: Global,
    address: &[u8],
    stage: &Stage,
    port: &mut P,
    arguments: &[Arg],
    from: u32,
    replies: &mut Replies,
) -> Result<Option<Reason>, NoMemory>
    requires address { IsAddress address.now }
    requires few { (n : ℤ) (rs : List R) (samples : List ℤ) → Some (n, rs) ≡ numbered R.read (map argument_of arguments.now) → AreFew (int n ∷ answers R.answer samples rs) }
    requires pictures { Pictures stage.now (P.words port.old) }
    requires foot { WritesWorld (P.foot port.old) stage.now.pool.region }
    ensures row { Follows result (of_buffer R.read (asking R.judge R.answer address.now from) (map argument_of arguments.now) (turn_of stage.now (P.words port.old) replies.old)) (turn_of stage.now (P.words port.old) replies.new) }
    ensures untold { UnlessFollowed result (replies.new ≡ replies.old) }
    ensures words { P.words port.new ≡ P.words port.old }
    ensures port { SameButWords P.foot P.rest port.old port.new }
{
    let Some((number, all)) = number_and_all::<R>(alloc, arguments)? else {
        return Ok(Some(Reason::Arguments));
    };
    let Some(place) = find(&stage.buffers, number) else {
        return Ok(Some(Reason::Buffer));
    };
    if let Some(reason) = first_refusal(&all, place.extent.len) {
        return Ok(Some(reason));
    }
    let message = answer_with(alloc, address, port, place.extent, number, &all)?;
    replies.push(To::Client(from), message)?;
    Ok(None)
}

/// `/b_get` number index..
pub fn run_get_samples<P: Port>(
    alloc: Global,
    stage: &Stage,
    port: &mut P,
    arguments: &[Arg],
    from: u32,
    replies: &mut Replies,
) -> Result<Option<Reason>, NoMemory>
    requires few { 20 * length arguments.now + 2 ^ 20 < 2 ^ 31 }
    requires pictures { Pictures stage.now (P.words port.old) }
    requires foot { WritesWorld (P.foot port.old) stage.now.pool.region }
    ensures row { Follows result (get_row from (map argument_of arguments.now) (turn_of stage.now (P.words port.old) replies.old)) (turn_of stage.now (P.words port.old) replies.new) }
    ensures untold { UnlessFollowed result (replies.new ≡ replies.old) }
    ensures words { P.words port.new ≡ P.words port.old }
    ensures port { SameButWords P.foot P.rest port.old port.new }
{
    run_sample_question::<SampleIndex, P>(alloc, b"/b_set", stage, port, arguments, from, replies)
}

/// `/b_getn` number (index count)..
pub fn run_get_sample_runs<P: Port>(
    alloc: Global,
    stage: &Stage,
    port: &mut P,
    arguments: &[Arg],
    from: u32,
    replies: &mut Replies,
) -> Result<Option<Reason>, NoMemory>
    requires few { 20 * length arguments.now + 2 ^ 20 < 2 ^ 31 }
    requires pictures { Pictures stage.now (P.words port.old) }
    requires foot { WritesWorld (P.foot port.old) stage.now.pool.region }
    ensures row { Follows result (getn_row from (map argument_of arguments.now) (turn_of stage.now (P.words port.old) replies.old)) (turn_of stage.now (P.words port.old) replies.new) }
    ensures untold { UnlessFollowed result (replies.new ≡ replies.old) }
    ensures words { P.words port.new ≡ P.words port.old }
    ensures port { SameButWords P.foot P.rest port.old port.new }
{
    run_sample_question::<SampleRun, P>(alloc, b"/b_setn", stage, port, arguments, from, replies)
}
