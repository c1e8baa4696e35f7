//! Questions for the values of runs of buses.
ghost use Rattle.std.specs.Prelude.{◌≡◌, ◌+◌, ◌*◌, ◌^◌, ◌<◌, ◌≤◌, ◌++◌, nat_abs, length, map, None, IfOk, OnOk};
ghost use Rattle.sn_ports.specs.Limits.{most_values};
ghost use Rattle.sn_osc.specs.Shape.{argument_of, message_of};
ghost use Rattle.sn_mem.specs.Words.{SameButWords};
ghost use Rattle.sn_reply.specs.Sending.{IsSendable};
ghost use Rattle.sn_mem.specs.Buses.{control_buses};
ghost use Rattle.sn_world.specs.declared.stage.Stage.{Stage};
ghost use Rattle.sn_world.specs.World.{turn_of};
ghost use Rattle.sn_world.specs.Pictures.{WritesBuses};
ghost use Rattle.sn_world.specs.Rows.{first_refusal};
ghost use Rattle.sn_world.specs.Buses.{run_refusal};
ghost use Rattle.sn_world.specs.Runs.{total_count, values_from, runs_and_values, answer_getn, getn_row};
ghost use Rattle.sn_world.specs.Answers.{Follows, UnlessFollowed};
ghost use Rattle.sn_buscmd.specs.Setting.{place_refusal};

use crate::asking::value_at;
use crate::counting::asks_few;
use crate::judging::first_refusal;
use sn_mem::Port;
use sn_osc::{Address, Arg, Args, Body, Message};
use sn_ports::NoMemory;
use sn_reply::{Reason, Replies, To};
use sn_world::{Run, pairs, some_of};
use std::alloc::Global;

/// Appends the values of control buses in a row to arguments.
fn push_values<P: Port>(port: &mut P, run: &Run, found: &mut Vec<Arg>) -> Result<(), NoMemory>
    requires run { run_refusal run.now.first run.now.count ≡ None }
    requires foot { WritesBuses (P.foot port.old) }
    ensures values { OnOk result (map argument_of found.new.items ≡ map argument_of found.old.items ++ values_from (control_buses (P.words port.old)) (nat_abs run.now.first) run.now.count) }
    ensures words { P.words port.new ≡ P.words port.old }
    ensures port { SameButWords P.foot P.rest port.old port.new }
{
    let first = run.first as u32;
    let end = first + run.count;
    for number in first..end {
        found.push(Arg::Int(value_at(port, number)))?;
    }
    Ok(())
}

/// Runs of control buses, each with its values.
fn runs_and_values<P: Port>(alloc: Global, port: &mut P, runs: &[Run]) -> Result<Args, NoMemory>
    requires all { first_refusal place_refusal runs.now ≡ None }
    requires foot { WritesBuses (P.foot port.old) }
    ensures values { IfOk result (λ found. map argument_of found ≡ runs_and_values (control_buses (P.words port.old)) runs.now) }
    ensures words { P.words port.new ≡ P.words port.old }
    ensures port { SameButWords P.foot P.rest port.old port.new }
{
    let mut found = Vec::new(alloc);
    for run in runs {
        found.push(Arg::Int(run.first))?;
        found.push(Arg::Int(run.count as i32))?;
        push_values(port, run, &mut found)?;
    }
    Ok(Args::from_vec(found))
}

/// The message `/c_setn` with runs and their values.
fn answer<P: Port>(alloc: Global, port: &mut P, runs: &[Run]) -> Result<Message, NoMemory>
    requires all { first_refusal place_refusal runs.now ≡ None }
    requires few { 16 * length runs.now + 2 ^ 20 < 2 ^ 31 }
    requires values { total_count runs.now ≤ most_values }
    requires foot { WritesBuses (P.foot port.old) }
    ensures message { IfOk result (λ m. message_of m ≡ answer_getn (control_buses (P.words port.old)) runs.now) }
    ensures sendable { IfOk result (λ m. IsSendable (message_of m)) }
    ensures words { P.words port.new ≡ P.words port.old }
    ensures port { SameButWords P.foot P.rest port.old port.new }
{
    let arguments = runs_and_values(alloc, port, runs)?;
    Ok(Message {
        address: Address::from_slice(alloc, b"/c_setn")?,
        body: Body::Args(arguments),
    })
}

/// `/c_getn` (bus count)..
pub fn run_get_runs<P: Port>(
    alloc: Global,
    port: &mut P,
    arguments: &[Arg],
    from: u32,
    replies: &mut Replies,
) -> Result<Option<Reason>, NoMemory>
    requires few { 16 * length arguments.now + 2 ^ 20 < 2 ^ 31 }
    requires foot { WritesBuses (P.foot port.old) }
    ensures row { (stage : Stage) → Follows result (getn_row from (map argument_of arguments.now) (turn_of stage (P.words port.old) replies.old)) (turn_of stage (P.words port.old) replies.new) }
    ensures unchanged { UnlessFollowed result (replies.new ≡ replies.old) }
    ensures words { P.words port.new ≡ P.words port.old }
    ensures port { SameButWords P.foot P.rest port.old port.new }
{
    let Some(all) = some_of(pairs::<Run>(alloc, arguments)?) else {
        return Ok(Some(Reason::Arguments));
    };
    if !asks_few(&all) {
        return Ok(Some(Reason::Arguments));
    }
    if let Some(reason) = first_refusal(&all, ()) {
        return Ok(Some(reason));
    }
    let message = answer(alloc, port, &all)?;
    replies.push(To::Client(from), message)?;
    Ok(None)
}
