//! Questions for values.
ghost use Rattle.std.specs.Prelude.{◌≡◌, ◌+◌, ◌*◌, ◌^◌, ◌<◌, length, map, None, IfOk};
ghost use Rattle.sn_ports.specs.Limits.{control_bus_count};
ghost use Rattle.sn_osc.specs.Shape.{argument_of, message_of};
ghost use Rattle.sn_mem.specs.Words.{SameButWords};
ghost use Rattle.sn_reply.specs.Sending.{IsSendable};
ghost use Rattle.sn_mem.specs.Buses.{control_buses};
ghost use Rattle.sn_world.specs.declared.stage.Stage.{Stage};
ghost use Rattle.sn_world.specs.World.{turn_of};
ghost use Rattle.sn_world.specs.Pictures.{WritesBuses};
ghost use Rattle.sn_world.specs.Rows.{first_refusal};
ghost use Rattle.sn_world.specs.Buses.{bus_refusal, value_at, value_of, buses_and_values, answer_get, get_row};
ghost use Rattle.sn_world.specs.Answers.{Follows, UnlessFollowed};
ghost use Rattle.sn_buscmd.specs.Setting.{number_refusal};

use crate::judging::{first_refusal, value_place};
use sn_mem::{Port, sample_of};
use sn_osc::{Address, Arg, Args, Body, Message};
use sn_ports::NoMemory;
use sn_reply::{Reason, Replies, To};
use sn_world::{BusNumber, singles, some_of};
use std::alloc::Global;

/// The value of a control bus.
fn value_of<P: Port>(port: &mut P, number: &BusNumber) -> i32
    requires bus { bus_refusal number.now.bus ≡ None }
    requires foot { WritesBuses (P.foot port.old) }
    ensures value { result ≡ value_of (control_buses (P.words port.old)) number.now.bus }
    ensures words { P.words port.new ≡ P.words port.old }
    ensures port { SameButWords P.foot P.rest port.old port.new }
{
    sample_of(port.load(value_place(number.bus)))
}

/// The value of the control bus with a number.
pub fn value_at<P: Port>(port: &mut P, number: u32) -> i32
    requires bus { number < control_bus_count }
    requires foot { WritesBuses (P.foot port.old) }
    ensures value { result ≡ value_at (control_buses (P.words port.old)) number }
    ensures words { P.words port.new ≡ P.words port.old }
    ensures port { SameButWords P.foot P.rest port.old port.new }
{
    let number = BusNumber { bus: number as i32 };
    value_of(port, &number)
}

/// Control buses, each with its value.
fn buses_and_values<P: Port>(
    alloc: Global,
    port: &mut P,
    numbers: &[BusNumber],
) -> Result<Args, NoMemory>
    requires all { first_refusal number_refusal numbers.now ≡ None }
    requires foot { WritesBuses (P.foot port.old) }
    ensures values { IfOk result (λ found. map argument_of found ≡ buses_and_values (control_buses (P.words port.old)) numbers.now) }
    ensures words { P.words port.new ≡ P.words port.old }
    ensures port { SameButWords P.foot P.rest port.old port.new }
{
    let mut found = Vec::new(alloc);
    for number in numbers {
        found.push(Arg::Int(number.bus))?;
        found.push(Arg::Int(value_of(port, number)))?;
    }
    Ok(Args::from_vec(found))
}

/// The message `/c_set` with buses and their values.
fn answer<P: Port>(alloc: Global, port: &mut P, numbers: &[BusNumber]) -> Result<Message, NoMemory>
    requires all { first_refusal number_refusal numbers.now ≡ None }
    requires few { 16 * length numbers.now + 2 ^ 20 < 2 ^ 31 }
    requires foot { WritesBuses (P.foot port.old) }
    ensures message { IfOk result (λ m. message_of m ≡ answer_get (control_buses (P.words port.old)) numbers.now) }
    ensures sendable { IfOk result (λ m. IsSendable (message_of m)) }
    ensures words { P.words port.new ≡ P.words port.old }
    ensures port { SameButWords P.foot P.rest port.old port.new }
{
    let arguments = buses_and_values(alloc, port, numbers)?;
    Ok(Message {
        address: Address::from_slice(alloc, b"/c_set")?,
        body: Body::Args(arguments),
    })
}

/// `/c_get` bus..
pub fn run_get<P: Port>(
    alloc: Global,
    port: &mut P,
    arguments: &[Arg],
    from: u32,
    replies: &mut Replies,
) -> Result<Option<Reason>, NoMemory>
    requires few { 16 * length arguments.now + 2 ^ 20 < 2 ^ 31 }
    requires foot { WritesBuses (P.foot port.old) }
    ensures row { (stage : Stage) → Follows result (get_row from (map argument_of arguments.now) (turn_of stage (P.words port.old) replies.old)) (turn_of stage (P.words port.old) replies.new) }
    ensures unchanged { UnlessFollowed result (replies.new ≡ replies.old) }
    ensures words { P.words port.new ≡ P.words port.old }
    ensures port { SameButWords P.foot P.rest port.old port.new }
{
    let Some(all) = some_of(singles::<BusNumber>(alloc, arguments)?) else {
        return Ok(Some(Reason::Arguments));
    };
    if let Some(reason) = first_refusal(&all, ()) {
        return Ok(Some(reason));
    }
    let message = answer(alloc, port, &all)?;
    replies.push(To::Client(from), message)?;
    Ok(None)
}
