//! `/b_query`.
ghost use Rattle.std.specs.Prelude.{◌≡◌, ◌≤◌, ◌<◌, ◌+◌, ◌*◌, ◌^◌, ◌++◌, ℕ, List, length, map, IfSome, IfOk, OnOk};
ghost use Rattle.sn_ports.specs.Limits.{high_rate};
ghost use Rattle.sn_osc.specs.Shape.{argument_of, message_of};
ghost use Rattle.sn_reply.specs.Sending.{IsSendable};
ghost use Rattle.sn_world.specs.World.{turn_of};
ghost use Rattle.sn_world.specs.Pictures.{Pictures};
ghost use Rattle.sn_world.specs.BufferNumbers.{number_refusal};
ghost use Rattle.sn_world.specs.BufferCommands.{query_row};
ghost use Rattle.sn_world.specs.Answers.{Follows, UnlessFollowed};
ghost use Rattle.sn_buscmd.specs.Samples.{place_info, place_infos, place_answer, CanBeSaid};

use crate::buffers::find;
use crate::judging::{Judged, first_refusal, is_number};
use sn_mem::BufferPlace;
use sn_osc::{Arg, Message};
use sn_ports::NoMemory;
use sn_reply::{Answer, Reason, Replies, To};
use sn_world::{BufferNumber, Stage, singles, some_of};
use std::alloc::Global;

fn number_refusal(number: i32) -> Option<Reason>
    ensures { result ≡ number_refusal number }
{
    if !is_number(number) {
        return Some(Reason::Buffer);
    }
    None
}

impl Judged<()> for BufferNumber {
    ghost judge = { λ by r. number_refusal r.number };

    fn refusal(&self, _by: ()) -> Option<Reason> {
        number_refusal(self.number)
    }
}

/// The frames, the channels and the rate of a buffer, zeros if none is allocated.
fn push_info(answer: &mut Answer, place: Option<BufferPlace>, rate: u32) -> Result<(), NoMemory>
    requires place { IfSome place CanBeSaid }
    requires rate { rate ≤ high_rate }
    ensures { OnOk result (answer.new ≡ answer.old ++ place_info rate place) }
{
    let (frames, channels, rate) = match place {
        Some(place) => (place.frames, place.channels, rate),
        None => (0, 0, 0),
    };
    answer.push_int(frames as i32)?;
    answer.push_int(channels as i32)?;
    answer.push_int(rate as i32)
}

/// What is told of buffers, one after the other.
fn push_infos(answer: &mut Answer, stage: &Stage, numbers: &[BufferNumber]) -> Result<(), NoMemory>
    requires pictures { (words : List ℕ) × Pictures stage.now words }
    ensures { OnOk result (answer.new ≡ answer.old ++ place_infos stage.now.rate stage.now.buffers numbers.now) }
{
    for number in numbers {
        answer.push_int(number.number)?;
        push_info(answer, find(&stage.buffers, number.number), stage.rate)?;
    }
    Ok(())
}

/// The message `/b_info` about buffers.
fn answer(alloc: Global, stage: &Stage, numbers: &[BufferNumber]) -> Result<Message, NoMemory>
    requires pictures { (words : List ℕ) × Pictures stage.now words }
    requires few { 20 * length numbers.now + 2 ^ 20 < 2 ^ 31 }
    ensures message { IfOk result (λ m. message_of m ≡ place_answer stage.now.rate stage.now.buffers numbers.now) }
    ensures sendable { IfOk result (λ m. IsSendable (message_of m)) }
{
    let mut answer = Answer::new(alloc);
    push_infos(&mut answer, stage, numbers)?;
    answer.into_long_message(b"/b_info")
}

/// `/b_query` number..
pub fn run_buffer_query(
    alloc: Global,
    stage: &Stage,
    arguments: &[Arg],
    from: u32,
    replies: &mut Replies,
) -> Result<Option<Reason>, NoMemory>
    requires few { 20 * length arguments.now + 2 ^ 20 < 2 ^ 31 }
    requires pictures { (words : List ℕ) × Pictures stage.now words }
    ensures row { (words : List ℕ) → Follows result (query_row from (map argument_of arguments.now) (turn_of stage.now words replies.old)) (turn_of stage.now words replies.new) }
    ensures untold { UnlessFollowed result (replies.new ≡ replies.old) }
{
    let Some(all) = some_of(singles::<BufferNumber>(alloc, arguments)?) else {
        return Ok(Some(Reason::Arguments));
    };
    if let Some(reason) = first_refusal(&all, ()) {
        return Ok(Some(reason));
    }
    let message = answer(alloc, stage, &all)?;
    replies.push(To::Client(from), message)?;
    Ok(None)
}
