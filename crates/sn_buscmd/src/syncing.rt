//! `/sync`.
ghost use Rattle.std.specs.Prelude.{◌≡◌, List, ℕ, map, IfOk};
ghost use Rattle.sn_osc.specs.Shape.{argument_of, message_of};
ghost use Rattle.sn_reply.specs.Sending.{IsSendable};
ghost use Rattle.sn_world.specs.declared.stage.Stage.{Stage};
ghost use Rattle.sn_world.specs.World.{turn_of};
ghost use Rattle.sn_world.specs.Buses.{sync_number, sync_row, synced};
ghost use Rattle.sn_world.specs.Answers.{Follows, UnlessFollowed};

use sn_osc::{Arg, Message};
use sn_ports::NoMemory;
use sn_reply::{Answer, Reason, Replies, To};
use std::alloc::Global;

fn sync_number(arguments: &[Arg]) -> Option<i32>
    ensures { result ≡ sync_number (map argument_of arguments.now) }
{
    match arguments {
        [Arg::Int(number)] => Some(*number),
        _ => None,
    }
}

/// The message `/synced` with a number.
fn synced(alloc: Global, number: i32) -> Result<Message, NoMemory>
    ensures message { IfOk result (λ m. message_of m ≡ synced number) }
    ensures sendable { IfOk result (λ m. IsSendable (message_of m)) }
{
    let mut answer = Answer::new(alloc);
    answer.push_int(number)?;
    answer.into_message(b"/synced")
}

/// `/sync` number
pub fn run_sync(
    alloc: Global,
    arguments: &[Arg],
    from: u32,
    replies: &mut Replies,
) -> Result<Option<Reason>, NoMemory>
    ensures row { (stage : Stage) (words : List ℕ) → Follows result (sync_row from (map argument_of arguments.now) (turn_of stage words replies.old)) (turn_of stage words replies.new) }
    ensures unchanged { UnlessFollowed result (replies.new ≡ replies.old) }
{
    let Some(number) = sync_number(arguments) else {
        return Ok(Some(Reason::Arguments));
    };
    let message = synced(alloc, number)?;
    replies.push(To::Client(from), message)?;
    Ok(None)
}
