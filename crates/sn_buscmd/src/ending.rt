//! `/quit` and `/clearSched`.
ghost use Rattle.std.specs.Prelude.{◌≡◌, List, ℕ, map, codes, IfOk};
ghost use Rattle.sn_osc.specs.Shape.{argument_of, message_of};
ghost use Rattle.sn_reply.specs.Sending.{IsSendable};
ghost use Rattle.sn_reply.specs.Replies.{ReplyShape};
ghost use Rattle.sn_world.specs.declared.stage.Stage.{Stage};
ghost use Rattle.sn_world.specs.World.{turn_of};
ghost use Rattle.sn_world.specs.Recv.{done};
ghost use Rattle.sn_world.specs.Ending.{quit_row, clear_row};
ghost use Rattle.sn_world.specs.Answers.{Follows, UnlessFollowed};

use sn_osc::{Arg, Message};
use sn_ports::NoMemory;
use sn_reply::{Answer, Reason, Replies, To};
use std::alloc::Global;

/// The message `/done /quit`.
fn done_quit(alloc: Global) -> Result<Message, NoMemory>
    ensures message { IfOk result (λ m. message_of m ≡ done (codes "/quit")) }
    ensures sendable { IfOk result (λ m. IsSendable (message_of m)) }
{
    let mut answer = Answer::new(alloc);
    answer.push_name(b"/quit")?;
    answer.into_message(b"/done")
}

/// `/quit`
pub fn run_quit(
    alloc: Global,
    arguments: &[Arg],
    from: u32,
    replies: &mut Replies,
) -> Result<Option<Reason>, NoMemory>
    ensures row { (stage : Stage) (words : List ℕ) → Follows result (quit_row from (map argument_of arguments.now) (turn_of stage words replies.old)) (turn_of stage words replies.new) }
    ensures unchanged { UnlessFollowed result (replies.new ≡ replies.old) }
{
    match arguments {
        [] => {}
        _ => return Ok(Some(Reason::Arguments)),
    }
    let message = done_quit(alloc)?;
    replies.push(To::Client(from), message)?;
    Ok(None)
}

/// `/clearSched`, which does nothing here.
pub fn run_clear(arguments: &[Arg]) -> Result<Option<Reason>, NoMemory>
    ensures row { (from : ℕ) (stage : Stage) (words : List ℕ) (replies : List ReplyShape) → Follows result (clear_row from (map argument_of arguments.now) (turn_of stage words replies)) (turn_of stage words replies) }
{
    match arguments {
        [] => Ok(None),
        _ => Ok(Some(Reason::Arguments)),
    }
}
