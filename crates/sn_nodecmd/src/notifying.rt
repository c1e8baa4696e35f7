//! `/notify`.
ghost use Rattle.std.specs.Prelude.{◌≡◌, List, ℕ, length, map, slice_set, IfOk};
ghost use Rattle.sn_osc.specs.Shape.{argument_of, message_of};
ghost use Rattle.sn_reply.specs.Sending.{IsSendable};
ghost use Rattle.sn_world.specs.World.{turn_of};
ghost use Rattle.sn_world.specs.Notifying.{notify_flag, notify_done, notify_row};
ghost use Rattle.sn_world.specs.Answers.{Follows, UnlessFollowed};

use sn_osc::{Address, Arg, Args, Body, Message};
use sn_ports::{NoMemory, Text};
use sn_reply::{Reason, Replies, To};
use sn_world::{Flags, Stage};
use std::alloc::Global;

fn notify_flag(arguments: &[Arg]) -> Option<bool>
    ensures { result ≡ notify_flag (map argument_of arguments.now) }
{
    match arguments {
        [Arg::Int(flag)] => Some(*flag != 0),
        _ => None,
    }
}

/// Sets the flag of a client, if there is one with this number.
#[tactic(auto, using(std::proofs::lemmas::List::set_past))]
fn set_flag(flags: &mut Flags, client: u32, on: bool)
    ensures { flags.new ≡ slice_set flags.old client on }
{
    if client as usize >= flags.len() {
        return;
    }
    flags.set(client, on);
}

/// The message `/done /notify 0`.
fn notify_done(alloc: Global) -> Result<Message, NoMemory>
    ensures message { IfOk result (λ m. message_of m ≡ notify_done) }
    ensures sendable { IfOk result (λ m. IsSendable (message_of m)) }
{
    let mut arguments = Vec::new(alloc);
    arguments.push(Arg::Text(Text::from_slice(alloc, b"/notify")?))?;
    arguments.push(Arg::Int(0))?;
    Ok(Message {
        address: Address::from_slice(alloc, b"/done")?,
        body: Body::Args(Args::from_vec(arguments)),
    })
}

/// `/notify` flag
pub fn run_notify(
    alloc: Global,
    stage: &mut Stage,
    arguments: &[Arg],
    from: u32,
    replies: &mut Replies,
) -> Result<Option<Reason>, NoMemory>
    ensures row { (words : List ℕ) → Follows result (notify_row from (map argument_of arguments.now) (turn_of stage.old words replies.old)) (turn_of stage.new words replies.new) }
    ensures unchanged { UnlessFollowed result (stage.new ≡ stage.old) }
    ensures untold { UnlessFollowed result (replies.new ≡ replies.old) }
    ensures others { stage.new ≡ record stage.old { notify = stage.new.notify } }
    ensures clients { length stage.new.notify ≡ length stage.old.notify }
{
    let Some(on) = notify_flag(arguments) else {
        return Ok(Some(Reason::Arguments));
    };
    let message = notify_done(alloc)?;
    replies.push(To::Client(from), message)?;
    set_flag(&mut stage.notify, from, on);
    Ok(None)
}
