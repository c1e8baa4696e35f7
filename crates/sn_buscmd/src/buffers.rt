//! Buffers by the numbers that commands name.
ghost use Rattle.std.specs.Prelude.{◌≡◌, ◌<◌, ◌∷◌, ◌++◌, [], true, map, length, OnOk, OnErr};
ghost use Rattle.sn_osc.specs.Bytes.{has_no_null};
ghost use Rattle.sn_osc.specs.Shape.{argument_of};
ghost use Rattle.sn_reply.specs.declared.replies.To.TheVariants.{Client};
ghost use Rattle.sn_world.specs.BufferNumbers.{at_number, done_message};
ghost use Rattle.sn_world.specs.BufferCommands.{one_number};

use sn_mem::{BufferPlace, Buffers};
use sn_osc::Arg;
use sn_ports::NoMemory;
use sn_reply::{Answer, Replies, To};
use std::alloc::Global;

/// Where the buffer with a number is, if one is allocated.
pub fn find(buffers: &Buffers, number: i32) -> Option<BufferPlace>
    ensures { result ≡ at_number buffers.now number }
{
    if number < 0 {
        return None;
    }
    buffers.place(number as u32)
}

/// The number, if it is all that a message says.
pub fn one_number(arguments: &[Arg]) -> Option<i32>
    ensures { result ≡ one_number (map argument_of arguments.now) }
{
    match arguments {
        [Arg::Int(number)] => Some(*number),
        _ => None,
    }
}

/// Tells a client that a command on a buffer was carried out.
pub fn tell_done(
    alloc: Global,
    command: &[u8],
    number: i32,
    from: u32,
    replies: &mut Replies,
) -> Result<(), NoMemory>
    requires clean { has_no_null command.now ≡ true }
    requires short { length command.now < 60 }
    ensures ok { OnOk result (replies.new ≡ replies.old ++ (record { to = Client from; message = done_message command.now number }) ∷ []) }
    ensures err { OnErr result (replies.new ≡ replies.old) }
{
    let mut answer = Answer::new(alloc);
    answer.push_name(command)?;
    answer.push_int(number)?;
    let message = answer.into_message(b"/done")?;
    replies.push(To::Client(from), message)
}
