//! What a message gives to its command.
ghost use Rattle.std.specs.Prelude.{◌+◌, ◌*◌, ◌^◌, ◌<◌, List, length, map, IfSome};
ghost use Rattle.std.specs.Option.{option_map};
ghost use Rattle.std.specs.Borrow.{Bor};
ghost use Rattle.sn_osc.specs.declared.packet.Arg.{Arg};
ghost use Rattle.sn_osc.specs.Shape.{argument_of, body_of, message_of};
ghost use Rattle.sn_osc.specs.Bytes.{arguments_bytes};
ghost use Rattle.sn_reply.specs.Sending.{IsAnswerable};
ghost use Rattle.sn_world.specs.Commands.{ArgumentsOf};

use sn_osc::{Arg, Body, Message};

/// The arguments of a message, if they can be read. A message without a tag string gives none.
pub fn arguments_of(message: &Message) -> Option<&[Arg]>
    requires { IsAnswerable (message_of message.now) }
    ensures arguments { ArgumentsOf (body_of message.now.body) (option_map (λ (xs : Bor (List Arg)). map argument_of xs.now) result) }
    ensures few { IfSome result (λ xs. 20 * length xs.now + 2 ^ 20 < 2 ^ 31) }
    ensures short { IfSome result (λ xs. 4 * length (arguments_bytes (map argument_of xs.now)) + 2 ^ 20 < 2 ^ 31) }
{
    match &message.body {
        Body::Bare => Some(&[]),
        Body::Args(arguments) => Some(arguments.as_slice()),
        Body::Foreign { .. } => None,
    }
}
