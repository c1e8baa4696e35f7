//! Packets that ask for the samples of files.
ghost use Rattle.std.specs.Prelude.{◌≡◌};
ghost use Rattle.sn_osc.specs.Shape.{message_of, shape, shapes};
ghost use Rattle.sn_shelf.specs.Asking.{is_request, asks, any_asks};

use crate::requests::request_of;
use sn_osc::{Bundle, Message, Packet};

/// Whether a message is `/b_allocRead` with a path.
#[tactic(auto, using(crate::proofs::AskingLemmas::found_some))]
fn is_request(message: &Message) -> bool
    ensures { result ≡ is_request (message_of message.now) }
{
    request_of(message).is_some()
}

/// Whether a message of one of the elements asks for samples.
#[cycle(asking)]
fn any_asks(item: &Bundle) -> bool
    ensures { result ≡ any_asks (shapes item.now.elements.items) }
{
    for element in &item.elements {
        if asks(element) {
            return true;
        }
    }
    false
}

/// Whether a message of the packet asks for samples.
#[cycle(asking)]
pub fn asks(packet: &Packet) -> bool
    ensures { result ≡ asks (shape packet.now) }
{
    match packet {
        Packet::Message(message) => is_request(message),
        Packet::Bundle(bundle) => any_asks(bundle),
    }
}
