//! Packets, made of their parts.
ghost use Rattle.std.specs.Prelude.{◌≡◌, ◌<◌, ◌^◌, ◌∷◌, [], pos, negsuc, codes, IfOk, map};
ghost use Rattle.sn_osc.specs.Shape.{int, string, blob, argument_of, shape, shapes, bundle};
ghost use Rattle.sn_drill.specs.Stream.{message_of, retuning, beginning, note, opening};

use crate::definitions::{mix8, voice};
use sn_osc::{Address, Arg, Args, Body, Bundle, Elements, Message, Packet};
use sn_ports::{NoMemory, Text};
use std::alloc::Global;

/// A number as an argument.
#[tactic(auto, using(crate::proofs::MessageLemmas::count_pos))]
fn number(count: u32) -> Arg
    requires { count < 2 ^ 31 }
    ensures { argument_of result ≡ int (pos count) }
{
    Arg::Int(count as i32)
}

/// The id in place of which the server chooses one.
fn any_id() -> Arg
    ensures { argument_of result ≡ int (negsuc 0) }
{
    Arg::Int(-1)
}

/// A string as an argument.
fn word(alloc: Global, bytes: &[u8]) -> Result<Arg, NoMemory>
    ensures { IfOk result (λ a. argument_of a ≡ string bytes.now) }
{
    Ok(Arg::Text(Text::from_slice(alloc, bytes)?))
}

/// A blob as an argument.
fn content(alloc: Global, bytes: &[u8]) -> Result<Arg, NoMemory>
    ensures { IfOk result (λ a. argument_of a ≡ blob bytes.now) }
{
    Ok(Arg::Blob(Text::from_slice(alloc, bytes)?))
}

/// A message with arguments.
fn message_to(alloc: Global, address: &[u8], args: Vec<Arg>) -> Result<Packet, NoMemory>
    ensures { IfOk result (λ p. shape p ≡ message_of address.now (map argument_of args.items)) }
{
    Ok(Packet::Message(Message {
        address: Address::from_slice(alloc, address)?,
        body: Body::Args(Args::from_vec(args)),
    }))
}

/// A bundle of these packets.
pub(crate) fn bundle_of(tag: u64, elements: Elements) -> Packet
    ensures { shape result ≡ bundle tag (shapes elements.items) }
{
    Packet::Bundle(Bundle { tag, elements })
}

/// All voices of the group go over to a frequency, in millihertz.
fn retuning(alloc: Global, freq: u32) -> Result<Packet, NoMemory>
    requires { freq < 2 ^ 31 }
    ensures { IfOk result (λ p. shape p ≡ retuning freq) }
{
    let args = vec![in alloc; number(1), word(alloc, b"freq")?, number(freq)]?;
    message_to(alloc, b"/n_set", args)
}

/// A voice begins at the end of the group, onto a bus.
fn beginning(alloc: Global, freq: u32, bus: u32) -> Result<Packet, NoMemory>
    requires freq { freq < 2 ^ 31 }
    requires bus { bus < 2 ^ 31 }
    ensures { IfOk result (λ p. shape p ≡ beginning freq bus) }
{
    let args = vec![in alloc;
        word(alloc, b"voice")?,
        any_id(),
        number(1),
        number(1),
        word(alloc, b"freq")?,
        number(freq),
        word(alloc, b"out")?,
        number(bus),
    ]?;
    message_to(alloc, b"/s_new", args)
}

/// What two draws choose.
pub(crate) fn note(alloc: Global, x: u32, y: u32) -> Result<Packet, NoMemory>
    requires { y < 65536 }
    ensures { IfOk result (λ p. shape p ≡ note x y) }
{
    let freq = 100_000 + 10 * y;
    if x % 4 == 3 {
        retuning(alloc, freq)
    } else {
        beginning(alloc, freq, 16 + x / 4 % 8)
    }
}

/// Hands a definition over.
fn receive(alloc: Global, definition: &[u8]) -> Result<Packet, NoMemory>
    ensures { IfOk result (λ p. shape p ≡ message_of (codes "/d_recv") (blob definition.now ∷ [])) }
{
    let args = vec![in alloc; content(alloc, definition)?]?;
    message_to(alloc, b"/d_recv", args)
}

/// The parallel group of the voices begins.
fn group(alloc: Global) -> Result<Packet, NoMemory>
    ensures { IfOk result (λ p. shape p ≡ message_of (codes "/p_new") (int (pos 1) ∷ int (pos 0) ∷ int (pos 0) ∷ [])) }
{
    let args = vec![in alloc; number(1), number(0), number(0)]?;
    message_to(alloc, b"/p_new", args)
}

/// The mix begins, after the group.
fn mix(alloc: Global) -> Result<Packet, NoMemory>
    ensures { IfOk result (λ p. shape p ≡ message_of (codes "/s_new") (string (codes "mix8") ∷ int (pos 2) ∷ int (pos 1) ∷ int (pos 0) ∷ [])) }
{
    let args = vec![in alloc; word(alloc, b"mix8")?, number(2), number(1), number(0)]?;
    message_to(alloc, b"/s_new", args)
}

/// Both definitions, the parallel group of the voices, and the mix after it.
pub(crate) fn opening(alloc: Global) -> Result<Packet, NoMemory>
    ensures { IfOk result (λ p. shape p ≡ opening) }
{
    let elements = vec![in alloc;
        receive(alloc, voice())?,
        receive(alloc, mix8())?,
        group(alloc)?,
        mix(alloc)?,
    ]?;
    Ok(bundle_of(0, elements))
}
