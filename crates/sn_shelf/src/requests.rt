//! Messages that ask for the samples of a file.
ghost use Rattle.std.specs.Prelude.{◌≡◌, map, option_map};
ghost use Rattle.sn_osc.specs.Shape.{argument_of, body_of, message_of};
ghost use Rattle.sn_shelf.specs.Expanded.{optional_int, completion_in, with_path, requested, requested_by, request_of};
ghost use Rattle.sn_shelf.specs.ExpandedViews.{asked, int_and_rest};
ghost use Rattle.sn_shelf.specs.WaveViews.{Finds};

use sn_osc::{Arg, Body, Message};
use sn_ports::Text;

/// What a command with a path asks for.
#[derive(Clone, Copy, Debug)]
pub struct Request<'a> {
    /// The number of the buffer.
    pub number: i32,
    /// The name of the file.
    pub path: &'a Text,
    /// The first frame, from 0.
    pub start: i32,
    /// How many frames; 0 stands for all.
    pub frames: i32,
    /// The completion message.
    pub completion: Option<&'a Text>,
}

/// The first argument if it is an integer, else 0; and what follows.
#[derive(Clone, Copy)]
struct Leading<'a> {
    value: i32,
    rest: &'a [Arg],
}

/// The first argument if it is an integer, else 0; and what follows.
fn optional_int(args: &[Arg]) -> Leading<'_>
    ensures { int_and_rest result ≡ optional_int (map argument_of args.now) }
{
    match args {
        [Arg::Int(value), rest @ ..] => Leading {
            value: *value,
            rest,
        },
        _ => Leading {
            value: 0,
            rest: args,
        },
    }
}

/// At most one blob.
fn completion_in(args: &[Arg]) -> Option<Option<&Text>>
    ensures { Finds (λ o. option_map (λ t. t.now.bytes) o) result (completion_in (map argument_of args.now)) }
{
    match args {
        [] => Some(None),
        [Arg::Blob(completion)] => Some(Some(completion)),
        _ => None,
    }
}

#[tactic(auto, using(crate::proofs::RequestLemmas::path_none, crate::proofs::RequestLemmas::path_some))]
fn with_path<'a>(number: &i32, path: &'a Text, args: &'a [Arg]) -> Option<Request<'a>>
    ensures { Finds asked result (with_path number.now path.now.bytes (map argument_of args.now)) }
{
    let start = optional_int(args);
    let frames = optional_int(start.rest);
    let completion = completion_in(frames.rest)?;
    Some(Request {
        number: *number,
        path,
        start: start.value,
        frames: frames.value,
        completion,
    })
}

fn requested(args: &[Arg]) -> Option<Request<'_>>
    ensures { Finds asked result (requested (map argument_of args.now)) }
{
    match args {
        [Arg::Int(number), Arg::Text(path), rest @ ..] => with_path(number, path, rest),
        _ => None,
    }
}

fn requested_by(body: &Body) -> Option<Request<'_>>
    ensures { Finds asked result (requested_by (body_of body.now)) }
{
    match body {
        Body::Args(args) => requested(args.as_slice()),
        _ => None,
    }
}

/// What a message asks for, if it is `/b_allocRead` with a path.
pub fn request_of(message: &Message) -> Option<Request<'_>>
    ensures { Finds asked result (request_of (message_of message.now)) }
{
    if message.address.as_slice() != b"/b_allocRead".as_slice() {
        return None;
    }
    requested_by(&message.body)
}
