//! `/b_allocRead`.
ghost use Rattle.std.specs.Prelude.{◌≡◌, ◌*◌, length, map, IfSome};
ghost use Rattle.std.specs.Option.{option_map};
ghost use Rattle.sn_osc.specs.Shape.{argument_of};
ghost use Rattle.sn_mem.specs.Words.{SameButWords};
ghost use Rattle.sn_world.specs.World.{turn_of};
ghost use Rattle.sn_world.specs.Pictures.{Pictures, WritesWorld, KeepsOutside};
ghost use Rattle.sn_world.specs.BufferReading.{behind_int, is_one_blob, is_path_form, filled_with, filled_buffer, read_row};
ghost use Rattle.sn_world.specs.Answers.{Follows, UnlessFollowed};
ghost use Rattle.sn_buscmd.specs.Reading.{filled};
ghost use Rattle.sn_buscmd.specs.Samples.{IsNew};

use crate::buffer_holding::{FirstSamples, make};
use crate::buffer_making::{asked_with, channel_count, frame_count};
use crate::judging::is_number;
use sn_mem::Port;
use sn_osc::Arg;
use sn_ports::NoMemory;
use sn_reply::{Reason, Replies};
use sn_world::{NewBuffer, Single, Stage};
use std::alloc::Global;

/// A buffer that is made, and the bytes of its samples.
#[derive(Clone, Copy, Debug)]
struct FilledBuffer<'a> {
    new: NewBuffer,
    bytes: &'a [u8],
}

fn behind_int(arguments: &[Arg]) -> &[Arg]
    ensures { map argument_of result.now ≡ behind_int (map argument_of arguments.now) }
{
    match arguments {
        [Arg::Int(_), rest @ ..] => rest,
        _ => arguments,
    }
}

fn is_one_blob(arguments: &[Arg]) -> bool
    ensures { result ≡ is_one_blob (map argument_of arguments.now) }
{
    match arguments {
        [] | [Arg::Blob(_)] => true,
        _ => false,
    }
}

/// Whether the arguments are a number, a path, up to two integers and at most one blob.
fn is_path_form(arguments: &[Arg]) -> bool
    ensures { result ≡ is_path_form (map argument_of arguments.now) }
{
    match arguments {
        [Arg::Int(_), Arg::Text(_), rest @ ..] => is_one_blob(behind_int(behind_int(rest))),
        _ => false,
    }
}

/// A buffer with exactly the bytes of all its samples.
fn filled_with(new: Option<NewBuffer>, bytes: &[u8]) -> Option<FilledBuffer<'_>>
    requires { IfSome new IsNew }
    ensures asked { option_map filled result ≡ filled_with new bytes.now }
    ensures fits { IfSome result (λ f. IsNew f.new × (length f.bytes.now ≡ 4 * (f.new.frames * f.new.channels))) }
{
    let new = new?;
    let count = u64::from(new.frames) * u64::from(new.channels);
    if bytes.len() as u64 != 4 * count {
        return None;
    }
    Some(FilledBuffer { new, bytes })
}

/// What a message asks for.
fn filled_buffer(arguments: &[Arg]) -> Option<FilledBuffer<'_>>
    ensures asked { option_map filled result ≡ filled_buffer (map argument_of arguments.now) }
    ensures fits { IfSome result (λ f. IsNew f.new × (length f.bytes.now ≡ 4 * (f.new.frames * f.new.channels))) }
{
    match arguments {
        [number, frames, channels, Arg::Blob(bytes)] => {
            let new = asked_with(
                i32::from_one(number),
                frame_count(frames),
                channel_count(channels),
            );
            filled_with(new, bytes.as_slice())
        }
        _ => None,
    }
}

/// `/b_allocRead` number frames channels samples. With the path of a file in place of these it is refused: files are
/// read before a stream is played.
pub fn run_buffer_read<P: Port>(
    alloc: Global,
    stage: &mut Stage,
    port: &mut P,
    arguments: &[Arg],
    from: u32,
    replies: &mut Replies,
) -> Result<Option<Reason>, NoMemory>
    requires pictures { Pictures stage.old (P.words port.old) }
    requires foot { WritesWorld (P.foot port.old) stage.old.pool.region }
    ensures row { Follows result (read_row from (map argument_of arguments.now) (turn_of stage.old (P.words port.old) replies.old)) (turn_of stage.new (P.words port.new) replies.new) }
    ensures unchanged { UnlessFollowed result (stage.new ≡ stage.old) }
    ensures untouched { UnlessFollowed result (P.words port.new ≡ P.words port.old) }
    ensures untold { UnlessFollowed result (replies.new ≡ replies.old) }
    ensures pictures { Pictures stage.new (P.words port.new) }
    ensures region { stage.new.pool.region ≡ stage.old.pool.region }
    ensures others { KeepsOutside stage.old.pool.region (P.words port.old) (P.words port.new) }
    ensures len { length (P.words port.new) ≡ length (P.words port.old) }
    ensures port { SameButWords P.foot P.rest port.old port.new }
{
    if is_path_form(arguments) {
        return Ok(Some(Reason::File));
    }
    let Some(buffer) = filled_buffer(arguments) else {
        return Ok(Some(Reason::Arguments));
    };
    if !is_number(buffer.new.number) {
        return Ok(Some(Reason::Buffer));
    }
    make(
        alloc,
        stage,
        port,
        &buffer.new,
        &FirstSamples::Read(buffer.bytes),
        from,
        replies,
    )
}
