//! `/b_alloc`.
ghost use Rattle.std.specs.Prelude.{◌≡◌, ◌≤◌, ◌<◌, ◌^◌, length, map, IfSome};
ghost use Rattle.sn_ports.specs.Limits.{most_channels};
ghost use Rattle.sn_osc.specs.Shape.{argument_of};
ghost use Rattle.sn_mem.specs.Words.{SameButWords};
ghost use Rattle.sn_world.specs.World.{turn_of};
ghost use Rattle.sn_world.specs.Pictures.{Pictures, WritesWorld, KeepsOutside};
ghost use Rattle.sn_world.specs.BufferCommands.{frame_count, channel_count, asked_with, new_buffer, alloc_row};
ghost use Rattle.sn_world.specs.Answers.{Follows, UnlessFollowed};
ghost use Rattle.sn_buscmd.specs.Samples.{IsNew};

use crate::buffer_holding::{FirstSamples, make};
use crate::judging::is_number;
use sn_mem::Port;
use sn_osc::Arg;
use sn_ports::NoMemory;
use sn_ports::limits::MOST_CHANNELS;
use sn_reply::{Reason, Replies};
use sn_world::{NewBuffer, Single, Stage};
use std::alloc::Global;

/// A number of frames, of which there is at least one.
pub fn frame_count(argument: &Arg) -> Option<u32>
    ensures count { result ≡ frame_count (argument_of argument.now) }
    ensures bound { IfSome result (λ n. (1 ≤ n) × (n < 2 ^ 31)) }
{
    match argument {
        Arg::Int(frames) if 1 <= *frames => Some(*frames as u32),
        _ => None,
    }
}

/// The channels of a buffer, at most.
const CHANNELS: i32 = MOST_CHANNELS as i32;

/// A number of channels that a buffer may have.
pub fn channel_count(argument: &Arg) -> Option<u32>
    ensures count { result ≡ channel_count (argument_of argument.now) }
    ensures bound { IfSome result (λ n. (1 ≤ n) × (n ≤ most_channels)) }
{
    match argument {
        Arg::Int(channels) if 1 <= *channels && *channels <= CHANNELS => Some(*channels as u32),
        _ => None,
    }
}

/// What a message asks for.
pub fn asked_with(
    number: Option<i32>,
    frames: Option<u32>,
    channels: Option<u32>,
) -> Option<NewBuffer>
    requires frames { IfSome frames (λ n. (1 ≤ n) × (n < 2 ^ 31)) }
    requires channels { IfSome channels (λ n. (1 ≤ n) × (n ≤ most_channels)) }
    ensures asked { result ≡ asked_with number frames channels }
    ensures fits { IfSome result IsNew }
{
    match (number, frames, channels) {
        (Some(number), Some(frames), Some(channels)) => Some(NewBuffer {
            number,
            frames,
            channels,
        }),
        _ => None,
    }
}

/// What a message asks for, with one channel if it names no number.
fn new_buffer(arguments: &[Arg]) -> Option<NewBuffer>
    ensures asked { result ≡ new_buffer (map argument_of arguments.now) }
    ensures fits { IfSome result IsNew }
{
    match arguments {
        [number, frames] => asked_with(i32::from_one(number), frame_count(frames), Some(1)),
        [number, frames, channels] => asked_with(
            i32::from_one(number),
            frame_count(frames),
            channel_count(channels),
        ),
        _ => None,
    }
}

/// `/b_alloc` number frames [channels]
pub fn run_buffer_alloc<P: Port>(
    alloc: Global,
    stage: &mut Stage,
    port: &mut P,
    arguments: &[Arg],
    from: u32,
    replies: &mut Replies,
) -> Result<Option<Reason>, NoMemory>
    requires pictures { Pictures stage.old (P.words port.old) }
    requires foot { WritesWorld (P.foot port.old) stage.old.pool.region }
    ensures row { Follows result (alloc_row from (map argument_of arguments.now) (turn_of stage.old (P.words port.old) replies.old)) (turn_of stage.new (P.words port.new) replies.new) }
    ensures unchanged { UnlessFollowed result (stage.new ≡ stage.old) }
    ensures untouched { UnlessFollowed result (P.words port.new ≡ P.words port.old) }
    ensures untold { UnlessFollowed result (replies.new ≡ replies.old) }
    ensures pictures { Pictures stage.new (P.words port.new) }
    ensures region { stage.new.pool.region ≡ stage.old.pool.region }
    ensures others { KeepsOutside stage.old.pool.region (P.words port.old) (P.words port.new) }
    ensures len { length (P.words port.new) ≡ length (P.words port.old) }
    ensures port { SameButWords P.foot P.rest port.old port.new }
{
    let Some(new) = new_buffer(arguments) else {
        return Ok(Some(Reason::Arguments));
    };
    if !is_number(new.number) {
        return Ok(Some(Reason::Buffer));
    }
    make(
        alloc,
        stage,
        port,
        &new,
        &FirstSamples::Zeros,
        from,
        replies,
    )
}
