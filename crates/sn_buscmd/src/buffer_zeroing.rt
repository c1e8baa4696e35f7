//! `/b_zero`.
ghost use Rattle.std.specs.Prelude.{◌≡◌, length, map};
ghost use Rattle.sn_osc.specs.Shape.{argument_of};
ghost use Rattle.sn_mem.specs.Words.{SameButWords};
ghost use Rattle.sn_world.specs.World.{turn_of};
ghost use Rattle.sn_world.specs.Pictures.{Pictures, WritesWorld, KeepsOutside};
ghost use Rattle.sn_world.specs.BufferCommands.{zero_row};
ghost use Rattle.sn_world.specs.Answers.{Follows, UnlessFollowed};

use crate::buffers::{find, one_number, tell_done};
use crate::samples::fill_samples;
use sn_mem::Port;
use sn_osc::Arg;
use sn_ports::NoMemory;
use sn_reply::{Reason, Replies};
use sn_world::Stage;
use std::alloc::Global;

/// `/b_zero` number
pub fn run_buffer_zero<P: Port>(
    alloc: Global,
    stage: &Stage,
    port: &mut P,
    arguments: &[Arg],
    from: u32,
    replies: &mut Replies,
) -> Result<Option<Reason>, NoMemory>
    requires pictures { Pictures stage.now (P.words port.old) }
    requires foot { WritesWorld (P.foot port.old) stage.now.pool.region }
    ensures row { Follows result (zero_row from (map argument_of arguments.now) (turn_of stage.now (P.words port.old) replies.old)) (turn_of stage.now (P.words port.new) replies.new) }
    ensures untouched { UnlessFollowed result (P.words port.new ≡ P.words port.old) }
    ensures untold { UnlessFollowed result (replies.new ≡ replies.old) }
    ensures pictures { Pictures stage.now (P.words port.new) }
    ensures others { KeepsOutside stage.now.pool.region (P.words port.old) (P.words port.new) }
    ensures len { length (P.words port.new) ≡ length (P.words port.old) }
    ensures port { SameButWords P.foot P.rest port.old port.new }
{
    let Some(number) = one_number(arguments) else {
        return Ok(Some(Reason::Arguments));
    };
    let Some(place) = find(&stage.buffers, number) else {
        return Ok(Some(Reason::Buffer));
    };
    tell_done(alloc, b"/b_zero", number, from, replies)?;
    fill_samples(port, place.extent, 0, place.extent.len, 0);
    Ok(None)
}
