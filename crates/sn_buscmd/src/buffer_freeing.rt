//! `/b_free`.
ghost use Rattle.std.specs.Prelude.{◌≡◌, ◌<◌, ◌+◌, List, ℕ, None, map, if◌then◌else◌, OnOk, OnErr};
ghost use Rattle.sn_mem.specs.declared.extents.Extent.{Extent};
ghost use Rattle.sn_osc.specs.Shape.{argument_of};
ghost use Rattle.sn_pool.specs.Pools.{times, same_extent, without_extent};
ghost use Rattle.sn_world.specs.World.{turn_of};
ghost use Rattle.sn_world.specs.Pictures.{Pictures};
ghost use Rattle.sn_world.specs.BufferCommands.{free_buffer_row};
ghost use Rattle.sn_world.specs.Answers.{Follows, UnlessFollowed};

use crate::buffers::{find, one_number, tell_done};
use sn_mem::Extent;
use sn_osc::Arg;
use sn_pool::Pool;
use sn_ports::NoMemory;
use sn_reply::{Reason, Replies};
use sn_world::Stage;
use std::alloc::Global;

/// Gives words back.
fn give_back(pool: &mut Pool, words: Extent) -> Result<(), NoMemory>
    requires live { 0 < times words pool.old.live }
    requires closed { pool.old.journal ≡ None }
    ensures ok { OnOk result (pool.new ≡ record pool.old { live = without_extent words pool.old.live }) }
    ensures counted { OnOk result ((e : Extent) → times e pool.old.live ≡ (if same_extent e words then 1 else 0) + times e pool.new.live) }
    ensures err { OnErr result (pool.new ≡ pool.old) }
{
    let mark = pool.begin(1)?;
    pool.give_back(words);
    pool.commit(mark);
    Ok(())
}

/// `/b_free` number
pub fn run_buffer_free(
    alloc: Global,
    stage: &mut Stage,
    arguments: &[Arg],
    from: u32,
    replies: &mut Replies,
) -> Result<Option<Reason>, NoMemory>
    requires pictures { (words : List ℕ) × Pictures stage.old words }
    ensures row { (words : List ℕ) → Pictures stage.old words → Follows result (free_buffer_row from (map argument_of arguments.now) (turn_of stage.old words replies.old)) (turn_of stage.new words replies.new) }
    ensures unchanged { UnlessFollowed result (stage.new ≡ stage.old) }
    ensures untold { UnlessFollowed result (replies.new ≡ replies.old) }
    ensures pictures { (words : List ℕ) → Pictures stage.old words → Pictures stage.new words }
    ensures region { stage.new.pool.region ≡ stage.old.pool.region }
{
    let Some(number) = one_number(arguments) else {
        return Ok(Some(Reason::Arguments));
    };
    let Some(place) = find(&stage.buffers, number) else {
        return Ok(Some(Reason::Buffer));
    };
    let told = replies.len();
    tell_done(alloc, b"/b_free", number, from, replies)?;
    match give_back(&mut stage.pool, place.extent) {
        Ok(()) => {
            stage.buffers.set(number as u32, None);
            Ok(None)
        }
        Err(fault) => {
            replies.truncate(told);
            Err(fault)
        }
    }
}
