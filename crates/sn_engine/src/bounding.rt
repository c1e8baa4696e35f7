//! What happens at a boundary.
ghost use Rattle.std.specs.Prelude.{◌≡◌, ◌+◌, ◌*◌, ◌<◌, [], ℕ, List, true, length, IfOk, OnOk};
ghost use Rattle.sn_ports.specs.Limits.{most_span, block_samples};
ghost use Rattle.sn_mem.specs.Words.{SameButWords};
ghost use Rattle.sn_mem.specs.Layout.{bus_words, lane_words};
ghost use Rattle.sn_mem.specs.declared.extents.Extent.{Extent};
ghost use Rattle.sn_world.specs.World.{world_of};
ghost use Rattle.sn_world.specs.Pictures.{KeepsOutside, Pictures, WritesWorld};
ghost use Rattle.sn_engine.specs.Answerable.{AllAnswerable};
ghost use Rattle.sn_engine.specs.Boundary.{turn_at, waiting_at, clashes_at, replies_at, quits_at};
ghost use Rattle.sn_engine.specs.Holding.{StillHold};
ghost use Rattle.sn_engine.specs.Planning.{AreSpanned, IsPlannedFor, StillPlanned, StillSpanned};

use crate::acting::act_below;
use crate::clashing::take_clashes;
use crate::planning::Planned;
use sn_clash::Clashes;
use sn_layout::Watch;
use sn_mem::Port;
use sn_ports::NoMemory;
use sn_queue::Queue;
use sn_reply::Replies;
use sn_world::Stage;
use std::alloc::Global;

/// The entries that are due at boundary `now` act in their order, and then the clashes are taken: those that were not
/// there at the boundary before are told. Last the stage is planned. Clashes and plan are kept if the clashes that are
/// held still hold, and what acts leaves the layout, or nothing acts. The words of the pool end where the copies of a
/// span begin; those after it are unchanged. Tells whether the server ends.
pub fn act_boundary<P: Port>(
    alloc: Global,
    stage: &mut Stage,
    port: &mut P,
    queue: &mut Queue,
    now: u64,
    held: &mut Clashes,
    planned: &mut Planned,
    hold: bool,
    copies: u32,
    workers: u32,
    said: &mut Replies,
) -> Result<bool, NoMemory>
    requires silent { said.old ≡ [] }
    requires waiting { AllAnswerable queue.old.waiting }
    requires hold { StillHold hold stage.old held.old }
    requires planned { StillPlanned hold workers stage.old planned.old.jobs planned.old.quiet planned.old.eventful }
    requires pictures { Pictures stage.old (P.words port.old) }
    requires foot { WritesWorld (P.foot port.old) stage.old.pool.region }
    requires copies { copies ≡ bus_words + stage.old.pool.region.len }
    requires lanes { copies + most_span * block_samples + lane_words < 4294967296 }
    ensures world { OnOk result (world_of stage.new (P.words port.new) ≡ (turn_at now queue.old (world_of stage.old (P.words port.old))).world) }
    ensures quit { IfOk result (λ q. q ≡ quits_at now queue.old (world_of stage.old (P.words port.old))) }
    ensures left { OnOk result (queue.new ≡ waiting_at now queue.old (world_of stage.old (P.words port.old))) }
    ensures kept { queue.new ≡ record queue.old { waiting = queue.new.waiting } }
    ensures clashes { OnOk result (held.new ≡ clashes_at now queue.old (world_of stage.old (P.words port.old))) }
    ensures hold { OnOk result (StillHold true stage.new held.new) }
    ensures planned { OnOk result (IsPlannedFor workers stage.new planned.new.jobs planned.new.quiet planned.new.eventful) }
    ensures spanned { OnOk result ((outputs : List Extent) (copies : ℕ) → StillSpanned hold planned.old.jobs outputs copies planned.old.spans.items → AreSpanned planned.new.jobs outputs copies planned.new.spans.items) }
    ensures replies { OnOk result (said.new ≡ replies_at now queue.old held.old (world_of stage.old (P.words port.old))) }
    ensures waiting { AllAnswerable queue.new.waiting }
    ensures pictures { Pictures stage.new (P.words port.new) }
    ensures region { stage.new.pool.region ≡ stage.old.pool.region }
    ensures len { length (P.words port.new) ≡ length (P.words port.old) }
    ensures port { SameButWords P.foot P.rest port.old port.new }
    ensures others { KeepsOutside stage.old.pool.region (P.words port.old) (P.words port.new) }
{
    if hold && !queue.has_due(now) {
        return Ok(false);
    }
    let mut watch = Watch::new(hold);
    let quits = act_below(alloc, stage, port, copies, queue, now, &mut watch, said)?;
    let stays = watch.stays;
    if stays {
        return Ok(quits);
    }
    take_clashes(alloc, stage, held, said)?;
    *planned = Planned::of(alloc, stage, held, copies, workers)?;
    Ok(quits)
}
