//! The settling of a block, and what each client is sent of it.
ghost use Rattle.std.specs.Prelude.{◌≡◌, ◌≤◌, ◌<◌, ◌-◌, ◌^◌, [], false, map, length};
ghost use Rattle.sn_ports.specs.Limits.{most_clients};
ghost use Rattle.sn_ports.specs.Octets.{bytes_of};
ghost use Rattle.sn_mem.specs.Words.{SameButWords};
ghost use Rattle.sn_reply.specs.Frames.{with_frames};
ghost use Rattle.sn_tree.specs.Trees.{running_labels};
ghost use Rattle.sn_world.specs.Pictures.{KeepsOutside, Pictures, WritesWorld};
ghost use Rattle.sn_world.specs.Settling.{endings_in, settled};
ghost use Rattle.sn_world.specs.SettleWords.{walk_room};
ghost use Rattle.sn_world.specs.World.{world_of, turn_of};
ghost use Rattle.sn_settle.specs.Eventful.{IsEventfulOf};
ghost use Rattle.sn_engine.specs.Keeping.{CanSettle};

use sn_mem::Port;
use sn_ports::Text;
use sn_settle::{Eventful, settle};
use sn_world::{Endings, Stage};

/// Settles the block before block `next`: clients are sent what they are told of it. Returns `false` only if the stage
/// is unchanged, and always if no unit ended. The eventful synths are those of the stage. It takes no memory.
pub fn settle_before<P: Port>(
    stage: &mut Stage,
    eventful: &Eventful,
    port: &mut P,
    next: u64,
    endings: &mut Endings,
    replies: &mut [Text],
) -> bool
    requires pictures { Pictures stage.old (P.words port.old) }
    requires eventful { IsEventfulOf stage.old eventful.now }
    requires foot { WritesWorld (P.foot port.old) stage.old.pool.region }
    requires next { next < 2 ^ 63 }
    requires clients { length replies.old ≤ most_clients }
    requires room { CanSettle (walk_room (running_labels stage.old.tree.attached)) endings.old.spare replies.old }
    ensures world { world_of stage.new (P.words port.new) ≡ (settled (next - 1) (turn_of stage.old (P.words port.old) [])).world }
    ensures same { result ≡ false → stage.new ≡ stage.old }
    ensures idle { endings_in stage.old.rate (world_of stage.old (P.words port.old)).nodes ≡ [] → result ≡ false }
    ensures sent { map bytes_of replies.new ≡ with_frames 0 (settled (next - 1) (turn_of stage.old (P.words port.old) [])).replies (map bytes_of replies.old) }
    ensures clients { length replies.new ≡ length replies.old }
    ensures pictures { Pictures stage.new (P.words port.new) }
    ensures region { stage.new.pool.region ≡ stage.old.pool.region }
    ensures len { length (P.words port.new) ≡ length (P.words port.old) }
    ensures port { SameButWords P.foot P.rest port.old port.new }
    ensures others { KeepsOutside stage.old.pool.region (P.words port.old) (P.words port.new) }
{
    settle(
        stage,
        eventful,
        port,
        next.saturating_sub(1),
        endings,
        replies,
    )
}
