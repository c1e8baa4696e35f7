//! What happens after a block.
ghost use Rattle.std.specs.Prelude.{◌≡◌, ◌≤◌, ◌<◌, ◌+◌, ◌*◌, ◌^◌, [], false, length};
ghost use Rattle.sn_ports.specs.Limits.{most_clients};
ghost use Rattle.sn_mem.specs.Words.{SameButWords};
ghost use Rattle.sn_tree.specs.Trees.{running_labels};
ghost use Rattle.sn_world.specs.Pictures.{Pictures, WritesWorld, KeepsOutside};
ghost use Rattle.sn_world.specs.Settling.{endings_in, settled};
ghost use Rattle.sn_world.specs.SettleWords.{walk_room};
ghost use Rattle.sn_world.specs.World.{world_of, turn_of};
ghost use Rattle.sn_settle.specs.Telling.{HaveRoom, AreSent};
ghost use Rattle.sn_settle.specs.Eventful.{IsEventfulOf};

use crate::acting::act_all;
use crate::eventful::Eventful;
use crate::looking::look_at_all;
use crate::words::settle_words;
use sn_mem::Port;
use sn_ports::Text;
use sn_world::{Endings, Stage};

/// Settles a block that was just walked: first its triggers are told. Then the units that ended in it pause or free
/// their synths, which is told too. What is told is put after the bytes that wait for each client, by their numbers. Of
/// the synths only the eventful ones are looked at, which are given. Returns `false` only if the stage is unchanged, and
/// always if no unit ended.
///
/// It takes no memory: each client's bytes have room for 48 bytes for each unit of a running synth that sends triggers
/// or ends, and `endings` has room for as many. What `endings` holds then are the ends of this block, and no room of it
/// is lost.
pub fn settle<P: Port>(
    stage: &mut Stage,
    eventful: &Eventful,
    port: &mut P,
    block: u64,
    endings: &mut Endings,
    outs: &mut [Text],
) -> bool
    requires pictures { Pictures stage.old (P.words port.old) }
    requires eventful { IsEventfulOf stage.old eventful.now }
    requires foot { WritesWorld (P.foot port.old) stage.old.pool.region }
    requires block { block < 2 ^ 63 }
    requires clients { length outs.old ≤ most_clients }
    requires bytes { HaveRoom (48 * walk_room (running_labels stage.old.tree.attached)) outs.old }
    requires room { walk_room (running_labels stage.old.tree.attached) ≤ endings.old.spare }
    ensures world { world_of stage.new (P.words port.new) ≡ (settled block (turn_of stage.old (P.words port.old) [])).world }
    ensures same { result ≡ false → stage.new ≡ stage.old }
    ensures idle { endings_in stage.old.rate (world_of stage.old (P.words port.old)).nodes ≡ [] → result ≡ false }
    ensures endings { endings.new.items ≡ endings_in stage.old.rate (world_of stage.old (P.words port.old)).nodes }
    ensures kept { endings.old.spare ≤ endings.new.spare + length endings.new.items }
    ensures sent { AreSent (settled block (turn_of stage.old (P.words port.old) [])).replies outs.old outs.new }
    ensures pictures { Pictures stage.new (P.words port.new) }
    ensures clients { stage.new.notify ≡ stage.old.notify }
    ensures region { stage.new.pool.region ≡ stage.old.pool.region }
    ensures others { KeepsOutside stage.old.pool.region (P.words port.old) (P.words port.new) }
    ensures len { length (P.words port.new) ≡ length (P.words port.old) }
    ensures port { SameButWords P.foot P.rest port.old port.new }
{
    endings.clear();
    look_at_all(port, stage, eventful, block, endings, outs);
    if endings.as_slice().is_empty() {
        return false;
    }
    settle_words(port, stage, eventful);
    // Hints for the proof alone: the root is a group, and holds all other nodes.
    stage.tree.root_holds_all();
    stage.tree.root_is_a_group();
    stage.tree.root_is_on_top(0);
    act_all(stage, endings.as_slice(), outs)
}
