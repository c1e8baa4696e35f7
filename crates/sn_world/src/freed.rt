//! Nodes that end, and the words that they give back.
ghost use Rattle.std.specs.Prelude.{◌≡◌, ◌≤◌, ◌+◌, None};
ghost use Rattle.sn_mem.specs.declared.extents.Extent.{Extent};
ghost use Rattle.sn_pool.specs.Pools.{times, mark_of, saved_of, room_of};
ghost use Rattle.sn_tree.specs.Trees.{none};
ghost use Rattle.sn_world.specs.Freed.{HasRoomFor};
ghost use Rattle.sn_world.specs.Pictures.{live_held, held_extents, amount};

use crate::stage::Held;
use sn_pool::Pool;
use sn_tree::Tree;

/// Gives the words of a node back to the pool, if it has some.
pub fn give_back(pool: &mut Pool, held: &Held)
    requires live { (e : Extent) → 1 ≤ e.len → times e (held_extents held.now) ≤ times e pool.old.live }
    requires room { HasRoomFor (amount (λ e. 1) (held_extents held.now)) pool.old.journal }
    ensures live { (e : Extent) → 1 ≤ e.len → times e pool.old.live ≡ times e (held_extents held.now) + times e pool.new.live }
    ensures room { room_of pool.old.journal ≤ amount (λ e. 1) (held_extents held.now) + room_of pool.new.journal }
    ensures mark { mark_of pool.new.journal ≡ mark_of pool.old.journal }
    ensures saved { saved_of pool.new.journal ≡ saved_of pool.old.journal }
    ensures region { pool.new.region ≡ pool.old.region }
{
    match held {
        Held::Group => {}
        Held::Synth { state, .. } => {
            if state.len > 0 {
                pool.give_back(*state);
            }
        }
    }
}

/// Ends a freed node, and gives its words back.
fn end_node(pool: &mut Pool, held: Held)
    requires live { (e : Extent) → 1 ≤ e.len → times e (held_extents held) ≤ times e pool.old.live }
    requires room { HasRoomFor (amount (λ e. 1) (held_extents held)) pool.old.journal }
    ensures live { (e : Extent) → 1 ≤ e.len → times e pool.old.live ≡ times e (held_extents held) + times e pool.new.live }
    ensures room { room_of pool.old.journal ≤ amount (λ e. 1) (held_extents held) + room_of pool.new.journal }
    ensures mark { mark_of pool.new.journal ≡ mark_of pool.old.journal }
    ensures saved { saved_of pool.new.journal ≡ saved_of pool.old.journal }
    ensures region { pool.new.region ≡ pool.old.region }
{
    give_back(pool, &held);
}

/// Ends the nodes that were freed, and gives their words back. An open journal of the pool has room for them.
pub fn end_freed(tree: &mut Tree<Held>, pool: &mut Pool)
    requires closed { tree.old.journal ≡ None }
    requires live { (e : Extent) → 1 ≤ e.len → times e (live_held tree.old.detached) ≤ times e pool.old.live }
    requires room { HasRoomFor (amount (λ e. 1) (live_held tree.old.detached)) pool.old.journal }
    ensures tree { tree.new ≡ record tree.old { detached = none } }
    ensures live { (e : Extent) → 1 ≤ e.len → times e pool.old.live ≡ times e (live_held tree.old.detached) + times e pool.new.live }
    ensures mark { mark_of pool.new.journal ≡ mark_of pool.old.journal }
    ensures saved { saved_of pool.new.journal ≡ saved_of pool.old.journal }
    ensures region { pool.new.region ≡ pool.old.region }
{
    while let Some(held) = tree.free() {
        end_node(pool, held);
    }
}
