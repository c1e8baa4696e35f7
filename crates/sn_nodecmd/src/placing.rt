//! A synth that is put into a stage, and its words.
ghost use Rattle.std.specs.Prelude.{◌≡◌, ◌≤◌, ◌<◌, ◌+◌, ◌^◌, ℕ, None, true, IfOk, IfErr, OnOk, OnErr};
ghost use Rattle.sn_mem.specs.Layout.{bus_words};
ghost use Rattle.sn_ports.specs.Limits.{high_rate};
ghost use Rattle.sn_mem.specs.declared.extents.Extent.{Extent};
ghost use Rattle.sn_mem.specs.Words.{writes, SameButWords};
ghost use Rattle.sn_def.specs.Defs.{definition_of};
ghost use Rattle.sn_def.specs.StateWords.{state_words};
ghost use Rattle.sn_pool.specs.Pools.{GivesPlace, times, mark_of, saved_of, room_of};
ghost use Rattle.sn_pool.specs.Regions.{IsFree};
ghost use Rattle.sn_tree.specs.declared.node.NodeKind.TheVariants as kinds;
ghost use Rattle.sn_tree.specs.Steps.{IsOpen, HasRoom, undone};
ghost use Rattle.sn_tree.specs.Trees.{none, leaf, subtree, view_of};
ghost use Rattle.sn_tree.specs.Views.{views_below};
ghost use Rattle.sn_world.specs.Answers.{Continues};
ghost use Rattle.sn_world.specs.NewNodes.{action_for, replaces, gone_by, placed};
ghost use Rattle.sn_world.specs.Pictures.{live_held, amount};
ghost use Rattle.sn_world.specs.declared.stage.Held.TheVariants as held;
ghost use Rattle.sn_nodecmd.specs.Adding.{added};
ghost use Rattle.sn_nodecmd.specs.Placing.{place_in, taken, Adds, cleared};
ghost use Rattle.sn_nodecmd.specs.Telling.{Tells, TellsOf};

use crate::adding::{add, tell_replaced};
use crate::judging::replaces;
use crate::telling::{is_heard, tell_of, view_of};
use sn_def::{Controls, Def};
use sn_mem::{Extent, Port};
use sn_pool::{POOL_BASE, Pool, Untaken};
use sn_ports::NoMemory;
use sn_reply::Replies;
use sn_tree::{NodeKind, Tree};
use sn_world::{Flags, Held, NewNode, NodeEvent, NodeId, Stage, give_back};
use std::alloc::Global;
use std::sync::Arc;

/// Takes `words` words at their least place. No words stand where the pool begins.
fn place(pool: &mut Pool, words: u32) -> Result<Extent, Untaken>
    requires base { pool.old.region.at ≡ bus_words }
    ensures free { IfOk result (λ extent. (extent.len ≡ words) × IsFree pool.old.region pool.old.live words extent.at) }
    ensures by_trial { GivesPlace result (place_in pool.old words) }
    ensures taken { IfOk result (λ extent. pool.new ≡ taken extent pool.old) }
    ensures refused { IfErr result (λ _. pool.new ≡ pool.old) }
{
    if words == 0 {
        return Ok(Extent {
            at: POOL_BASE,
            len: 0,
        });
    }
    pool.take(words)
}

/// Gives back the words of the target of a new node, and of all nodes below it.
fn give_back_below(tree: &Tree<Held>, new: &NewNode, pool: &mut Pool)
    requires live { (e : Extent) → 1 ≤ e.len → times e (live_held (subtree new.now.target tree.now.attached)) ≤ times e pool.old.live }
    requires room { amount (λ e. 1) (live_held (subtree new.now.target tree.now.attached)) ≤ room_of pool.old.journal }
    ensures live { (e : Extent) → 1 ≤ e.len → times e pool.old.live ≡ times e (live_held (subtree new.now.target tree.now.attached)) + times e pool.new.live }
    ensures mark { mark_of pool.new.journal ≡ mark_of pool.old.journal }
    ensures saved { saved_of pool.new.journal ≡ saved_of pool.old.journal }
    ensures region { pool.new.region ≡ pool.old.region }
{
    for member in tree.members(new.target) {
        give_back(pool, member.payload);
    }
}

/// Gives back the words of the nodes that a new one replaces.
fn give_back_replaced(tree: &Tree<Held>, new: &NewNode, pool: &mut Pool)
    requires live { (e : Extent) → 1 ≤ e.len → times e (live_held (gone_by (replaces new.now.action) new.now.target tree.now.attached)) ≤ times e pool.old.live }
    requires room { amount (λ e. 1) (live_held (gone_by (replaces new.now.action) new.now.target tree.now.attached)) ≤ room_of pool.old.journal }
    ensures live { (e : Extent) → 1 ≤ e.len → times e pool.old.live ≡ times e (live_held (gone_by (replaces new.now.action) new.now.target tree.now.attached)) + times e pool.new.live }
    ensures mark { mark_of pool.new.journal ≡ mark_of pool.old.journal }
    ensures saved { saved_of pool.new.journal ≡ saved_of pool.old.journal }
    ensures region { pool.new.region ≡ pool.old.region }
{
    if replaces(new) {
        give_back_below(tree, new, pool);
    }
}

/// Adds a synth to the tree, and tells of it at its place there, after the ends of the nodes that it replaces. After
/// `NoMemory` it may be in the tree, and some clients may have been told.
fn add_and_tell(
    alloc: Global,
    tree: &mut Tree<Held>,
    flags: &Flags,
    node: &NodeId,
    new: &NewNode,
    held: Held,
    replies: &mut Replies,
) -> Result<(), NoMemory>
    requires still { IsOpen tree.old.journal }
    requires room { HasRoom tree.old.journal }
    ensures ok { OnOk result (tree.new ≡ added (replaces new.now.action) node.now.id kinds.Synth (action_for new.now.action) new.now.target held tree.old) }
    ensures told { OnOk result (Tells (replaces new.now.action) (views_below new.now.target tree.old.attached) node.now.id (view_of node.now.id tree.new.attached) flags.now replies.old replies.new) }
    ensures still { IsOpen tree.new.journal }
    ensures kept { undone tree.new ≡ undone tree.old }
    ensures continues { Continues replies.old replies.new }
{
    tell_replaced(alloc, tree, flags, new, replies)?;
    add(tree, node, NodeKind::Synth, new, held)?;
    if !is_heard(flags) {
        return Ok(());
    }
    let Some(view) = view_of(tree, node) else {
        return Ok(());
    };
    tell_of(alloc, flags, NodeEvent::Went, node, &view, replies)
}

/// Ends the detached nodes, whose words were given back before.
fn drop_detached(tree: &mut Tree<Held>)
    requires closed { tree.old.journal ≡ None }
    ensures { tree.new ≡ record tree.old { detached = none } }
{
    while let Some(_ended) = tree.free() {}
}

/// Adds a synth to the tree, and tells of it at its place there, after the ends of the nodes that it replaces. After
/// `NoMemory` the tree and the replies are as they were.
fn add_told(
    alloc: Global,
    tree: &mut Tree<Held>,
    flags: &Flags,
    node: &NodeId,
    new: &NewNode,
    held: Held,
    replies: &mut Replies,
) -> Result<(), NoMemory>
    requires settled { tree.old.journal ≡ None }
    ensures ok { OnOk result (tree.new ≡ record { attached = placed new.now (leaf node.now.id kinds.Synth held) tree.old.attached; detached = none; journal = None }) }
    ensures told { OnOk result (Tells (replaces new.now.action) (views_below new.now.target tree.old.attached) node.now.id (view_of node.now.id tree.new.attached) flags.now replies.old replies.new) }
    ensures err { OnErr result (tree.new ≡ tree.old) }
    ensures untold { OnErr result (replies.new ≡ replies.old) }
{
    let told = replies.len();
    tree.begin(1)?;
    match add_and_tell(alloc, tree, flags, node, new, held, replies) {
        Ok(()) => {
            tree.commit();
            drop_detached(tree);
            Ok(())
        }
        Err(fault) => {
            tree.undo();
            replies.truncate(told);
            Err(fault)
        }
    }
}

/// Puts a synth into the tree, tells of it, and returns where its words are. `None` comes if the pool has no place for
/// them, even after the nodes that the synth replaces have given theirs back. If no synth was put, nothing has changed,
/// and nothing was told.
pub fn add_synth(
    alloc: Global,
    stage: &mut Stage,
    node: &NodeId,
    new: &NewNode,
    def: Arc<Def, Global>,
    controls: Controls,
    replies: &mut Replies,
) -> Result<Option<Extent>, NoMemory>
    requires base { stage.old.pool.region.at ≡ bus_words }
    requires settled { stage.old.tree.journal ≡ None }
    requires closed { stage.old.pool.journal ≡ None }
    requires rate { stage.old.rate ≤ high_rate }
    requires live { (e : Extent) → 1 ≤ e.len → times e (live_held stage.old.tree.attached) ≤ times e stage.old.pool.live }
    ensures adds { Adds node.now.id new.now (λ state. held.Synth def controls state) (state_words stage.old.rate (definition_of def.value)) stage.old stage.new result }
    ensures told { TellsOf node.now.id new.now stage.old stage.new replies.old replies.new result }
{
    let words = def.state_words(stage.rate);
    let mark = stage.pool.begin(stage.tree.len())?;
    give_back_replaced(&stage.tree, new, &mut stage.pool);
    let state = match place(&mut stage.pool, words) {
        Ok(state) => state,
        Err(fault) => {
            stage.pool.undo(mark);
            return match fault {
                Untaken::Full => Ok(None),
                Untaken::NoMemory => Err(NoMemory),
            };
        }
    };
    let held = Held::Synth {
        def,
        controls,
        state,
    };
    match add_told(
        alloc,
        &mut stage.tree,
        &stage.notify,
        node,
        new,
        held,
        replies,
    ) {
        Ok(()) => {
            stage.pool.commit(mark);
            Ok(Some(state))
        }
        Err(_) => {
            stage.pool.undo(mark);
            Err(NoMemory)
        }
    }
}

/// Sets words to 0.
pub fn clear<P: Port>(port: &mut P, state: Extent)
    requires below { state.at + state.len < 2 ^ 32 }
    requires foot { (k : ℕ) → k < state.len → writes (P.foot port.old) (state.at + k) ≡ true }
    ensures words { P.words port.new ≡ cleared (P.words port.old) state.at state.len }
    ensures port { SameButWords P.foot P.rest port.old port.new }
{
    for i in 0..state.len {
        port.store(state.at + i, 0);
    }
}
