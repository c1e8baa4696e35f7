//! Commands that free what lies below groups.
ghost use Rattle.std.specs.Prelude.{◌≡◌, ◌<◌, ◌+◌, ◌*◌, ◌^◌, IfOk, OnOk, List, [], ℕ, pos, false, length, map};
ghost use Rattle.std.specs.List.{All};
ghost use Rattle.std.specs.Ordering.{int_eq};
ghost use Rattle.sn_osc.specs.Shape.{argument_of};
ghost use Rattle.sn_tree.specs.Trees.{children};
ghost use Rattle.sn_tree.specs.Below.{top_ids, synth_ids};
ghost use Rattle.sn_world.specs.World.{turn_of};
ghost use Rattle.sn_world.specs.Freeing.{freed};
ghost use Rattle.sn_world.specs.Pictures.{Pictures};
ghost use Rattle.sn_world.specs.Rows.{row, steps, singles, some_of};
ghost use Rattle.sn_world.specs.Emptying.{freed_each, group_refusal, deep_free, judge_deep_free, act_deep_free};
ghost use Rattle.sn_world.specs.Answers.{Continues, Follows, UnlessFollowed};
ghost use Rattle.sn_nodecmd.specs.Again.{repeated};
ghost use Rattle.sn_nodecmd.specs.Folding.{CanStep, IsAtRest, Keeps};
ghost use Rattle.sn_nodecmd.specs.Sparing.{SparesRoom};

use crate::folding::{Repetition, each};
use crate::freeing::{free_node, is_attached};
use crate::judging::is_synth;
use crate::telling::view_of;
use sn_osc::Arg;
use sn_ports::NoMemory;
use sn_reply::{Reason, Replies};
use sn_tree::Tree;
use sn_world::{DeepFree, FreeAll, Held, NodeId, Stage, singles, some_of};
use std::alloc::Global;
use std::collections::BTreeSet;

/// The first reason against freeing what lies below a group.
fn refusal(tree: &Tree<Held>, group: &NodeId) -> Option<Reason>
    ensures { result ≡ group_refusal group.now.id tree.now.attached }
{
    let Some(view) = view_of(tree, group) else {
        return Some(Reason::NoSuchNode);
    };
    if is_synth(view.kind) {
        return Some(Reason::NotGroup);
    }
    None
}

/// The children of a group.
fn children_of(tree: &Tree<Held>, group: &NodeId) -> Result<Vec<i32>, NoMemory>
    ensures value { IfOk result (λ ids. ids.items ≡ top_ids (children group.now.id tree.now.attached)) }
    ensures apart { IfOk result (λ ids. All (λ id. int_eq id (pos 0) ≡ false) ids.items) }
{
    tree.root_is_on_top(group.id);
    tree.children(group.id)
}

/// All synths below a group.
fn synths_of(tree: &Tree<Held>, group: &NodeId) -> Result<Vec<i32>, NoMemory>
    ensures value { IfOk result (λ ids. ids.items ≡ synth_ids (children group.now.id tree.now.attached)) }
    ensures apart { IfOk result (λ ids. All (λ id. int_eq id (pos 0) ≡ false) ids.items) }
{
    tree.root_is_on_top(group.id);
    tree.synths_below(group.id)
}

/// Frees a node and all below it, and tells of each of them. If it is gone, nothing changes.
fn free_one(
    alloc: Global,
    stage: &mut Stage,
    node: &NodeId,
    replies: &mut Replies,
) -> Result<(), NoMemory>
    requires below { int_eq node.now.id (pos 0) ≡ false }
    requires room { CanStep stage.old.tree }
    ensures row { OnOk result ((words : List ℕ) → freed node.now.id (turn_of stage.old words replies.old) ≡ turn_of stage.new words replies.new) }
    ensures keeps { Keeps stage.old stage.new }
    ensures spares { SparesRoom stage.old.tree stage.new.tree }
    ensures continues { Continues replies.old replies.new }
{
    if !is_attached(&stage.tree, node) {
        return Ok(());
    }
    free_node(alloc, stage, node, replies)
}

/// Frees nodes one after the other. Each is told at the place where it stands after the earlier ones are gone.
fn free_each(
    alloc: Global,
    stage: &mut Stage,
    ids: &[i32],
    replies: &mut Replies,
) -> Result<(), NoMemory>
    requires apart { All (λ id. int_eq id (pos 0) ≡ false) ids.now }
    requires room { CanStep stage.old.tree }
    ensures row { OnOk result ((words : List ℕ) → freed_each ids.now (turn_of stage.old words replies.old) ≡ turn_of stage.new words replies.new) }
    ensures keeps { Keeps stage.old stage.new }
    ensures continues { Continues replies.old replies.new }
{
    for id in ids {
        let node = NodeId { id: *id };
        free_one(alloc, stage, &node, replies)?;
    }
    Ok(())
}

impl Repetition for FreeAll {
    ghost use Rattle.sn_world.specs.Emptying.{judge_free_all, act_free_all};

    ghost judge = { judge_free_all };

    ghost act = { act_free_all };

    fn step(
        &self,
        alloc: Global,
        stage: &mut Stage,
        replies: &mut Replies,
    ) -> Result<Option<Reason>, NoMemory> {
        let group = NodeId { id: self.group };
        if let Some(reason) = refusal(&stage.tree, &group) {
            return Ok(Some(reason));
        }
        let children = children_of(&stage.tree, &group)?;
        free_each(alloc, stage, &children, replies)?;
        Ok(None)
    }
}

/// A group of a `/g_deepFree`. If it stood before, no synth is left below it, and it isn't walked again.
#[derive(Clone, Copy)]
pub struct RepeatedGroup {
    pub group: i32,
    /// Whether it stood before.
    pub again: bool,
}

impl Repetition for RepeatedGroup {
    ghost use Rattle.sn_nodecmd.specs.Again.{judge_repeated, act_repeated};

    ghost judge = { judge_repeated };

    ghost act = { act_repeated };

    fn step(
        &self,
        alloc: Global,
        stage: &mut Stage,
        replies: &mut Replies,
    ) -> Result<Option<Reason>, NoMemory> {
        let group = NodeId { id: self.group };
        if let Some(reason) = refusal(&stage.tree, &group) {
            return Ok(Some(reason));
        }
        if self.again {
            return Ok(None);
        }
        let synths = synths_of(&stage.tree, &group)?;
        free_each(alloc, stage, &synths, replies)?;
        Ok(None)
    }
}

/// The groups in their order, each with whether it stood before.
fn repeated(alloc: Global, groups: &[DeepFree]) -> Result<Vec<RepeatedGroup>, NoMemory>
    ensures { IfOk result (λ found. found.items ≡ repeated [] groups.now) }
{
    let mut earlier = BTreeSet::new(alloc);
    let mut found = Vec::new(alloc);
    for deep_free in groups {
        let group = deep_free.group;
        let again = !earlier.insert(group)?;
        found.push(RepeatedGroup { group, again })?;
    }
    Ok(found)
}

/// Frees the synths below groups.
fn free_below(
    alloc: Global,
    stage: &mut Stage,
    groups: &[DeepFree],
    replies: &mut Replies,
) -> Result<Option<Reason>, NoMemory>
    requires rest { IsAtRest stage.old }
    requires few { length groups.now < 2 ^ 31 }
    ensures row { (words : List ℕ) → Follows result (steps judge_deep_free act_deep_free groups.now (turn_of stage.old words replies.old)) (turn_of stage.new words replies.new) }
    ensures unchanged { UnlessFollowed result (stage.new ≡ stage.old) }
    ensures untold { UnlessFollowed result (replies.new ≡ replies.old) }
    ensures pictures { (words : List ℕ) → Pictures stage.old words → Pictures stage.new words }
    ensures clients { stage.new.notify ≡ stage.old.notify }
    ensures region { stage.new.pool.region ≡ stage.old.pool.region }
{
    stage.tree.ids_are_distinct();
    let groups = repeated(alloc, groups)?;
    each(alloc, stage, &groups, replies)
}

/// `/g_deepFree` group..
pub fn run_deep_free(
    alloc: Global,
    stage: &mut Stage,
    arguments: &[Arg],
    replies: &mut Replies,
) -> Result<Option<Reason>, NoMemory>
    requires rest { IsAtRest stage.old }
    requires few { 16 * length arguments.now + 2 ^ 20 < 2 ^ 31 }
    ensures row { (words : List ℕ) → Follows result (row judge_deep_free act_deep_free (some_of (singles deep_free (map argument_of arguments.now))) (turn_of stage.old words replies.old)) (turn_of stage.new words replies.new) }
    ensures unchanged { UnlessFollowed result (stage.new ≡ stage.old) }
    ensures untold { UnlessFollowed result (replies.new ≡ replies.old) }
    ensures pictures { (words : List ℕ) → Pictures stage.old words → Pictures stage.new words }
    ensures clients { stage.new.notify ≡ stage.old.notify }
    ensures region { stage.new.pool.region ≡ stage.old.pool.region }
{
    let found = singles::<DeepFree>(alloc, arguments)?;
    let Some(groups) = some_of(found) else {
        return Ok(Some(Reason::Arguments));
    };
    free_below(alloc, stage, &groups, replies)
}
