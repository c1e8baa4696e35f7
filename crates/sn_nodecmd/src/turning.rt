//! `/n_run`.
ghost use Rattle.std.specs.Prelude.{◌≡◌, true, List, ℕ, OnOk, Some};
ghost use Rattle.sn_tree.specs.Trees.{holds};
ghost use Rattle.sn_tree.specs.Steps.{HasRoom, running};
ghost use Rattle.sn_world.specs.World.{turn_of};
ghost use Rattle.sn_world.specs.Notices.{told};
ghost use Rattle.sn_world.specs.RunFlags.{is_flagged, turning};
ghost use Rattle.sn_world.specs.Answers.{Continues};

use crate::folding::Repetition;
use crate::telling::tell;
use sn_ports::NoMemory;
use sn_reply::{Reason, Replies};
use sn_tree::{NodeView, Tree};
use sn_world::{Held, NodeEvent, NodeId, RunFlag, Stage};
use std::alloc::Global;

fn turning(on: bool) -> NodeEvent
    ensures { result ≡ turning on }
{
    if on {
        NodeEvent::TurnedOn
    } else {
        NodeEvent::TurnedOff
    }
}

/// Whether a node has such a run flag.
fn is_flagged(on: bool, view: &NodeView) -> bool
    ensures { result ≡ is_flagged on (Some view.now) }
{
    if on { view.running } else { !view.running }
}

#[tactic(auto, using(sn_world::proofs::Turning::run_allowed))]
fn set_flag(tree: &mut Tree<Held>, flag: &RunFlag)
    requires there { holds flag.now.id tree.old.attached ≡ true }
    requires room { HasRoom tree.old.journal }
    ensures { tree.new ≡ running flag.now.id flag.now.on tree.old }
{
    match tree.set_run(flag.id, flag.on) {
        Ok(()) => {}
        Err(_) => unreachable!(),
    }
}

/// Tells clients that the run flag of a node has changed.
fn tell_turn(
    alloc: Global,
    stage: &Stage,
    flag: &RunFlag,
    replies: &mut Replies,
) -> Result<(), NoMemory>
    ensures told { OnOk result ((words : List ℕ) → turn_of stage.now words replies.new ≡ told (turning flag.now.on) flag.now.id (turn_of stage.now words replies.old)) }
    ensures continues { Continues replies.old replies.new }
{
    let node = NodeId { id: flag.id };
    tell(alloc, stage, turning(flag.on), &node, replies)
}

impl Repetition for RunFlag {
    ghost use Rattle.sn_world.specs.RunFlags.{judge_run, act_run};

    ghost judge = { judge_run };

    ghost act = { act_run };

    fn step(
        &self,
        alloc: Global,
        stage: &mut Stage,
        replies: &mut Replies,
    ) -> Result<Option<Reason>, NoMemory> {
        let Some(view) = stage.tree.node(self.id) else {
            return Ok(Some(Reason::NoSuchNode));
        };
        if is_flagged(self.on, &view) {
            return Ok(None);
        }
        set_flag(&mut stage.tree, self);
        tell_turn(alloc, stage, self, replies)?;
        Ok(None)
    }
}
