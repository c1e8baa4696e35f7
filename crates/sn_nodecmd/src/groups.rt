//! Groups that are made.
ghost use Rattle.std.specs.Prelude.{◌≡◌, map, OnOk, IfOk, Some, None, List, ℕ};
ghost use Rattle.std.specs.Option.{option_map};
ghost use Rattle.sn_tree.specs.Steps.{HasRoom};
ghost use Rattle.sn_osc.specs.Shape.{argument_of};
ghost use Rattle.sn_world.specs.World.{turn_of};
ghost use Rattle.sn_world.specs.Rows.{triples};
ghost use Rattle.sn_world.specs.NewNodes.{group_kind, new_group, node_refusal, act_with};
ghost use Rattle.sn_world.specs.Answers.{Continues};
ghost use Rattle.sn_nodecmd.specs.Folding.{Keeps};

use crate::adding::{add, tell_replaced};
use crate::folding::Repetition;
use crate::judging::{id_for, next_after, refusal};
use crate::telling::tell;
use sn_osc::Arg;
use sn_ports::NoMemory;
use sn_reply::{Reason, Replies};
use sn_tree::NodeKind;
use sn_world::{Held, NewGroup, NewNode, NodeEvent, NodeId, Stage, Triple};
use std::alloc::Global;

/// The kind of a group, by whether its members may be rendered beside each other.
fn group_kind(parallel: bool) -> NodeKind
    ensures { result ≡ group_kind parallel }
{
    if parallel {
        NodeKind::Parallel
    } else {
        NodeKind::Group
    }
}

fn new_group(parallel: bool, id: &Arg, action: &Arg, target: &Arg) -> Option<NewGroup>
    ensures { result ≡ new_group parallel (argument_of id.now) (argument_of action.now) (argument_of target.now) }
{
    match NewNode::from_three(id, action, target) {
        Some(node) => Some(NewGroup { parallel, node }),
        None => None,
    }
}

/// Groups, each of three arguments: (id action target)..
pub fn groups_of(
    alloc: Global,
    parallel: bool,
    arguments: &[Arg],
) -> Result<Option<Vec<NewGroup>>, NoMemory>
    ensures { IfOk result (λ found. option_map (λ v. v.items) found ≡ triples (new_group parallel) (map argument_of arguments.now)) }
{
    let mut found = Vec::new(alloc);
    let mut rest = arguments;
    while let [id, action, target, after @ ..] = rest {
        let Some(one) = new_group(parallel, id, action, target) else {
            return Ok(None);
        };
        found.push(one)?;
        rest = after;
    }
    if rest.is_empty() {
        Ok(Some(found))
    } else {
        Ok(None)
    }
}

/// Makes a group that nothing is against, and tells of it.
fn make_group(
    alloc: Global,
    stage: &mut Stage,
    node: &NodeId,
    group: &NewGroup,
    replies: &mut Replies,
) -> Result<(), NoMemory>
    requires allowed { node_refusal (Some node.now.id) group.now.node.action group.now.node.target stage.old.tree.attached ≡ None }
    requires room { HasRoom stage.old.tree.journal }
    ensures row { OnOk result ((words : List ℕ) → act_with (group_kind group.now.parallel) group.now.node (Some node.now.id) (turn_of stage.old words replies.old) ≡ turn_of stage.new words replies.new) }
    ensures keeps { Keeps stage.old stage.new }
    ensures continues { Continues replies.old replies.new }
{
    tell_replaced(alloc, &stage.tree, &stage.notify, &group.node, replies)?;
    let kind = group_kind(group.parallel);
    add(&mut stage.tree, node, kind, &group.node, Held::Group)?;
    stage.next_id = next_after(stage.next_id, &group.node);
    tell(alloc, stage, NodeEvent::Went, node, replies)
}

impl Repetition for NewGroup {
    ghost use Rattle.sn_world.specs.NewNodes.{judge_group, act_group};

    ghost judge = { judge_group };

    ghost act = { act_group };

    fn step(
        &self,
        alloc: Global,
        stage: &mut Stage,
        replies: &mut Replies,
    ) -> Result<Option<Reason>, NoMemory> {
        let Some(node) = id_for(stage.next_id, &self.node) else {
            return Ok(Some(Reason::IdInUse));
        };
        if let Some(reason) = refusal(&stage.tree, &node, &self.node) {
            return Ok(Some(reason));
        }
        make_group(alloc, stage, &node, self, replies)?;
        Ok(None)
    }
}
