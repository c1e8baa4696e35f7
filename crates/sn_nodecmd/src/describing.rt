//! `/g_queryTree`.
ghost use Rattle.std.specs.Prelude.{◌≡◌, ◌≤◌, ◌∷◌, ◌++◌, [], List, ℕ, pos, negsuc, length, map, true, IfOk, OnOk};
ghost use Rattle.sn_ports.specs.Limits.{most_nodes};
ghost use Rattle.sn_osc.specs.Shape.{argument_of, message_of, int, string};
ghost use Rattle.sn_reply.specs.Sending.{IsSendable};
ghost use Rattle.sn_def.specs.Grammar.{is_given_name};
ghost use Rattle.sn_tree.specs.Trees.{count};
ghost use Rattle.sn_world.specs.World.{turn_of};
ghost use Rattle.sn_world.specs.TreeQueries.{tree_row};
ghost use Rattle.sn_world.specs.Answers.{Follows, UnlessFollowed};
ghost use Rattle.sn_nodecmd.specs.Describing.{held_arguments, described, HaveFew, tree_reply};

use crate::judging::is_synth;
use crate::questions::{Question, answer_all};
use sn_def::{Def, names_are_short};
use sn_osc::{Arg, Message};
use sn_ports::NoMemory;
use sn_reply::{Answer, Reason, Replies, To};
use sn_tree::{Member, Members, Tree};
use sn_world::{Held, Stage, TreeQuery, pairs, some_of};
use std::alloc::Global;

/// A law: a definition has a name.
fn is_named(def: &Def)
    ensures { is_given_name def.now.name.bytes ≡ true }
{
    names_are_short();
}

/// A synth: its id, -1, and the name of its definition.
fn push_synth(answer: &mut Answer, id: i32, def: &Def) -> Result<(), NoMemory>
    ensures { OnOk result (answer.new ≡ answer.old ++ int id ∷ int (negsuc 0) ∷ string def.now.name.bytes ∷ []) }
{
    is_named(def);
    answer.push_int(id)?;
    answer.push_int(-1)?;
    answer.push_name(def.name.as_slice())
}

/// A group: its id, and the number of its children.
fn push_group(answer: &mut Answer, id: i32, children: u32) -> Result<(), NoMemory>
    requires few { children ≤ most_nodes }
    ensures { OnOk result (answer.new ≡ answer.old ++ int id ∷ int (pos children) ∷ []) }
{
    answer.push_int(id)?;
    answer.push_int(children as i32)
}

fn push_member(answer: &mut Answer, member: &Member<'_, Held>) -> Result<(), NoMemory>
    requires few { member.now.children ≤ most_nodes }
    ensures { OnOk result (answer.new ≡ answer.old ++ held_arguments member.now.id member.now.payload.now member.now.children) }
{
    match member.payload {
        Held::Group => push_group(answer, member.id, member.children),
        Held::Synth { def, .. } => push_synth(answer, member.id, def),
    }
}

/// Each of these nodes, in their order.
fn push_members(answer: &mut Answer, members: Members<'_, Held>) -> Result<(), NoMemory>
    requires few { HaveFew members }
    ensures { OnOk result (answer.new ≡ answer.old ++ described members.entry) }
{
    for member in members {
        push_member(answer, &member)?;
    }
    Ok(())
}

/// The message `/g_queryTree.reply` of a group with `children` children and these nodes below it.
fn tree_message(
    alloc: Global,
    group: i32,
    children: u32,
    below: Members<'_, Held>,
) -> Result<Message, NoMemory>
    requires few { children ≤ most_nodes }
    requires each { HaveFew below }
    requires all { length below ≤ most_nodes }
    ensures message { IfOk result (λ m. message_of m ≡ tree_reply group children below.entry) }
    ensures sendable { IfOk result (λ m. IsSendable (message_of m)) }
{
    let mut answer = Answer::new(alloc);
    answer.push_int(0)?;
    push_group(&mut answer, group, children)?;
    push_members(&mut answer, below)?;
    answer.into_message(b"/g_queryTree.reply")
}

/// A law: a tree has at most 4,096 nodes.
fn are_few(tree: &Tree<Held>)
    ensures { count tree.now.attached ≤ most_nodes }
{
    // The proof takes the law from the length.
    let _ = tree.len();
}

impl Question for TreeQuery {
    ghost use Rattle.sn_world.specs.TreeQueries.{judge_tree, act_tree};

    ghost judge = { judge_tree };

    ghost act = { act_tree };

    fn answer(
        &self,
        alloc: Global,
        stage: &Stage,
        from: u32,
        replies: &mut Replies,
    ) -> Result<Option<Reason>, NoMemory> {
        are_few(&stage.tree);
        let mut members = stage.tree.members(self.group);
        let Some(group) = members.next() else {
            return Ok(Some(Reason::NoSuchNode));
        };
        if is_synth(group.kind) {
            return Ok(Some(Reason::NotGroup));
        }
        let message = tree_message(alloc, self.group, group.children, members)?;
        replies.push(To::Client(from), message)?;
        Ok(None)
    }
}

/// `/g_queryTree` (group 0)..
pub fn run_tree_query(
    alloc: Global,
    stage: &Stage,
    arguments: &[Arg],
    from: u32,
    replies: &mut Replies,
) -> Result<Option<Reason>, NoMemory>
    ensures row { (words : List ℕ) → Follows result (tree_row from (map argument_of arguments.now) (turn_of stage.now words replies.old)) (turn_of stage.now words replies.new) }
    ensures untold { UnlessFollowed result (replies.new ≡ replies.old) }
{
    let Some(queries) = some_of(pairs::<TreeQuery>(alloc, arguments)?) else {
        return Ok(Some(Reason::Arguments));
    };
    answer_all(alloc, stage, &queries, from, replies)
}
