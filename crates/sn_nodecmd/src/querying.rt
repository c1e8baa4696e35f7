//! `/n_query`.
ghost use Rattle.std.specs.Prelude.{◌≡◌, List, ℕ, map};
ghost use Rattle.sn_osc.specs.Shape.{argument_of};
ghost use Rattle.sn_world.specs.World.{turn_of};
ghost use Rattle.sn_world.specs.Queries.{query_row};
ghost use Rattle.sn_world.specs.Answers.{Follows, UnlessFollowed};

use crate::questions::{Question, answer_all};
use sn_osc::Arg;
use sn_ports::NoMemory;
use sn_reply::{Reason, Replies, To};
use sn_world::{NodeEvent, NodeQuery, Stage, event_message, singles, some_of};
use std::alloc::Global;

impl Question for NodeQuery {
    ghost use Rattle.sn_world.specs.Queries.{judge_query, act_query};

    ghost judge = { judge_query };

    ghost act = { act_query };

    fn answer(
        &self,
        alloc: Global,
        stage: &Stage,
        from: u32,
        replies: &mut Replies,
    ) -> Result<Option<Reason>, NoMemory> {
        let Some(view) = stage.tree.node(self.id) else {
            return Ok(Some(Reason::NoSuchNode));
        };
        let message = event_message(alloc, NodeEvent::Asked, self.id, &view)?;
        replies.push(To::Client(from), message)?;
        Ok(None)
    }
}

/// `/n_query` id..
pub fn run_query(
    alloc: Global,
    stage: &Stage,
    arguments: &[Arg],
    from: u32,
    replies: &mut Replies,
) -> Result<Option<Reason>, NoMemory>
    ensures row { (words : List ℕ) → Follows result (query_row from (map argument_of arguments.now) (turn_of stage.now words replies.old)) (turn_of stage.now words replies.new) }
    ensures untold { UnlessFollowed result (replies.new ≡ replies.old) }
{
    let Some(queries) = some_of(singles::<NodeQuery>(alloc, arguments)?) else {
        return Ok(Some(Reason::Arguments));
    };
    answer_all(alloc, stage, &queries, from, replies)
}
