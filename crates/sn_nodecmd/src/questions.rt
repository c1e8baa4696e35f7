//! Questions of a message, answered one after the other.
ghost use Rattle.std.specs.Prelude.{◌≡◌, List, ℕ};
ghost use Rattle.sn_world.specs.Answers.{Follows, UnlessFollowed};
ghost use Rattle.sn_world.specs.Rows.{steps};
ghost use Rattle.sn_world.specs.World.{turn_of};

use sn_ports::NoMemory;
use sn_reply::{Reason, Replies};
use sn_world::Stage;
use std::alloc::Global;

/// What a message asks more than once.
pub trait Question {
    ghost use Rattle.std.specs.Prelude.{Option, List, ℕ, ◌≡◌, length, take};
    ghost use Rattle.sn_reply.specs.declared.reason.Reason.{Reason};
    ghost use Rattle.sn_world.specs.World.{World, Turn, turn_of, world_of};
    ghost use Rattle.sn_nodecmd.specs.Folding.{Steps};

    /// The first reason against it.
    ghost judge: { World → Self → Option Reason };

    /// What a client is told.
    ghost act: { ℕ → Self → Turn → Turn };

    /// Answers to a client, if nothing is against it.
    fn answer(
        &self,
        alloc: Global,
        stage: &Stage,
        from: u32,
        replies: &mut Replies,
    ) -> Result<Option<Reason>, NoMemory>
        ensures row { (words : List ℕ) → Steps result (judge (world_of stage.now words) self.now) (act from self.now (turn_of stage.now words replies.old)) (turn_of stage.now words replies.new) }
        ensures earlier { take (length replies.old) replies.new ≡ replies.old };
}

/// Answers to a client: all questions, or none. If there is a reason against one, or memory runs out, the replies are
/// as they were.
pub fn answer_all<Q: Question>(
    alloc: Global,
    stage: &Stage,
    questions: &[Q],
    from: u32,
    replies: &mut Replies,
) -> Result<Option<Reason>, NoMemory>
    ensures row { (words : List ℕ) → Follows result (steps Q.judge (Q.act from) questions.now (turn_of stage.now words replies.old)) (turn_of stage.now words replies.new) }
    ensures untold { UnlessFollowed result (replies.new ≡ replies.old) }
{
    let told = replies.len();
    for question in questions {
        match question.answer(alloc, stage, from, replies) {
            Ok(None) => {}
            refused => {
                replies.truncate(told);
                return refused;
            }
        }
    }
    Ok(None)
}
