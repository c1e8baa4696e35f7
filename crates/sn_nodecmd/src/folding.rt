//! Repetitions that change the tree, each judged in what the earlier ones left.
ghost use Rattle.std.specs.Prelude.{◌≡◌, ◌<◌, ◌^◌, List, ℕ, length, IfOk, IfErr, IfSome};
ghost use Rattle.std.specs.Option.{option_map};
ghost use Rattle.sn_reply.specs.Replies.{ReplyShape};
ghost use Rattle.sn_world.specs.Answers.{Follows, UnlessFollowed};
ghost use Rattle.sn_world.specs.Pictures.{Pictures};
ghost use Rattle.sn_world.specs.Rows.{row, some_of, steps};
ghost use Rattle.sn_world.specs.World.{turn_of};
ghost use Rattle.sn_nodecmd.specs.Folding.{IsAtRest, IsUnderway, WasAtRest};

use sn_pool::Mark;
use sn_ports::NoMemory;
use sn_reply::{Reason, Replies};
use sn_world::{Stage, end_freed, some_of};
use std::alloc::Global;

/// What a message repeats.
pub trait Repetition {
    ghost use Rattle.std.specs.Prelude.{Option, List, ℕ, ◌≡◌};
    ghost use Rattle.sn_reply.specs.declared.reason.Reason.{Reason};
    ghost use Rattle.sn_world.specs.Answers.{Continues};
    ghost use Rattle.sn_world.specs.World.{World, Turn, turn_of, world_of};
    ghost use Rattle.sn_nodecmd.specs.Folding.{CanStep, Keeps, Steps};

    /// The first reason against it.
    ghost judge: { World → Self → Option Reason };

    /// What it does.
    ghost act: { Self → Turn → Turn };

    /// Judges a repetition, and does what it asks for if nothing is against it. Else the stage and the replies may be
    /// left half changed.
    fn step(
        &self,
        alloc: Global,
        stage: &mut Stage,
        replies: &mut Replies,
    ) -> Result<Option<Reason>, NoMemory>
        requires { CanStep stage.old.tree }
        ensures row { (words : List ℕ) → Steps result (judge (world_of stage.old words) self.now) (act self.now (turn_of stage.old words replies.old)) (turn_of stage.new words replies.new) }
        ensures keeps { Keeps stage.old stage.new }
        ensures continues { Continues replies.old replies.new };
}

/// Opens the journals of a stage.
fn begin(stage: &mut Stage, repetitions: usize) -> Result<Mark, NoMemory>
    requires rest { IsAtRest stage.old }
    requires few { repetitions < 2 ^ 31 }
    ensures begun { IfOk result (λ mark. IsUnderway repetitions mark stage.old stage.new) }
    ensures same { IfOk result (λ _. (words : List ℕ) (replies : List ReplyShape) → turn_of stage.new words replies ≡ turn_of stage.old words replies) }
    ensures refused { IfErr result (λ _. stage.new ≡ stage.old) }
{
    let nodes = stage.tree.len();
    let mark = stage.pool.begin(nodes)?;
    match stage.tree.begin(nodes + repetitions as u32) {
        Ok(()) => Ok(mark),
        Err(fault) => {
            stage.pool.undo(mark);
            Err(fault)
        }
    }
}

/// Puts a stage back as it was when its journals were opened.
fn undo(stage: &mut Stage, mark: Mark, next_id: Option<i32>)
    requires { WasAtRest mark stage.old }
    ensures { (left : ℕ) (old : Stage) → IsUnderway left mark old stage.old → IsAtRest old → stage.new ≡ record old { next_id = next_id } }
{
    stage.tree.undo();
    stage.pool.undo(mark);
    stage.next_id = next_id;
}

/// Closes the journals of a stage, and ends what was freed.
fn commit(stage: &mut Stage, mark: Mark)
    requires { WasAtRest mark stage.old }
    ensures same { (words : List ℕ) (replies : List ReplyShape) → turn_of stage.new words replies ≡ turn_of stage.old words replies }
    ensures pictures { (left : ℕ) (old : Stage) (words : List ℕ) → IsUnderway left mark old stage.old → Pictures old words → Pictures stage.new words }
    ensures clients { stage.new.notify ≡ stage.old.notify }
    ensures region { stage.new.pool.region ≡ stage.old.pool.region }
{
    stage.tree.commit();
    end_freed(&mut stage.tree, &mut stage.pool);
    stage.pool.commit(mark);
}

/// Carries out repetitions one after the other, each judged in what the earlier ones left: all of them, or none. If
/// there is a reason against one, or memory runs out, the stage and the replies are as they were.
pub fn each<R: Repetition>(
    alloc: Global,
    stage: &mut Stage,
    repetitions: &[R],
    replies: &mut Replies,
) -> Result<Option<Reason>, NoMemory>
    requires rest { IsAtRest stage.old }
    requires few { length repetitions.now < 2 ^ 31 }
    ensures row { (words : List ℕ) → Follows result (steps R.judge R.act repetitions.now (turn_of stage.old words replies.old)) (turn_of stage.new words replies.new) }
    ensures unchanged { UnlessFollowed result (stage.new ≡ stage.old) }
    ensures untold { UnlessFollowed result (replies.new ≡ replies.old) }
    ensures pictures { (words : List ℕ) → Pictures stage.old words → Pictures stage.new words }
    ensures clients { stage.new.notify ≡ stage.old.notify }
    ensures region { stage.new.pool.region ≡ stage.old.pool.region }
{
    let next_id = stage.next_id;
    let told = replies.len();
    let mark = begin(stage, repetitions.len())?;
    for repetition in repetitions {
        match repetition.step(alloc, stage, replies) {
            Ok(None) => {}
            refused => {
                undo(stage, mark, next_id);
                replies.truncate(told);
                return refused;
            }
        }
    }
    commit(stage, mark);
    Ok(None)
}

/// Carries out repetitions as they were read from arguments, if there is at least one, as `each` does.
pub fn run<R: Repetition + Drop>(
    alloc: Global,
    stage: &mut Stage,
    found: Option<Vec<R>>,
    replies: &mut Replies,
) -> Result<Option<Reason>, NoMemory>
    requires rest { IsAtRest stage.old }
    requires few { IfSome (some_of (option_map (λ v. v.items) found)) (λ all. length all < 2 ^ 31) }
    ensures row { (words : List ℕ) → Follows result (row R.judge R.act (some_of (option_map (λ v. v.items) found)) (turn_of stage.old words replies.old)) (turn_of stage.new words replies.new) }
    ensures unchanged { UnlessFollowed result (stage.new ≡ stage.old) }
    ensures untold { UnlessFollowed result (replies.new ≡ replies.old) }
    ensures pictures { (words : List ℕ) → Pictures stage.old words → Pictures stage.new words }
    ensures clients { stage.new.notify ≡ stage.old.notify }
    ensures region { stage.new.pool.region ≡ stage.old.pool.region }
{
    let Some(repetitions) = some_of(found) else {
        return Ok(Some(Reason::Arguments));
    };
    each(alloc, stage, &repetitions, replies)
}
