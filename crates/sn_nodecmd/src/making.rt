//! `/s_new`.
ghost use Rattle.std.specs.Prelude.{◌≡◌, ℕ, map, length, Some};
ghost use Rattle.sn_osc.specs.Shape.{argument_of};
ghost use Rattle.sn_mem.specs.Words.{SameButWords};
ghost use Rattle.sn_def.specs.Defs.{definition_of};
ghost use Rattle.sn_world.specs.World.{turn_of};
ghost use Rattle.sn_world.specs.Pictures.{Pictures, WritesWorld, KeepsOutside};
ghost use Rattle.sn_world.specs.NewSynth.{new_of, new_row};
ghost use Rattle.sn_world.specs.Answers.{Follows, UnlessFollowed};
ghost use Rattle.sn_nodecmd.specs.Asking.{request_of, AreValues};

use crate::asked::{AskedSynth, asked_by};
use crate::controls::controls_of;
use crate::judging::{id_for, next_after, refusal};
use crate::placing::{add_synth, clear};
use sn_def::Def;
use sn_mem::Port;
use sn_osc::Arg;
use sn_ports::NoMemory;
use sn_reply::{Reason, Replies};
use sn_world::Stage;
use std::alloc::Global;
use std::sync::Arc;

/// Makes a synth of a definition, and tells of it.
fn make<P: Port>(
    alloc: Global,
    stage: &mut Stage,
    port: &mut P,
    asked: &AskedSynth<'_>,
    def: Arc<Def, Global>,
    replies: &mut Replies,
) -> Result<Option<Reason>, NoMemory>
    requires values { AreValues asked.now.values.now }
    requires pictures { Pictures stage.old (P.words port.old) }
    requires foot { WritesWorld (P.foot port.old) stage.old.pool.region }
    ensures row { Follows result (new_of (request_of asked.now) (Some (definition_of def.value)) (turn_of stage.old (P.words port.old) replies.old)) (turn_of stage.new (P.words port.new) replies.new) }
    ensures unchanged { UnlessFollowed result (stage.new ≡ stage.old) }
    ensures untouched { UnlessFollowed result (P.words port.new ≡ P.words port.old) }
    ensures untold { UnlessFollowed result (replies.new ≡ replies.old) }
    ensures pictures { Pictures stage.new (P.words port.new) }
    ensures clients { stage.new.notify ≡ stage.old.notify }
    ensures region { stage.new.pool.region ≡ stage.old.pool.region }
    ensures others { KeepsOutside stage.old.pool.region (P.words port.old) (P.words port.new) }
    ensures len { length (P.words port.new) ≡ length (P.words port.old) }
    ensures port { SameButWords P.foot P.rest port.old port.new }
{
    let new = &asked.node;
    let Some(node) = id_for(stage.next_id, new) else {
        return Ok(Some(Reason::IdInUse));
    };
    if let Some(reason) = refusal(&stage.tree, &node, new) {
        return Ok(Some(reason));
    }
    let controls = controls_of(alloc, &def, asked.values)?;
    let Some(state) = add_synth(alloc, stage, &node, new, def, controls, replies)? else {
        return Ok(Some(Reason::PoolFull));
    };
    clear(port, state);
    stage.next_id = next_after(stage.next_id, new);
    Ok(None)
}

/// `/s_new` name id action target (control value)..
pub fn run_new<P: Port>(
    alloc: Global,
    stage: &mut Stage,
    port: &mut P,
    arguments: &[Arg],
    replies: &mut Replies,
) -> Result<Option<Reason>, NoMemory>
    requires pictures { Pictures stage.old (P.words port.old) }
    requires foot { WritesWorld (P.foot port.old) stage.old.pool.region }
    ensures row { (from : ℕ) → Follows result (new_row from (map argument_of arguments.now) (turn_of stage.old (P.words port.old) replies.old)) (turn_of stage.new (P.words port.new) replies.new) }
    ensures unchanged { UnlessFollowed result (stage.new ≡ stage.old) }
    ensures untouched { UnlessFollowed result (P.words port.new ≡ P.words port.old) }
    ensures untold { UnlessFollowed result (replies.new ≡ replies.old) }
    ensures pictures { Pictures stage.new (P.words port.new) }
    ensures clients { stage.new.notify ≡ stage.old.notify }
    ensures region { stage.new.pool.region ≡ stage.old.pool.region }
    ensures others { KeepsOutside stage.old.pool.region (P.words port.old) (P.words port.new) }
    ensures len { length (P.words port.new) ≡ length (P.words port.old) }
    ensures port { SameButWords P.foot P.rest port.old port.new }
{
    let Some(asked) = asked_by(arguments) else {
        return Ok(Some(Reason::Arguments));
    };
    let Some(def) = stage.defs.named(asked.name) else {
        return Ok(Some(Reason::NoSuchDefinition));
    };
    let def = Arc::try_clone(def)?;
    make(alloc, stage, port, &asked, def, replies)
}
