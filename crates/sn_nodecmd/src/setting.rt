//! `/n_set`, `/n_setn` and `/n_fill`, and what is set in synths.
ghost use Rattle.std.specs.Prelude.{◌≡◌, List, ℕ, None, Some, map, IfOk, OnOk, OnErr};
ghost use Rattle.std.specs.Option.{option_map};
ghost use Rattle.sn_osc.specs.Shape.{argument_of};
ghost use Rattle.sn_def.specs.Defs.{definition_of};
ghost use Rattle.sn_reply.specs.Replies.{ReplyShape};
ghost use Rattle.sn_tree.specs.Reworking.{changed_below};
ghost use Rattle.sn_world.specs.World.{turn_of};
ghost use Rattle.sn_world.specs.Pictures.{Pictures};
ghost use Rattle.sn_world.specs.ControlRuns.{asked_runs, with_runs, set_outcome};
ghost use Rattle.sn_world.specs.Answers.{Follows, UnlessFollowed};
ghost use Rattle.sn_nodecmd.specs.Runs.{run_of, reader};
ghost use Rattle.sn_nodecmd.specs.Laying.{laid_runs};
ghost use Rattle.sn_nodecmd.specs.Reworks.{held_with, request_of};

use crate::latest::latest;
use crate::laying::{Field, lay, lay_runs};
use crate::resolved::{Resolved, resolve_below};
use crate::runs::{Run, RunForm, runs_of};
use sn_def::{Controls, Def};
use sn_osc::Arg;
use sn_ports::NoMemory;
use sn_reply::Reason;
use sn_tree::{ChangePayload, Tree};
use sn_world::{Held, Stage, some_of};
use std::alloc::Global;

/// A node, and the runs of controls that are set in it and in all nodes below it.
#[derive(Drop)]
pub struct AskedRuns<'a> {
    pub id: i32,
    pub runs: Vec<Run<'a>>,
}

/// Runs whose numbers go to a field of the controls of synths.
#[derive(Clone, Copy)]
pub struct RunsToSet<'a> {
    pub field: Field,
    pub resolved: Resolved<'a>,
}

/// Gives the controls of a synth their numbers.
fn set_synth(settings: &RunsToSet<'_>, def: &Def, controls: &mut Controls)
    ensures { controls.new ≡ laid_runs settings.now.field (map run_of settings.now.resolved.runs.now) (definition_of def.now) controls.old }
{
    let resolved = &settings.resolved;
    match resolved.last_for(def, controls.as_slice().len()) {
        Some(last) => lay(settings.field, last, controls),
        None => lay_runs(settings.field, def, resolved.runs, controls),
    }
}

impl ChangePayload<Held> for RunsToSet<'_> {
    ghost use Rattle.std.specs.Prelude.{map};
    ghost use Rattle.sn_nodecmd.specs.Runs.{run_of};
    ghost use Rattle.sn_nodecmd.specs.Laying.{laid_runs};
    ghost use Rattle.sn_nodecmd.specs.Reworks.{held_with};

    ghost changed = { λ s. held_with (laid_runs s.field (map run_of s.resolved.runs.now)) };

    fn change(&self, payload: &mut Held) {
        match payload {
            Held::Group => {}
            Held::Synth { def, controls, .. } => set_synth(self, def, controls),
        }
    }
}

/// What arguments ask for.
fn asked_runs(
    alloc: Global,
    form: RunForm,
    arguments: &[Arg],
) -> Result<Option<AskedRuns<'_>>, NoMemory>
    ensures { IfOk result (λ found. option_map request_of found ≡ asked_runs (reader form) (map argument_of arguments.now)) }
{
    let [Arg::Int(id), rest @ ..] = arguments else {
        return Ok(None);
    };
    let Some(runs) = some_of(runs_of(alloc, form, rest)?) else {
        return Ok(None);
    };
    Ok(Some(AskedRuns { id: *id, runs }))
}

/// Sets controls in a node and in all nodes below it. After `NoMemory` nothing has changed.
fn set_below(
    alloc: Global,
    tree: &mut Tree<Held>,
    id: i32,
    runs: &[Run<'_>],
) -> Result<(), NoMemory>
    requires settled { tree.old.journal ≡ None }
    ensures set { OnOk result (tree.new ≡ changed_below (held_with (with_runs (map run_of runs.now))) id tree.old) }
    ensures kept { OnErr result (tree.new ≡ tree.old) }
{
    let found = resolve_below(alloc, tree, id, runs)?;
    let found = found.as_slice();
    let settings = RunsToSet {
        field: Field::Value,
        resolved: Resolved { runs, found },
    };
    tree.change_below(id, &settings);
    Ok(())
}

/// Sets the controls that are asked for, if the node is there.
fn set_all(
    alloc: Global,
    stage: &mut Stage,
    asked: &AskedRuns<'_>,
) -> Result<Option<Reason>, NoMemory>
    requires settled { stage.old.tree.journal ≡ None }
    ensures row { (words : List ℕ) (replies : List ReplyShape) → Follows result (set_outcome (Some (request_of asked.now)) (turn_of stage.old words replies)) (turn_of stage.new words replies) }
    ensures unchanged { UnlessFollowed result (stage.new ≡ stage.old) }
    ensures others { stage.new ≡ record stage.old { tree = stage.new.tree } }
    ensures pictures { (words : List ℕ) → Pictures stage.old words → Pictures stage.new words }
{
    let Some(_) = stage.tree.node(asked.id) else {
        return Ok(Some(Reason::NoSuchNode));
    };
    set_below(alloc, &mut stage.tree, asked.id, &asked.runs)?;
    Ok(None)
}

/// `/n_set` id (control value).., `/n_setn` id (control count value..).. and `/n_fill` id (control count value)..
pub fn run_set(
    alloc: Global,
    stage: &mut Stage,
    form: RunForm,
    arguments: &[Arg],
) -> Result<Option<Reason>, NoMemory>
    requires settled { stage.old.tree.journal ≡ None }
    ensures row { (words : List ℕ) (replies : List ReplyShape) → Follows result (set_outcome (asked_runs (reader form) (map argument_of arguments.now)) (turn_of stage.old words replies)) (turn_of stage.new words replies) }
    ensures unchanged { UnlessFollowed result (stage.new ≡ stage.old) }
    ensures others { stage.new ≡ record stage.old { tree = stage.new.tree } }
    ensures pictures { (words : List ℕ) → Pictures stage.old words → Pictures stage.new words }
{
    let Some(asked) = asked_runs(alloc, form, arguments)? else {
        return Ok(Some(Reason::Arguments));
    };
    let AskedRuns { id, runs } = asked;
    let runs = latest(alloc, runs)?;
    set_all(alloc, stage, &AskedRuns { id, runs })
}
