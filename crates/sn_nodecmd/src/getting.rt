//! `/s_get`.
ghost use Rattle.std.specs.Prelude.{◌≡◌, ◌<◌, ◌+◌, ◌*◌, ◌^◌, ◌∷◌, ◌++◌, [], Some, true, is_some, length, map, slice_index_or, IfOk, OnOk};
ghost use Rattle.std.specs.List.{list_all};
ghost use Rattle.std.specs.Option.{option_map};
ghost use Rattle.sn_osc.specs.Shape.{argument_of, message_of, string};
ghost use Rattle.sn_osc.specs.Bytes.{arguments_bytes};
ghost use Rattle.sn_mem.specs.Words.{SameButWords};
ghost use Rattle.sn_mem.specs.Buses.{control_buses};
ghost use Rattle.sn_def.specs.Definition.{control_names};
ghost use Rattle.sn_def.specs.Defs.{definition_of};
ghost use Rattle.sn_def.specs.Grammar.{is_given_name};
ghost use Rattle.sn_def.specs.Asked.{control_named};
ghost use Rattle.sn_synth.specs.Conditions.{AreControlsOf, no_control};
ghost use Rattle.sn_reply.specs.Sending.{IsSendable};
ghost use Rattle.sn_world.specs.World.{turn_of};
ghost use Rattle.sn_world.specs.Pictures.{Pictures, WritesBuses};
ghost use Rattle.sn_world.specs.Rows.{singles};
ghost use Rattle.sn_world.specs.NewSynth.{control_name, name_argument, control_of};
ghost use Rattle.sn_world.specs.ControlRuns.{asked_of};
ghost use Rattle.sn_world.specs.SynthQueries.{value_arguments, values_asked, values_message, values_outcome, values_row};
ghost use Rattle.sn_world.specs.Answers.{Follows, UnlessFollowed};
ghost use Rattle.sn_nodecmd.specs.Runs.{name_of};
ghost use Rattle.sn_nodecmd.specs.Getting.{request_of, CanBeTold};

use crate::names::{NamedControl, control_name, number_of};
use sn_def::{Control, Controls, Def, names_are_short};
use sn_mem::Port;
use sn_osc::{Arg, Message};
use sn_ports::NoMemory;
use sn_reply::{Answer, Reason, Replies, To};
use sn_synth::control_value;
use sn_world::{Held, Stage, some_of};
use std::alloc::Global;

/// A synth, and the controls of it that are asked for.
#[derive(Drop)]
pub struct AskedControls<'a> {
    pub id: i32,
    pub controls: Vec<NamedControl<'a>>,
}

/// The controls that arguments name, one after the other.
fn controls_of(alloc: Global, arguments: &[Arg]) -> Result<Option<Vec<NamedControl<'_>>>, NoMemory>
    ensures { IfOk result (λ found. option_map (λ v. map name_of v.items) found ≡ singles control_name (map argument_of arguments.now)) }
{
    let mut found = Vec::new(alloc);
    for argument in arguments {
        let Some(control) = control_name(argument) else {
            return Ok(None);
        };
        found.push(control)?;
    }
    Ok(Some(found))
}

/// What arguments ask for.
fn asked_controls(alloc: Global, arguments: &[Arg]) -> Result<Option<AskedControls<'_>>, NoMemory>
    ensures { IfOk result (λ found. option_map request_of found ≡ asked_of (singles control_name) (map argument_of arguments.now)) }
{
    let [Arg::Int(id), rest @ ..] = arguments else {
        return Ok(None);
    };
    let Some(controls) = some_of(controls_of(alloc, rest)?) else {
        return Ok(None);
    };
    Ok(Some(AskedControls { id: *id, controls }))
}

/// A law: the controls of a definition have names.
fn are_named(def: &Def)
    ensures { list_all is_given_name (control_names (definition_of def.now)) ≡ true }
{
    names_are_short();
}

/// The name of a control of the definition.
fn push_text(answer: &mut Answer, def: &Def, name: &[u8]) -> Result<(), NoMemory>
    requires known { is_some (control_named (definition_of def.now) name.now) ≡ true }
    ensures { OnOk result (answer.new ≡ answer.old ++ string name.now ∷ []) }
{
    are_named(def);
    answer.push_name(name)
}

/// A control of the definition, as it was named.
fn push_name(answer: &mut Answer, def: &Def, control: NamedControl<'_>) -> Result<(), NoMemory>
    requires known { is_some (control_of (definition_of def.now) (name_of control)) ≡ true }
    ensures { OnOk result (answer.new ≡ answer.old ++ name_argument (name_of control.entry) ∷ []) }
{
    match control {
        NamedControl::Numbered(number) => answer.push_int(number),
        NamedControl::Named(name) => push_text(answer, def, name),
    }
}

fn control_at(controls: &Controls, number: u32) -> Control
    requires within { number < length controls.now }
    ensures { result ≡ slice_index_or controls.now number no_control }
{
    controls.as_slice()[number as usize]
}

/// Appends a control and its value to an answer. A control that the definition doesn't have is ignored.
fn push_value<P: Port>(
    answer: &mut Answer,
    port: &mut P,
    def: &Def,
    controls: &Controls,
    control: NamedControl<'_>,
) -> Result<(), NoMemory>
    requires each { AreControlsOf (definition_of def.now) controls.now }
    requires foot { WritesBuses (P.foot port.old) }
    ensures value { OnOk result (answer.new ≡ answer.old ++ value_arguments (control_buses (P.words port.old)) controls.now (name_of control.entry) (control_of (definition_of def.now) (name_of control.entry))) }
    ensures words { P.words port.new ≡ P.words port.old }
    ensures port { SameButWords P.foot P.rest port.old port.new }
{
    let Some(number) = number_of(def, control) else {
        return Ok(());
    };
    let value = control_value(port, control_at(controls, number));
    push_name(answer, def, control)?;
    answer.push_int(value)
}

/// Appends controls and their values to an answer, one after the other.
fn push_values<P: Port>(
    answer: &mut Answer,
    port: &mut P,
    def: &Def,
    controls: &Controls,
    asked: &[NamedControl<'_>],
) -> Result<(), NoMemory>
    requires each { AreControlsOf (definition_of def.now) controls.now }
    requires foot { WritesBuses (P.foot port.old) }
    ensures values { OnOk result (answer.new ≡ answer.old ++ values_asked (control_buses (P.words port.old)) (definition_of def.now) controls.now (map name_of asked.now)) }
    ensures words { P.words port.new ≡ P.words port.old }
    ensures port { SameButWords P.foot P.rest port.old port.new }
{
    for control in asked {
        push_value(answer, port, def, controls, *control)?;
    }
    Ok(())
}

/// The message `/n_set` with controls of a synth and their values.
fn values_message<P: Port>(
    alloc: Global,
    port: &mut P,
    id: i32,
    def: &Def,
    controls: &Controls,
    asked: &[NamedControl<'_>],
) -> Result<Message, NoMemory>
    requires few { CanBeTold (map name_of asked.now) }
    requires each { AreControlsOf (definition_of def.now) controls.now }
    requires foot { WritesBuses (P.foot port.old) }
    ensures message { IfOk result (λ m. message_of m ≡ values_message (control_buses (P.words port.old)) id (definition_of def.now) controls.now (map name_of asked.now)) }
    ensures sendable { IfOk result (λ m. IsSendable (message_of m)) }
    ensures words { P.words port.new ≡ P.words port.old }
    ensures port { SameButWords P.foot P.rest port.old port.new }
{
    let mut answer = Answer::new(alloc);
    answer.push_int(id)?;
    push_values(&mut answer, port, def, controls, asked)?;
    answer.into_long_message(b"/n_set")
}

/// Tells a client the values of a synth's controls.
fn answer<P: Port>(
    alloc: Global,
    stage: &Stage,
    port: &mut P,
    asked: &AskedControls<'_>,
    from: u32,
    replies: &mut Replies,
) -> Result<Option<Reason>, NoMemory>
    requires few { CanBeTold (request_of asked.now).all }
    requires pictures { Pictures stage.now (P.words port.old) }
    requires foot { WritesBuses (P.foot port.old) }
    ensures row { Follows result (values_outcome from (Some (request_of asked.now)) (turn_of stage.now (P.words port.old) replies.old)) (turn_of stage.now (P.words port.new) replies.new) }
    ensures untold { UnlessFollowed result (replies.new ≡ replies.old) }
    ensures words { P.words port.new ≡ P.words port.old }
    ensures port { SameButWords P.foot P.rest port.old port.new }
{
    let Some(held) = stage.tree.payload(asked.id) else {
        return Ok(Some(Reason::NoSuchNode));
    };
    let Held::Synth { def, controls, .. } = held else {
        return Ok(Some(Reason::NotSynth));
    };
    let message = values_message(alloc, port, asked.id, def, controls, &asked.controls)?;
    replies.push(To::Client(from), message)?;
    Ok(None)
}

/// `/s_get` id control..
pub fn run_get<P: Port>(
    alloc: Global,
    stage: &Stage,
    port: &mut P,
    arguments: &[Arg],
    from: u32,
    replies: &mut Replies,
) -> Result<Option<Reason>, NoMemory>
    requires few { 4 * length (arguments_bytes (map argument_of arguments.now)) + 2 ^ 20 < 2 ^ 31 }
    requires pictures { Pictures stage.now (P.words port.old) }
    requires foot { WritesBuses (P.foot port.old) }
    ensures row { Follows result (values_row from (map argument_of arguments.now) (turn_of stage.now (P.words port.old) replies.old)) (turn_of stage.now (P.words port.new) replies.new) }
    ensures untold { UnlessFollowed result (replies.new ≡ replies.old) }
    ensures words { P.words port.new ≡ P.words port.old }
    ensures port { SameButWords P.foot P.rest port.old port.new }
{
    let Some(asked) = asked_controls(alloc, arguments)? else {
        return Ok(Some(Reason::Arguments));
    };
    answer(alloc, stage, port, &asked, from, replies)
}
