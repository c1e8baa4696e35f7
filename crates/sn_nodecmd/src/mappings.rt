//! `/n_map`.
ghost use Rattle.std.specs.Prelude.{◌≡◌, List, ℕ, None, Some, not, map, take, IfOk};
ghost use Rattle.std.specs.List.{position_or_len};
ghost use Rattle.std.specs.Option.{option_map};
ghost use Rattle.sn_osc.specs.Shape.{argument_of};
ghost use Rattle.sn_reply.specs.Replies.{ReplyShape};
ghost use Rattle.sn_tree.specs.Trees.{subtree};
ghost use Rattle.sn_world.specs.World.{turn_of};
ghost use Rattle.sn_world.specs.Pictures.{Pictures};
ghost use Rattle.sn_world.specs.Rows.{pairs, first_refusal};
ghost use Rattle.sn_world.specs.ControlRuns.{asked_of};
ghost use Rattle.sn_world.specs.Mappings.{mapping, is_followable, map_outcome};
ghost use Rattle.sn_world.specs.Answers.{Follows, UnlessFollowed};
ghost use Rattle.sn_nodecmd.specs.Runs.{run_of};
ghost use Rattle.sn_nodecmd.specs.Mapped.{mapping_of, run_for, request_of, refusal_in, IsMapped};

use crate::indexing::take_index_below;
use crate::laying::Field;
use crate::names::{NamedControl, control_name};
use crate::needed::{first_bad, needed};
use crate::resolved::{Resolved, resolve_below};
use crate::runs::{Run, RunValues};
use crate::setting::RunsToSet;
use sn_osc::Arg;
use sn_ports::NoMemory;
use sn_ports::limits::CONTROL_BUS_COUNT;
use sn_reply::Reason;
use sn_tree::Tree;
use sn_world::{Held, Stage, some_of};
use std::alloc::Global;

/// A control, and the control bus that it follows, or -1 for none.
#[derive(Clone, Copy)]
pub struct Mapping<'a> {
    pub control: NamedControl<'a>,
    pub bus: i32,
}

/// A node, and the mappings of controls in it and in all nodes below it.
#[derive(Drop)]
pub struct AskedMappings<'a> {
    pub id: i32,
    pub mappings: Vec<Mapping<'a>>,
}

fn read_mapping<'a>(control: &'a Arg, bus: &Arg) -> Option<Mapping<'a>>
    ensures { option_map mapping_of result ≡ mapping (argument_of control.now) (argument_of bus.now) }
{
    let Some(control) = control_name(control) else {
        return None;
    };
    match bus {
        Arg::Int(bus) => Some(Mapping { control, bus: *bus }),
        _ => None,
    }
}

/// The mappings that arguments give, one after the other.
fn mappings_of(alloc: Global, arguments: &[Arg]) -> Result<Option<Vec<Mapping<'_>>>, NoMemory>
    ensures { IfOk result (λ found. option_map (λ v. map mapping_of v.items) found ≡ pairs mapping (map argument_of arguments.now)) }
{
    let mut found = Vec::new(alloc);
    let mut rest = arguments;
    while let [control, bus, after @ ..] = rest {
        let Some(read) = read_mapping(control, bus) else {
            return Ok(None);
        };
        found.push(read)?;
        rest = after;
    }
    if rest.is_empty() {
        Ok(Some(found))
    } else {
        Ok(None)
    }
}

/// What arguments ask for.
fn asked_mappings(alloc: Global, arguments: &[Arg]) -> Result<Option<AskedMappings<'_>>, NoMemory>
    ensures { IfOk result (λ found. option_map request_of found ≡ asked_of (pairs mapping) (map argument_of arguments.now)) }
{
    let [Arg::Int(id), rest @ ..] = arguments else {
        return Ok(None);
    };
    let Some(mappings) = some_of(mappings_of(alloc, rest)?) else {
        return Ok(None);
    };
    Ok(Some(AskedMappings { id: *id, mappings }))
}

/// How many control buses there are.
const BUSES: i32 = CONTROL_BUS_COUNT as i32;

/// Whether it is a control bus, or -1 for none.
pub fn is_followable(bus: i32) -> bool
    ensures { result ≡ is_followable bus }
{
    -1 <= bus && bus < BUSES
}

/// The mappings before the first one whose bus can't be followed.
fn followable<'a, 'b>(mappings: &'b [Mapping<'a>]) -> &'b [Mapping<'a>]
    ensures { result.now ≡ take (position_or_len (λ m. not (is_followable m.bus)) mappings.now) mappings.now }
{
    match first_bad(mappings) {
        Some(place) => &mappings[..place],
        None => mappings,
    }
}

fn run_for<'a>(mapping: &Mapping<'a>) -> Run<'a>
    ensures { run_of result ≡ run_for (mapping_of mapping.now) }
{
    Run {
        control: mapping.control,
        values: RunValues::Same {
            value: mapping.bus,
            count: 1,
        },
    }
}

/// Mappings as runs, whose numbers are buses.
fn runs_for<'a>(alloc: Global, mappings: &[Mapping<'a>]) -> Result<Vec<Run<'a>>, NoMemory>
    ensures { IfOk result (λ runs. map run_of runs.items ≡ map run_for (map mapping_of mappings.now)) }
{
    let mut runs = Vec::new(alloc);
    for mapping in mappings {
        let run = run_for(mapping);
        runs.push(run)?;
    }
    Ok(runs)
}

/// The first reason against mappings in a node and in all nodes below it. Those before the first one whose bus can't be
/// followed are sound.
fn refusal(
    tree: &Tree<Held>,
    id: i32,
    mappings: &[Mapping<'_>],
    sound: &[Mapping<'_>],
    resolved: &Resolved<'_>,
) -> Option<Reason>
    requires sound { sound.now ≡ take (position_or_len (λ m. not (is_followable m.bus)) mappings.now) mappings.now }
    requires alike { map run_of resolved.now.runs.now ≡ map run_for (map mapping_of sound.now) }
    ensures reason { result ≡ first_refusal (refusal_in (subtree id tree.now.attached)) (map mapping_of mappings.now) }
    ensures all { result ≡ None → sound.now ≡ mappings.now }
{
    if take_index_below(tree, id, sound, resolved) {
        return Some(Reason::IndexControl);
    }
    if sound.len() < mappings.len() {
        return Some(Reason::Bus);
    }
    None
}

/// Maps controls in a node and in all nodes below it, if nothing is against it.
fn map_below(
    alloc: Global,
    tree: &mut Tree<Held>,
    id: i32,
    mappings: &[Mapping<'_>],
) -> Result<Option<Reason>, NoMemory>
    requires settled { tree.old.journal ≡ None }
    ensures { IsMapped result (map mapping_of mappings.now) id tree.old tree.new }
{
    let sound = followable(mappings);
    let runs = runs_for(alloc, sound)?;
    let runs = runs.as_slice();
    let found = resolve_below(alloc, tree, id, runs)?;
    let found = found.as_slice();
    let resolved = Resolved { runs, found };
    if let Some(reason) = refusal(tree, id, mappings, sound, &resolved) {
        return Ok(Some(reason));
    }
    let settings = RunsToSet {
        field: Field::Bus,
        resolved,
    };
    tree.change_below(id, &settings);
    Ok(None)
}

/// Maps the controls that are asked for, if the node is there.
fn map_all(
    alloc: Global,
    stage: &mut Stage,
    asked: &AskedMappings<'_>,
) -> Result<Option<Reason>, NoMemory>
    requires settled { stage.old.tree.journal ≡ None }
    ensures row { (words : List ℕ) (replies : List ReplyShape) → Follows result (map_outcome (Some (request_of asked.now)) (turn_of stage.old words replies)) (turn_of stage.new words replies) }
    ensures unchanged { UnlessFollowed result (stage.new ≡ stage.old) }
    ensures others { stage.new ≡ record stage.old { tree = stage.new.tree } }
    ensures pictures { (words : List ℕ) → Pictures stage.old words → Pictures stage.new words }
{
    let Some(_) = stage.tree.node(asked.id) else {
        return Ok(Some(Reason::NoSuchNode));
    };
    map_below(alloc, &mut stage.tree, asked.id, &asked.mappings)
}

/// `/n_map` id (control bus)..
pub fn run_map(
    alloc: Global,
    stage: &mut Stage,
    arguments: &[Arg],
) -> Result<Option<Reason>, NoMemory>
    requires settled { stage.old.tree.journal ≡ None }
    ensures row { (words : List ℕ) (replies : List ReplyShape) → Follows result (map_outcome (asked_of (pairs mapping) (map argument_of arguments.now)) (turn_of stage.old words replies)) (turn_of stage.new words replies) }
    ensures unchanged { UnlessFollowed result (stage.new ≡ stage.old) }
    ensures others { stage.new ≡ record stage.old { tree = stage.new.tree } }
    ensures pictures { (words : List ℕ) → Pictures stage.old words → Pictures stage.new words }
{
    let Some(asked) = asked_mappings(alloc, arguments)? else {
        return Ok(Some(Reason::Arguments));
    };
    let AskedMappings { id, mappings } = asked;
    let mappings = needed(alloc, mappings)?;
    map_all(alloc, stage, &AskedMappings { id, mappings })
}
