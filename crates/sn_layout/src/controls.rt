//! Controls that the layout has.
ghost use Rattle.std.specs.Prelude.{◌≡◌, ◌∷◌, map, length, true, false};
ghost use Rattle.sn_osc.specs.Shape.{argument_of};
ghost use Rattle.sn_def.specs.Defs.{definition_of};
ghost use Rattle.sn_tree.specs.Trees.{subtree};
ghost use Rattle.sn_world.specs.Mappings.{any_node};
ghost use Rattle.sn_world.specs.NewSynth.{control_of};
ghost use Rattle.sn_nodecmd.specs.Runs.{name_of, reader, values_of};
ghost use Rattle.sn_layout.specs.Leaving.{any_laid, any_laid_at, holds_laid, is_laid, sets_plain};
ghost use Rattle.sn_layout.specs.Reading.{ArePlain};

use sn_def::{Controls, Def};
use sn_nodecmd::{Run, RunForm, number_of, read_run, value_count};
use sn_osc::Arg;
use sn_tree::Tree;
use sn_world::{Held, NodeId};

/// Whether the layout has a control of a synth: one that some unit takes as an index, or that follows a bus.
fn is_laid(def: &Def, controls: &Controls, number: u32) -> bool
    ensures { result ≡ is_laid (definition_of def.now) controls.now number }
{
    if def.is_index(number) {
        return true;
    }
    match controls.as_slice().get(number as usize) {
        Some(control) => control.bus.is_some(),
        None => false,
    }
}

/// Whether the layout may have one of `count` controls from number `number` on.
fn any_laid(def: &Def, controls: &Controls, number: u32, count: usize) -> bool
    ensures { result ≡ false → any_laid (definition_of def.now) controls.now number count ≡ false }
{
    let mut number = number;
    let mut left = count;
    while 0 < left {
        if is_laid(def, controls, number) {
            return true;
        }
        let Some(next) = number.checked_add(1) else {
            return true;
        };
        number = next;
        left -= 1;
    }
    false
}

/// The same of the controls that a run sets, if the definition has the first of them.
fn run_laid(def: &Def, controls: &Controls, run: &Run<'_>) -> bool
    ensures { result ≡ false → any_laid_at (definition_of def.now) controls.now (control_of (definition_of def.now) (name_of run.now.control)) (length (values_of run.now.values)) ≡ false }
{
    match number_of(def, run.control) {
        Some(number) => any_laid(def, controls, number, value_count(run.values)),
        None => false,
    }
}

fn holds_laid(held: &Held, run: &Run<'_>) -> bool
    ensures { result ≡ false → holds_laid (name_of run.now.control) (length (values_of run.now.values)) held.now ≡ false }
{
    match held {
        Held::Group => false,
        Held::Synth { def, controls, .. } => run_laid(def, controls, run),
    }
}

/// Pays for `count` looks at each of `units` units and one more, if enough are left.
fn pay(looks: &mut u32, units: usize, count: usize) -> bool {
    let Some(price) = units.checked_mul(count) else {
        return false;
    };
    if (*looks as usize) <= price {
        return false;
    }
    *looks -= price as u32;
    *looks -= 1;
    true
}

/// Whether the layout may have a control that a run sets in what a node holds: it may if there is no look left.
fn may_hold(held: &Held, run: &Run<'_>, looks: &mut u32) -> bool
    ensures { result ≡ false → holds_laid (name_of run.now.control) (length (values_of run.now.values)) held.now ≡ false }
{
    if !pay(looks, held.units(), value_count(run.values)) {
        return true;
    }
    holds_laid(held, run)
}

/// The same of a node and of all nodes below it.
fn any_held(tree: &Tree<Held>, node: &NodeId, run: &Run<'_>, looks: &mut u32) -> bool
    ensures { result ≡ false → any_node (holds_laid (name_of run.now.control) (length (values_of run.now.values))) (subtree node.now.id tree.now.attached) ≡ false }
{
    for member in tree.members(node.id) {
        if may_hold(member.payload, run, looks) {
            return true;
        }
    }
    false
}

/// The same of all runs that arguments give.
fn runs_laid(
    tree: &Tree<Held>,
    node: &NodeId,
    form: RunForm,
    arguments: &[Arg],
    looks: &mut u32,
) -> bool
    ensures { result ≡ false → ArePlain (subtree node.now.id tree.now.attached) (reader form) (map argument_of arguments.now) }
{
    let mut rest = arguments;
    while 0 < rest.len() {
        let Some(read) = read_run(form, rest) else {
            return false;
        };
        if any_held(tree, node, &read.run, looks) {
            return true;
        }
        rest = read.rest;
    }
    false
}

/// Whether surely none is, in the node that is named and in all nodes below it. What names no node is refused.
fn node_plain(tree: &Tree<Held>, node: &Arg, form: RunForm, runs: &[Arg], looks: &mut u32) -> bool
    ensures { result ≡ true → sets_plain holds_laid tree.now.attached (argument_of node.now ∷ map argument_of runs.now) (reader form) ≡ true }
{
    match node {
        Arg::Int(id) => !runs_laid(tree, &NodeId { id: *id }, form, runs, looks),
        _ => true,
    }
}

/// Whether `/n_set`, `/n_setn` or `/n_fill` surely sets no control that the layout has.
pub fn sets_plain(tree: &Tree<Held>, form: RunForm, arguments: &[Arg], looks: &mut u32) -> bool
    ensures { result ≡ true → sets_plain holds_laid tree.now.attached (map argument_of arguments.now) (reader form) ≡ true }
{
    let [node, runs @ ..] = arguments else {
        return true;
    };
    node_plain(tree, node, form, runs, looks)
}
