//! Runs of controls that are resolved once for each definition.
ghost use Rattle.std.specs.Prelude.{◌≡◌, ◌≤◌, true, All, IfOk, IfSome, OnOk, map, length, replicate, zip};
ghost use Rattle.std.specs.List.{list_all};
ghost use Rattle.std.specs.Str.{bytes_eq};
ghost use Rattle.sn_def.specs.Definition.{control_names};
ghost use Rattle.sn_def.specs.Defs.{definition_of};
ghost use Rattle.sn_world.specs.NewSynth.{control_of};
ghost use Rattle.sn_nodecmd.specs.Runs.{name_of, values_of, run_of};
ghost use Rattle.sn_nodecmd.specs.Resolving.{entered_from, entered_at, entered, last_of, IsResolved};

use crate::latest::MANY;
use crate::names::number_of;
use crate::runs::{Run, RunValues, split_first, value_count};
use sn_def::{Def, Param};
use sn_ports::NoMemory;
use sn_tree::Tree;
use sn_world::Held;
use std::alloc::Global;
use std::sync::Arc;

/// They are resolved for this many definitions at most.
const MOST_DEFS: usize = 8;

/// For a definition, the last number that runs give each of its controls.
#[derive(Drop)]
pub struct ForDef {
    pub def: Arc<Def, Global>,
    pub last: Vec<Option<i32>>,
}

/// Gives numbers to the controls from number `first` on, up to the last control.
fn enter_from(last: &mut [Option<i32>], first: u32, values: RunValues<'_>)
    ensures { last.new ≡ entered_from first (values_of values.entry) last.old }
{
    let mut place = first as usize;
    let mut left = values;
    while place < last.len() {
        let Some((value, rest)) = split_first(left) else {
            return;
        };
        last[place] = Some(value);
        place += 1;
        left = rest;
    }
}

/// Enters a run. If it begins at none of the definition's controls, it is ignored.
fn enter_run(def: &Def, run: &Run<'_>, last: &mut [Option<i32>])
    ensures { last.new ≡ entered_at (control_of (definition_of def.now) (name_of run.now.control)) (values_of run.now.values) last.old }
{
    let Some(number) = number_of(def, run.control) else {
        return;
    };
    enter_from(last, number, run.values);
}

/// Enters runs, one after the other.
fn enter_all(def: &Def, runs: &[Run<'_>], last: &mut [Option<i32>])
    ensures { last.new ≡ entered (map run_of runs.now) (definition_of def.now) last.old }
{
    for run in runs {
        enter_run(def, run, last);
    }
}

/// `count` controls that are given no number yet.
fn no_numbers(alloc: Global, count: usize) -> Result<Vec<Option<i32>>, NoMemory>
    ensures { IfOk result (λ last. last.items ≡ replicate count None) }
{
    Ok(vec![in alloc; None; count]?)
}

/// The last number that runs give each control of a definition.
fn last_numbers(alloc: Global, def: &Def, runs: &[Run<'_>]) -> Result<Vec<Option<i32>>, NoMemory>
    ensures { IfOk result (λ last. last.items ≡ last_of (map run_of runs.now) (definition_of def.now)) }
{
    let mut last = no_numbers(alloc, def.controls.as_slice().len())?;
    enter_all(def, runs, &mut last);
    Ok(last)
}

/// Runs, resolved for a definition.
fn resolve(alloc: Global, def: &Arc<Def, Global>, runs: &[Run<'_>]) -> Result<ForDef, NoMemory>
    ensures { IfOk result (IsResolved (map run_of runs.now)) }
{
    let last = last_numbers(alloc, def, runs)?;
    let def = Arc::try_clone(def)?;
    Ok(ForDef { def, last })
}

fn has_same_name(a: &Param, b: &Param) -> bool
    ensures { result ≡ bytes_eq a.now.name.bytes b.now.name.bytes }
{
    a.name.as_slice() == b.name.as_slice()
}

fn are_named_alike(a: &[Param], b: &[Param]) -> bool
    ensures { result ≡ list_all (λ p. bytes_eq p.0.name.bytes p.1.name.bytes) (zip a.now b.now) }
{
    a.iter().zip(b.iter()).all(|(x, y)| has_same_name(x, y))
}

/// Whether the controls of two definitions have the same names, in the same order.
fn has_same_controls(a: &Def, b: &Def) -> bool
    ensures { result ≡ true → control_names (definition_of a.now) ≡ control_names (definition_of b.now) }
{
    let these = a.controls.as_slice();
    let those = b.controls.as_slice();
    if these.len() == those.len() {
        return are_named_alike(these, those);
    }
    false
}

/// Whether what was found for a definition is that for another one, and is for at least `count` controls.
fn serves(one: &ForDef, def: &Def, count: usize) -> bool
    ensures names { result ≡ true → control_names (definition_of one.now.def.value) ≡ control_names (definition_of def.now) }
    ensures enough { result ≡ true → count ≤ length one.now.last.items }
{
    if one.last.len() < count {
        return false;
    }
    has_same_controls(&one.def, def)
}

/// Runs, and for some definitions what they come to.
#[derive(Clone, Copy)]
pub struct Resolved<'a> {
    pub runs: &'a [Run<'a>],
    pub found: &'a [ForDef],
    pub ghost right: { All (IsResolved (map run_of runs.now)) found.now },
}

impl Resolved<'_> {
    /// The last numbers for a definition, if they were found for one whose controls have the same names. There are at
    /// least `count` of them.
    pub fn last_for(&self, def: &Def, count: usize) -> Option<&[Option<i32>]>
        ensures last { IfSome result (λ last. last.now ≡ last_of (map run_of self.now.runs.now) (definition_of def.now)) }
        ensures enough { IfSome result (λ last. count ≤ length last.now) }
    {
        for one in self.found {
            if serves(one, def, count) {
                return Some(&one.last);
            }
        }
        None
    }
}

fn is_known(found: &[ForDef], def: &Def) -> bool {
    for one in found {
        if has_same_controls(&one.def, def) {
            return true;
        }
    }
    false
}

/// How many values runs have together.
fn count_all(runs: &[Run<'_>]) -> usize {
    let mut values: usize = 0;
    for run in runs {
        values = values.saturating_add(value_count(run.values));
    }
    values
}

/// Whether runs are to be resolved for a definition. It has no more controls than the runs have values, so a look at
/// each of its controls takes no longer than setting the values. And what was found before doesn't serve it.
fn is_wanted(def: &Def, values: usize, found: &[ForDef]) -> bool {
    def.controls.as_slice().len() <= values && found.len() < MOST_DEFS && !is_known(found, def)
}

/// Resolves runs, which have `values` values, for a definition, if that is wanted.
fn add_def(
    alloc: Global,
    def: &Arc<Def, Global>,
    runs: &[Run<'_>],
    values: usize,
    found: &mut Vec<ForDef>,
) -> Result<(), NoMemory>
    requires { All (IsResolved (map run_of runs.now)) found.old.items }
    ensures { OnOk result (All (IsResolved (map run_of runs.now)) found.new.items) }
{
    if !is_wanted(def, values, found) {
        return Ok(());
    }
    let one = resolve(alloc, def, runs)?;
    found.push(one)?;
    Ok(())
}

fn add_held(
    alloc: Global,
    held: &Held,
    runs: &[Run<'_>],
    values: usize,
    found: &mut Vec<ForDef>,
) -> Result<(), NoMemory>
    requires { All (IsResolved (map run_of runs.now)) found.old.items }
    ensures { OnOk result (All (IsResolved (map run_of runs.now)) found.new.items) }
{
    match held {
        Held::Group => Ok(()),
        Held::Synth { def, .. } => add_def(alloc, def, runs, values, found),
    }
}

/// Resolves runs for the definitions of a node and of all nodes below it. Few runs are resolved for none.
pub fn resolve_below(
    alloc: Global,
    tree: &Tree<Held>,
    id: i32,
    runs: &[Run<'_>],
) -> Result<Vec<ForDef>, NoMemory>
    ensures { IfOk result (λ found. All (IsResolved (map run_of runs.now)) found.items) }
{
    let mut found = Vec::new(alloc);
    if runs.len() < MANY {
        return Ok(found);
    }
    let values = count_all(runs);
    for member in tree.members(id) {
        add_held(alloc, member.payload, runs, values, &mut found)?;
    }
    Ok(found)
}
