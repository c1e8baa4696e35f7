//! Done actions: synths that are paused and freed.
ghost use Rattle.std.specs.Prelude.{◌≡◌, ◌≤◌, ◌*◌, ◌||◌, ℕ, pos, List, length, true, false, None, Some};
ghost use Rattle.std.specs.List.{All};
ghost use Rattle.std.specs.Ordering.{int_eq};
ghost use Rattle.sn_ports.specs.Limits.{most_clients};
ghost use Rattle.sn_tree.specs.Trees.{holds, view_of};
ghost use Rattle.sn_tree.specs.Steps.{running, detached};
ghost use Rattle.sn_world.specs.Pictures.{Pictures};
ghost use Rattle.sn_world.specs.Settling.{frees, neighbours_of, pauses, paused_at, freed_at, acted_at, acted, all_acted};
ghost use Rattle.sn_settle.specs.Telling.{HaveRoom};
ghost use Rattle.sn_settle.specs.Acting.{IsActed, IsBelowRoot};

use crate::telling::tell;
use sn_ports::Text;
use sn_reply::{Neighbours, Notice};
use sn_tree::{NodeView, Tree};
use sn_world::{Ending, Held, Stage, end_freed, frees, pauses};

/// The place of a synth: its parent and its neighbours.
fn neighbours_of(ending: &Ending, view: &NodeView) -> Neighbours
    ensures { result ≡ neighbours_of ending.now.node view.now }
{
    Neighbours {
        id: ending.node,
        parent: view.parent,
        previous: view.previous,
        next: view.next,
    }
}

#[tactic(auto, using(sn_world::proofs::Turning::run_allowed, crate::proofs::Acted::has_room))]
fn stop(tree: &mut Tree<Held>, ending: &Ending)
    requires there { holds ending.now.node tree.old.attached ≡ true }
    requires closed { tree.old.journal ≡ None }
    ensures { tree.new ≡ running ending.now.node false tree.old }
{
    match tree.set_run(ending.node, false) {
        Ok(()) => {}
        Err(_) => unreachable!(),
    }
}

#[tactic(auto, using(crate::proofs::Acted::detach_allowed, crate::proofs::Acted::has_room))]
fn take_out(tree: &mut Tree<Held>, ending: &Ending)
    requires there { holds ending.now.node tree.old.attached ≡ true }
    requires other { int_eq ending.now.node (pos 0) ≡ false }
    requires closed { tree.old.journal ≡ None }
    ensures { tree.new ≡ detached ending.now.node tree.old }
{
    match tree.detach(ending.node) {
        Ok(()) => {}
        Err(_) => unreachable!(),
    }
}

/// Pauses a synth with this view, if it runs, and tells of it.
fn pause(stage: &mut Stage, ending: &Ending, view: &NodeView, outs: &mut [Text])
    requires there { view_of ending.now.node stage.old.tree.attached ≡ Some view.now }
    requires pictures { (words : List ℕ) × Pictures stage.old words }
    requires clients { length outs.old ≤ most_clients }
    requires room { HaveRoom 48 outs.old }
    ensures { IsActed 1 (paused_at ending.now.node view.now) stage.old stage.new outs.old outs.new }
{
    if !view.running {
        return;
    }
    stop(&mut stage.tree, ending);
    tell(
        &stage.notify,
        &Notice::Off(neighbours_of(ending, view)),
        outs,
    );
}

/// Frees a synth with this view, and tells of it.
fn free(stage: &mut Stage, ending: &Ending, view: &NodeView, outs: &mut [Text])
    requires there { view_of ending.now.node stage.old.tree.attached ≡ Some view.now }
    requires other { IsBelowRoot ending.now }
    requires pictures { (words : List ℕ) × Pictures stage.old words }
    requires clients { length outs.old ≤ most_clients }
    requires room { HaveRoom 48 outs.old }
    ensures { IsActed 1 (freed_at ending.now.node view.now) stage.old stage.new outs.old outs.new }
{
    take_out(&mut stage.tree, ending);
    end_freed(&mut stage.tree, &mut stage.pool);
    tell(
        &stage.notify,
        &Notice::End(neighbours_of(ending, view)),
        outs,
    );
}

/// Does what a unit's end asks for, with a synth with this view.
fn act_here(stage: &mut Stage, ending: &Ending, view: &NodeView, outs: &mut [Text])
    requires there { view_of ending.now.node stage.old.tree.attached ≡ Some view.now }
    requires other { IsBelowRoot ending.now }
    requires pictures { (words : List ℕ) × Pictures stage.old words }
    requires clients { length outs.old ≤ most_clients }
    requires room { HaveRoom 48 outs.old }
    ensures { IsActed 1 (acted_at ending.now (Some view.now)) stage.old stage.new outs.old outs.new }
{
    if pauses(ending.action) {
        pause(stage, ending, view, outs);
        return;
    }
    if !frees(ending.action) {
        return;
    }
    free(stage, ending, view, outs);
}

/// The view of the synth, if it is still there.
fn view_of(tree: &Tree<Held>, ending: &Ending) -> Option<NodeView>
    ensures { result ≡ view_of ending.now.node tree.now.attached }
{
    tree.node(ending.node)
}

/// Whether a unit's end asks for anything.
fn asks(ending: &Ending) -> bool
    ensures { result ≡ (pauses ending.now.action || frees ending.now.action) }
{
    pauses(ending.action) || frees(ending.action)
}

/// Does what a unit's end asks for. The node is sought only if something is asked. Returns `false` only if the stage is
/// unchanged.
fn act(stage: &mut Stage, ending: &Ending, outs: &mut [Text]) -> bool
    requires other { IsBelowRoot ending.now }
    requires pictures { (words : List ℕ) × Pictures stage.old words }
    requires clients { length outs.old ≤ most_clients }
    requires room { HaveRoom 48 outs.old }
    ensures acted { IsActed 1 (acted ending.now) stage.old stage.new outs.old outs.new }
    ensures same { result ≡ false → stage.new ≡ stage.old }
{
    if !asks(ending) {
        return false;
    }
    let Some(view) = view_of(&stage.tree, ending) else {
        return false;
    };
    act_here(stage, ending, &view, outs);
    true
}

/// Does what the ends of units ask for, one after the other. None is of the root, which is a group. Returns `false` only
/// if the stage is unchanged, and always if nothing is asked.
pub fn act_all(stage: &mut Stage, endings: &[Ending], outs: &mut [Text]) -> bool
    requires others { All IsBelowRoot endings.now }
    requires pictures { (words : List ℕ) × Pictures stage.old words }
    requires clients { length outs.old ≤ most_clients }
    requires room { HaveRoom (48 * length endings.now) outs.old }
    ensures acted { IsActed (length endings.now) (all_acted endings.now) stage.old stage.new outs.old outs.new }
    ensures same { result ≡ false → stage.new ≡ stage.old }
{
    let mut changed = false;
    for ending in endings {
        changed = act(stage, ending, outs) | changed;
    }
    changed
}
