//! Steps that an open journal follows, and how they are undone.
ghost use Rattle.std.specs.Prelude.{◌≡◌, ◌≢◌, ◌≤◌, ◌<◌, IfOk, OnErr, reverse};
ghost use Rattle.sn_forest.specs.Trees.{none, tree, uses, without};
ghost use Rattle.sn_forest.specs.Places.{IsPlaceIn, shifted, put};
ghost use Rattle.sn_tree.specs.Saving.{spent, noted};
ghost use Rattle.sn_tree.specs.Keyed.{front, names, flagged};
ghost use Rattle.sn_tree.specs.Stored.{IsAmong, IsSound};
ghost use Rattle.sn_tree.specs.Undoing.{CanUndo, IsInner, IsUndoable, undone, restored};
ghost use Rattle.sn_tree.specs.Journals.{HasSpare};
ghost use Rattle.sn_tree.specs.Ordered.{IsReady, saved_by};

use crate::item::Item;
use crate::journal::{Journal, follow, follow_new};
use crate::store::Store;
use crate::undo::Undo;
use sn_forest::Place;
use sn_ports::NoMemory;

/// Moves a node with all below it to a place.
pub fn shift_node(store: &mut Store, journal: &mut Option<Journal>, key: usize, place: Place)
    requires spare { HasSpare journal.old }
    requires ready { IsReady store.old journal.old }
    requires node { IsInner key store.old }
    requires place { IsPlaceIn (without key store.old) place }
    requires sound { IsSound (shifted key place store.old) }
    ensures nodes { store.new ≡ shifted key place store.old }
    ensures ready { IsReady store.new journal.new }
    ensures saved { saved_by store.new journal.new ≡ spent 1 (saved_by store.old journal.old) }
{
    store.keys_differ();
    store.is_sound();
    let stood = store.place(key);
    follow(journal, Undo::Moved(key, stood));
    store.shift(key, place);
}

/// Pauses a node, or lets it run.
pub fn run_node(store: &mut Store, journal: &mut Option<Journal>, key: usize, on: bool)
    requires spare { HasSpare journal.old }
    requires ready { IsReady store.old journal.old }
    requires node { 1 ≤ uses key store.old }
    ensures nodes { store.new ≡ flagged key on store.old }
    ensures ready { IsReady store.new journal.new }
    ensures saved { saved_by store.new journal.new ≡ spent 1 (saved_by store.old journal.old) }
{
    store.keys_differ();
    let was = store.is_running(key);
    follow(journal, Undo::Ran(key, was));
    store.set_run(key, on);
}

/// Puts a new node in, whose payload has this key, and returns the node's own key.
pub fn insert_node(
    store: &mut Store,
    journal: &mut Option<Journal>,
    place: Place,
    item: &Item,
    key: usize,
) -> Result<usize, NoMemory>
    requires ready { IsReady store.old journal.old }
    requires place { IsAmong store.old place }
    requires absent { names item.now.id (front store.old) ≡ 0 }
    ensures ready { IsReady store.new journal.new }
    ensures fresh { IfOk result (λ node. uses node store.old ≡ 0) }
    ensures nodes { IfOk result (λ node. store.new ≡ put place (tree node item.now none none) store.old) }
    ensures saved { IfOk result (λ node. saved_by store.new journal.new ≡ noted key (saved_by store.old journal.old)) }
    ensures err_nodes { OnErr result (store.new ≡ store.old) }
    ensures err_saved { OnErr result (journal.new ≡ journal.old) }
{
    store.keys_differ();
    let node = store.insert(place, item)?;
    match follow_new(journal, Undo::Inserted(node), key) {
        Ok(()) => Ok(node),
        Err(_) => {
            store.remove(node);
            Err(NoMemory)
        }
    }
}

/// Undoes a step.
fn undo_step(store: &mut Store, step: &Undo)
    requires { CanUndo step.now store.old }
    ensures { store.new ≡ undone step.now store.old }
{
    match *step {
        Undo::Inserted(key) => {
            let _ = store.remove(key);
        }
        Undo::Moved(key, place) => store.shift(key, place),
        Undo::Ran(key, on) => store.set_run(key, on),
    }
}

/// Undoes steps, from the last one to the first.
pub fn undo_all(store: &mut Store, steps: Vec<Undo>)
    requires { IsUndoable (reverse steps.items) store.old }
    ensures { store.new ≡ restored (reverse steps.items) store.old }
{
    let mut steps = steps;
    while let Some(step) = steps.pop() {
        undo_step(store, &step);
    }
}
