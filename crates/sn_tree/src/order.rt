//! The nodes of a tree by the keys of their payloads, and the open journal.
ghost use Rattle.std.specs.Prelude.{◌≡◌, ◌≤◌, None, Some, [], IfOk, OnOk, OnErr, pos, reverse, true};
ghost use Rattle.std.specs.Option.{option_map};
ghost use Rattle.sn_ports.specs.Limits.{most_nodes};
ghost use Rattle.sn_tree.specs.declared.node.NodeKind.TheVariants.{Group};
ghost use Rattle.sn_forest.specs.Trees.{count as count_trees};
ghost use Rattle.sn_tree.specs.Trees.{none, count, ids, label_of, leaf, next_after, subtree, view_of, first_label, without_first};
ghost use Rattle.sn_tree.specs.Views.{views_below};
ghost use Rattle.sn_tree.specs.Keyed.{labels};
ghost use Rattle.sn_tree.specs.Faults.{insert_fault, replace_fault, attach_fault, detach_fault, move_fault, set_run_fault, fault_of};
ghost use Rattle.sn_tree.specs.Saving.{HasSpare, spent, noted};
ghost use Rattle.sn_tree.specs.Steps.{inserting, detaching, attaching, moving, replacing, setting};
ghost use Rattle.sn_tree.specs.Ordered.{restored_by, made_by, refused_fault};

use crate::cursor::Cursor;
use crate::item::Item;
use crate::journal::Journal;
use crate::node::{NodeKind, NodeView, Spot, TreeFault};
use crate::steps::{insert_node, run_node, shift_node, undo_all};
use crate::store::Store;
use sn_forest::Place;
use sn_ports::NoMemory;
use std::alloc::Global;
use std::marker::Model;

/// The nodes of a tree by the keys of their payloads, and what the open journal keeps, if there is one.
#[derive(Drop)]
pub struct Order {
    store: Store,
    journal: Option<Journal>,
    // The last journal, whose memory the next one takes.
    last: Option<Journal>,
    alloc: Global,
}

impl Model for Order {
    ghost use Rattle.sn_tree.specs.Ordered.{Ordered, ordered_code, ordered_by, AreFew, IsReady};

    ghost Value = { Ordered };

    ghost coded = { ordered_code };

    ghost view = { λ o. ordered_by o.store o.journal };

    ghost invariant = { λ o. IsReady o.store o.journal × AreFew o.store };
}

/// Why a new node is not put in.
#[derive(Clone, Copy, Debug, PartialEq, Eq)]
pub enum Refused {
    /// Memory ran out.
    NoMemory,
    /// Why the tree refuses the node.
    Fault(TreeFault),
}

impl Order {
    /// The root alone, which runs.
    pub fn new(alloc: Global) -> Result<Order, NoMemory>
        ensures { IfOk result (λ o. o ≡ record { now = record { attached = leaf (pos 0) Group None; detached = none }; saved = None }) }
    {
        Ok(Order {
            store: Store::new(alloc)?,
            journal: None,
            last: None,
            alloc,
        })
    }

    /// Opens a journal with room for `steps` steps.
    pub fn begin(&mut self, steps: u32) -> Result<(), NoMemory>
        requires closed { self.old.saved ≡ None }
        ensures ok { OnOk result (self.new ≡ record { now = self.old.now; saved = Some (record { nodes = self.old.now; room = steps; made = [] }) }) }
        ensures err { OnErr result (self.new ≡ self.old) }
    {
        let last = self.last.take();
        self.journal = Some(Journal::new(self.alloc, last, steps)?);
        Ok(())
    }

    /// Closes the open journal, and keeps what was done.
    pub fn commit(&mut self)
        ensures { self.new ≡ record { now = self.old.now; saved = None } }
    {
        let journal = self.journal.take();
        self.last = journal;
    }

    /// Restores the nodes as they were when the open journal was opened, and gives the keys of the payloads that were
    /// put in since.
    pub fn undo(&mut self) -> Option<Vec<usize>>
        ensures nodes { self.new ≡ record { now = restored_by self.old; saved = None } }
        ensures made { option_map (λ keys. reverse keys.items) result ≡ made_by self.old.saved }
    {
        match self.journal.take() {
            Some(journal) => {
                let (steps, made) = journal.into_parts();
                undo_all(&mut self.store, steps);
                Some(made)
            }
            None => None,
        }
    }

    /// Ends the first detached node, and returns the key under which its payload is kept.
    pub fn free(&mut self) -> Option<Option<usize>>
        requires closed { self.old.saved ≡ None }
        ensures value { result ≡ option_map (λ l. l.payload) (first_label self.old.now.detached) }
        ensures rest { self.new ≡ record { now = record self.old.now { detached = without_first self.old.now.detached }; saved = None } }
    {
        self.store.free()
    }

    /// How many nodes are attached.
    pub fn len(&self) -> usize
        ensures value { result ≡ count self.now.now.attached }
        ensures bound { result ≤ most_nodes }
    {
        self.store.len()
    }

    /// Under which key the payload of a node is kept.
    pub fn key_of(&self, id: i32) -> Option<Option<usize>>
        ensures { result ≡ option_map (λ l. l.payload) (label_of id self.now.now.attached) }
    {
        self.store.keys_differ();
        self.store.is_sound();
        let Some(key) = self.store.find(id) else {
            return None;
        };
        let Some(item) = self.store.item(key) else {
            return None;
        };
        Some(item.key)
    }

    /// The same, where the node is looked for at place `near` of the index first.
    pub fn key_near(&self, id: i32, near: &mut usize) -> Option<Option<usize>>
        ensures { result ≡ option_map (λ l. l.payload) (label_of id self.now.now.attached) }
    {
        self.store.keys_differ();
        self.store.is_sound();
        let Some(key) = self.store.find_near(id, near) else {
            return None;
        };
        let Some(item) = self.store.item(key) else {
            return None;
        };
        Some(item.key)
    }

    /// The walk over an attached node and all below it. If no such node is attached, it is at its end.
    pub fn cursor(&self, id: i32) -> Cursor<'_>
        ensures nodes { labels result ≡ subtree id self.now.now.attached }
        ensures few { count_trees result ≤ most_nodes }
    {
        self.store.cursor(id)
    }

    /// An attached node as it stands in the tree.
    pub fn node(&self, id: i32) -> Option<NodeView>
        ensures { result ≡ view_of id self.now.now.attached }
    {
        self.store.node(id)
    }

    /// An attached node and all below it as they stand in the tree, by their ids.
    pub fn views(&self, id: i32) -> Result<Vec<(i32, NodeView)>, NoMemory>
        ensures { IfOk result (λ views. views.items ≡ views_below id self.now.now.attached) }
    {
        self.store.views(self.alloc, id)
    }

    /// The node after an attached one in the order of the walk.
    pub fn next_of(&self, id: i32) -> Option<i32>
        ensures { result ≡ next_after id (ids self.now.now.attached) }
    {
        self.store.next_of(id)
    }

    /// The allocator of its memory.
    pub fn alloc(&self) -> Global {
        self.alloc
    }

    /// Why a new node can't be put at a spot.
    pub fn refusal(&self, id: i32, spot: Spot) -> Option<TreeFault>
        ensures { result ≡ insert_fault id spot.action spot.target self.now.now.attached }
    {
        match self.store.place_for_new(id, spot) {
            Ok(_) => None,
            Err(fault) => Some(fault),
        }
    }

    /// Puts a new node, which runs and whose payload has this key, at a spot.
    pub fn insert(&mut self, id: i32, kind: NodeKind, spot: Spot, key: usize) -> Result<(), Refused>
        ensures fault { refused_fault result ≡ insert_fault id spot.action spot.target self.old.now.attached }
        ensures ok { OnOk result (self.new ≡ record { now = inserting id kind spot.action spot.target (Some key) self.old.now; saved = noted key self.old.saved }) }
        ensures err { OnErr result (self.new ≡ self.old) }
    {
        self.store.keys_differ();
        self.store.is_sound();
        let place = match self.store.place_for_new(id, spot) {
            Ok(place) => place,
            Err(fault) => return Err(Refused::Fault(fault)),
        };
        match insert_node(
            &mut self.store,
            &mut self.journal,
            place,
            &new_item(id, kind, key),
            key,
        ) {
            Ok(_) => {}
            Err(_) => return Err(Refused::NoMemory),
        }
        Ok(())
    }

    /// Why a new node can't take the place of another.
    pub fn refusal_to_replace(&self, id: i32, target: i32) -> Option<TreeFault>
        ensures { result ≡ replace_fault id target self.now.now.attached }
    {
        match self.store.target_to_replace(id, target) {
            Ok(_) => None,
            Err(fault) => Some(fault),
        }
    }

    /// Puts a new node, which runs and whose payload has this key, in the place of another. That one is taken out with
    /// all below it, and kept aside.
    pub fn replace(
        &mut self,
        id: i32,
        kind: NodeKind,
        target: i32,
        key: usize,
    ) -> Result<(), Refused>
        requires room { HasSpare self.old.saved }
        ensures fault { refused_fault result ≡ replace_fault id target self.old.now.attached }
        ensures ok { OnOk result (self.new ≡ record { now = replacing id kind target (Some key) self.old.now; saved = spent 1 (noted key self.old.saved) }) }
        ensures err { OnErr result (self.new ≡ self.old) }
    {
        self.store.keys_differ();
        self.store.is_sound();
        let old = match self.store.target_to_replace(id, target) {
            Ok(old) => old,
            Err(fault) => return Err(Refused::Fault(fault)),
        };
        let place = Place::Before(old);
        match insert_node(
            &mut self.store,
            &mut self.journal,
            place,
            &new_item(id, kind, key),
            key,
        ) {
            Ok(_) => {}
            Err(_) => return Err(Refused::NoMemory),
        }
        let end = self.store.end();
        shift_node(&mut self.store, &mut self.journal, old, Place::After(end));
        Ok(())
    }

    /// Takes a subtree out, and keeps it aside.
    pub fn detach(&mut self, id: i32) -> Result<(), TreeFault>
        requires room { HasSpare self.old.saved }
        ensures fault { fault_of result ≡ detach_fault id self.old.now.attached }
        ensures ok { OnOk result (self.new ≡ record { now = detaching id self.old.now; saved = spent 1 self.old.saved }) }
        ensures err { OnErr result (self.new ≡ self.old) }
    {
        self.store.keys_differ();
        self.store.is_sound();
        let key = match self.store.detachable(id) {
            Ok(key) => key,
            Err(fault) => return Err(fault),
        };
        let end = self.store.end();
        shift_node(&mut self.store, &mut self.journal, key, Place::After(end));
        Ok(())
    }

    /// Puts a detached subtree in at a spot: of those with this top the one that was detached last.
    pub fn attach(&mut self, id: i32, spot: Spot) -> Result<(), TreeFault>
        requires room { HasSpare self.old.saved }
        ensures fault { fault_of result ≡ attach_fault id spot.action spot.target self.old.now.attached self.old.now.detached }
        ensures ok { OnOk result (self.new ≡ record { now = attaching id spot.action spot.target self.old.now; saved = spent 1 self.old.saved }) }
        ensures err { OnErr result (self.new ≡ self.old) }
    {
        self.store.keys_differ();
        self.store.is_sound();
        let (key, place) = match self.store.attachable(id, spot) {
            Ok(found) => found,
            Err(fault) => return Err(fault),
        };
        shift_node(&mut self.store, &mut self.journal, key, place);
        Ok(())
    }

    /// Moves a subtree to a spot.
    pub fn move_to(&mut self, id: i32, spot: Spot) -> Result<(), TreeFault>
        requires room { HasSpare self.old.saved }
        ensures fault { fault_of result ≡ move_fault id spot.action spot.target self.old.now.attached }
        ensures ok { OnOk result (self.new ≡ record { now = moving id spot.action spot.target self.old.now; saved = spent 1 self.old.saved }) }
        ensures err { OnErr result (self.new ≡ self.old) }
    {
        self.store.keys_differ();
        self.store.is_sound();
        let (key, place) = match self.store.movable(id, spot) {
            Ok(found) => found,
            Err(fault) => return Err(fault),
        };
        shift_node(&mut self.store, &mut self.journal, key, place);
        Ok(())
    }

    /// Sets the run flag of an attached node.
    pub fn set_run(&mut self, id: i32, on: bool) -> Result<(), TreeFault>
        requires room { HasSpare self.old.saved }
        ensures fault { fault_of result ≡ set_run_fault id self.old.now.attached }
        ensures ok { OnOk result (self.new ≡ record { now = setting id on self.old.now; saved = spent 1 self.old.saved }) }
        ensures err { OnErr result (self.new ≡ self.old) }
    {
        self.store.keys_differ();
        self.store.is_sound();
        let Some(key) = self.store.find(id) else {
            return Err(TreeFault::NoNode);
        };
        run_node(&mut self.store, &mut self.journal, key, on);
        Ok(())
    }
}

/// A new node by itself, which runs.
fn new_item(id: i32, kind: NodeKind, key: usize) -> Item
    ensures { result ≡ record { id = id; kind = kind; running = true; key = Some key } }
{
    Item {
        id,
        kind,
        running: true,
        key: Some(key),
    }
}
