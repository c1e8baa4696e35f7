//! The nodes of a tree, and the index of the attached ones.
ghost use Rattle.std.specs.Prelude.{◌≡◌, ◌≢◌, ◌≤◌, ◌<◌, ℕ, Some, None, MatchOption, IfOk, OnErr, true, false, pos};
ghost use Rattle.std.specs.Option.{option_map, option_copied};
ghost use Rattle.sn_forest.specs.Trees.{none, tree, uses, count, has_key, first_key, last_key, below_of, subtree, without, value_of};
ghost use Rattle.sn_forest.specs.Places.{IsPlaceIn, key_of, place_of, shifted, put};
ghost use Rattle.sn_forest.specs.Walking.{behind_node, behind_tree};
ghost use Rattle.sn_tree.specs.declared.node.NodeKind.TheVariants.{Group};
ghost use Rattle.sn_tree.specs.Trees.{holds, has_top, shares, leaf, ids as node_ids, next_after, view_of, subtree as subtree_of, none as no_nodes};
ghost use Rattle.sn_tree.specs.Views.{views_below};
ghost use Rattle.sn_tree.specs.declared.item.Item.{Item};
ghost use Rattle.sn_tree.specs.Keyed.{labels, front, sides, named, names, flagged, with_behind, first_value};
ghost use Rattle.sn_tree.specs.Stored.{below_root, is_within, IsAmong, IsLastTop, IsSound};

use crate::climb::is_in_tree;
use crate::cursor::{Cursor, first_id};
use crate::index::{forget_leaving, is_under, note_coming};
use crate::item::Item;
use crate::level::raise;
use crate::meets::newcomers;
use crate::node::{NodeKind, NodeView};
use crate::reading::views_in;
use crate::rows::Rows;
use crate::tops::last_top;
use crate::views::see;
use sn_forest::{Forest, Place};
use sn_ids::Ids;
use sn_ports::NoMemory;
use std::alloc::Global;
use std::marker::Model;

/// The nodes of a tree by their keys: the root's tree has the attached ones, and the trees after it are the detached
/// ones. An index finds the attached ones by their ids.
#[derive(Drop)]
pub struct Store {
    forest: Forest<Item>,
    ids: Ids,
}

impl Model for Store {
    ghost use Rattle.sn_forest.specs.Trees.{Trees};
    ghost use Rattle.sn_tree.specs.declared.item.Item.{Item};
    ghost use Rattle.sn_tree.specs.Stored.{nodes_code, IsStored};

    ghost Value = { Trees Item };

    ghost coded = { nodes_code };

    ghost view = { λ s. s.forest };

    ghost invariant = { λ s. IsStored s.forest s.ids };
}

impl Store {
    /// The root alone, which runs.
    pub fn new(alloc: Global) -> Result<Store, NoMemory>
        ensures { IfOk result (λ s. sides s ≡ record { attached = leaf (pos 0) Group None; detached = no_nodes }) }
    {
        let root = Item {
            id: 0,
            kind: NodeKind::Group,
            running: true,
            key: None,
        };
        let forest = Forest::new(alloc, root)?;
        forest.keys_fit();
        let mut ids = Ids::new(alloc);
        ids.reserve(1)?;
        let key = forest.root();
        ids.insert(0, key as u32);
        Ok(Store { forest, ids })
    }

    /// The key of an attached node.
    pub fn find(&self, id: i32) -> Option<usize>
        ensures { MatchOption result (holds id (labels (front self.now)) ≡ false) (λ key. 1 ≤ named id key (front self.now)) }
    {
        match self.ids.get(id) {
            Some(key) => Some(key as usize),
            None => None,
        }
    }

    /// The key of an attached node, which is looked for at place `near` of the index first (`get_near` of `Ids`).
    pub fn find_near(&self, id: i32, near: &mut usize) -> Option<usize>
        ensures { MatchOption result (holds id (labels (front self.now)) ≡ false) (λ key. 1 ≤ named id key (front self.now)) }
    {
        match self.ids.get_near(id, near) {
            Some(key) => Some(key as usize),
            None => None,
        }
    }

    /// Whether no node is detached.
    fn is_whole(&self) -> bool
        ensures { result ≡ true → behind_tree self.now ≡ none }
    {
        match self.first_detached() {
            Some(_) => false,
            None => true,
        }
    }

    /// Whether a node is attached. If none is detached, nothing is looked for.
    pub fn is_attached(&self, key: usize) -> bool
        requires { 1 ≤ uses key self.now }
        ensures { result ≡ has_key key (front self.now) }
    {
        self.forest.keys_differ();
        if self.is_whole() {
            return true;
        }
        match self.forest.get(key) {
            Some(item) => is_under(&self.ids, item, key),
            None => false,
        }
    }

    /// Whether a node is below the root.
    fn is_below_root(&self, key: usize) -> bool
        requires { 1 ≤ uses key self.now }
        ensures { result ≡ has_key key (below_root self.now) }
    {
        self.forest.keys_differ();
        let root = self.forest.root();
        if key == root {
            return false;
        }
        self.is_attached(key)
    }

    /// Whether a place is among the attached nodes.
    fn is_among(&self, place: Place) -> bool
        requires { 1 ≤ uses (key_of place) self.now }
        ensures { result ≡ is_within place self.now }
    {
        match place {
            Place::First(key) => self.is_attached(key),
            Place::Last(key) => self.is_attached(key),
            Place::Before(key) => self.is_below_root(key),
            Place::After(key) => self.is_below_root(key),
        }
    }

    /// Puts a new node in at a place among the attached ones, and returns its key.
    pub fn insert(&mut self, place: Place, item: &Item) -> Result<usize, NoMemory>
        requires place { IsAmong self.old place }
        requires absent { names item.now.id (front self.old) ≡ 0 }
        ensures fresh { IfOk result (λ key. uses key self.old ≡ 0) }
        ensures ok { IfOk result (λ key. self.new ≡ put place (tree key item.now none none) self.old) }
        ensures err { OnErr result (self.new ≡ self.old) }
    {
        self.forest.keys_differ();
        let aside = self.forest.len() - self.ids.len();
        self.ids.reserve(aside + 1)?;
        let key = self.forest.insert(place, *item)?;
        self.forest.keys_fit();
        self.ids.insert(item.id, key as u32);
        Ok(key)
    }

    /// Moves a node with all below it to a place, on its side or on the other one. It takes no memory.
    pub fn shift(&mut self, key: usize, place: Place)
        requires node { 1 ≤ uses key self.old }
        requires inner { first_key self.old ≢ Some key }
        requires place { IsPlaceIn (without key self.old) place }
        requires sound { IsSound (shifted key place self.old) }
        ensures { self.new ≡ shifted key place self.old }
    {
        self.forest.keys_differ();
        let from = self.is_attached(key);
        let to = self.is_among(place);
        forget_leaving(&mut self.ids, &self.forest, key, from, to);
        self.forest.move_to(key, place);
        note_coming(&mut self.ids, &self.forest, key, from, to);
    }

    /// Removes a node that has none below it, and returns what it was.
    pub fn remove(&mut self, key: usize) -> Item
        requires node { 1 ≤ uses key self.old }
        requires inner { first_key self.old ≢ Some key }
        requires leaf { below_of key self.old ≡ none }
        ensures item { value_of key self.old ≡ Some result }
        ensures rest { self.new ≡ without key self.old }
    {
        let from = self.is_attached(key);
        self.forest.keys_differ();
        forget_leaving(&mut self.ids, &self.forest, key, from, false);
        self.forest.remove(key)
    }

    /// Pauses a node, or lets it run.
    pub fn set_run(&mut self, key: usize, on: bool)
        requires { 1 ≤ uses key self.old }
        ensures { self.new ≡ flagged key on self.old }
    {
        self.forest.keys_differ();
        match self.forest.get(key) {
            Some(item) => {
                let mut item = *item;
                item.running = on;
                self.forest.set(key, item);
            }
            None => {}
        }
    }

    /// Ends the first detached node, and returns the key under which its payload is kept. Those just below it then
    /// stand by themselves. It takes no memory.
    pub fn free(&mut self) -> Option<Option<usize>>
        ensures value { result ≡ option_map (λ i. i.key) (first_value (behind_tree self.old)) }
        ensures rest { self.new ≡ with_behind (behind_node (behind_tree self.old)) self.old }
    {
        self.forest.keys_differ();
        match self.first_detached() {
            Some(first) => {
                raise(&mut self.forest, first);
                let item = self.forest.remove(first);
                Some(item.key)
            }
            None => None,
        }
    }

    /// The key of the first detached node.
    fn first_detached(&self) -> Option<usize>
        ensures { result ≡ first_key (behind_tree self.now) }
    {
        self.forest.keys_differ();
        let root = self.forest.root();
        match self.forest.links(root) {
            Some(links) => links.next,
            None => None,
        }
    }

    /// What a node is by itself.
    pub fn item(&self, key: usize) -> Option<&Item>
        ensures { option_copied result ≡ value_of key self.now }
    {
        self.forest.get(key)
    }

    /// Whether a node runs.
    pub fn is_running(&self, key: usize) -> bool
        ensures { (item : Item) → value_of key self.now ≡ Some item → result ≡ item.running }
    {
        match self.forest.get(key) {
            Some(item) => item.running,
            None => false,
        }
    }

    /// Where a node stands.
    pub fn place(&self, key: usize) -> Place
        ensures { result ≡ place_of key self.now }
    {
        self.forest.place(key)
    }

    /// The key of the last tree's top.
    pub fn end(&self) -> usize
        ensures { last_key None self.now ≡ Some result }
    {
        match self.forest.end() {
            Some(end) => end,
            None => self.forest.root(),
        }
    }

    /// Whether a node is in the tree of a top.
    pub fn is_inside(&self, key: usize, top: usize) -> bool
        requires { 1 ≤ uses key self.now }
        ensures { result ≡ has_key key (subtree top self.now) }
    {
        is_in_tree(&self.forest, key, top)
    }

    /// The key of the subtree that was detached last among those with this top.
    pub fn last_top(&self, id: i32) -> Option<usize>
        ensures { MatchOption result (has_top id (labels (behind_tree self.now)) ≡ false) (λ key. IsLastTop self.now id key) }
    {
        last_top(&self.forest, id)
    }

    /// How many nodes a subtree has, if none of their ids is that of an attached node.
    pub fn newcomers(&self, top: usize) -> Option<usize>
        requires { 1 ≤ uses top self.now }
        ensures { MatchOption result (shares (labels (subtree top self.now)) (labels (front self.now)) ≡ true) (λ n. (shares (labels (subtree top self.now)) (labels (front self.now)) ≡ false) × (n ≡ count (subtree top self.now))) }
    {
        newcomers(&self.ids, &self.forest, top)
    }

    /// The walk over an attached node and all below it. If no such node is attached, it is at its end.
    pub fn cursor(&self, id: i32) -> Cursor<'_>
        ensures { labels result ≡ subtree_of id (labels (front self.now)) }
    {
        self.forest.keys_differ();
        match self.find(id) {
            Some(key) => Cursor::new(&self.forest, key),
            None => Cursor::ended(&self.forest),
        }
    }

    /// The node after an attached one in the order of the walk.
    pub fn next_of(&self, id: i32) -> Option<i32>
        ensures { result ≡ next_after id (node_ids (labels (front self.now))) }
    {
        self.forest.keys_differ();
        match self.find(id) {
            Some(key) => {
                let mut rest = Cursor::onward(&self.forest, key);
                rest.step();
                first_id(&rest)
            }
            None => None,
        }
    }

    /// An attached node and all below it as they stand in the tree, by their ids.
    pub fn views(&self, alloc: Global, id: i32) -> Result<Vec<(i32, NodeView)>, NoMemory>
        ensures { IfOk result (λ views. views.items ≡ views_below id (labels (front self.now))) }
    {
        self.forest.keys_differ();
        match self.find(id) {
            Some(key) => {
                let rest = Cursor::new(&self.forest, key);
                let rows = Rows::new(rest);
                views_in(alloc, &self.forest, rows)
            }
            None => Ok(Vec::new(alloc)),
        }
    }

    /// An attached node as it stands in the tree.
    pub fn node(&self, id: i32) -> Option<NodeView>
        ensures { result ≡ view_of id (labels (front self.now)) }
    {
        self.forest.keys_differ();
        match self.find(id) {
            Some(key) => see(&self.forest, key),
            None => None,
        }
    }

    /// How many nodes are attached.
    pub fn len(&self) -> usize
        ensures { result ≡ count (front self.now) }
    {
        self.ids.len()
    }

    /// A law: no two nodes have the same key.
    pub fn keys_differ(&self)
        ensures { (key : ℕ) → uses key self.now ≤ 1 }
    {
        self.forest.keys_differ();
    }

    /// A law: the root stands first, and no id is twice in one of the trees.
    pub fn is_sound(&self)
        ensures { IsSound self.now }
    {
        let _ = &self.forest;
    }
}
