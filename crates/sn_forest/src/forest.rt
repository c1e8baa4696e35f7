//! Trees of values.
ghost use Rattle.std.specs.Prelude.{◌≡◌, ◌≢◌, ℕ, ◌<◌, ◌≤◌, ◌^◌, IfOk, IfErr, OnErr, Some, None, option_copied};
ghost use Rattle.sn_forest.specs.Trees.{none, tree, count, uses, first_key, last_key, below_of, subtree, without, value_of, links_of, with_value};
ghost use Rattle.sn_forest.specs.Places.{IsPlaceIn, put, shifted, place_of};
ghost use Rattle.sn_forest.specs.Walking.{from, behind_node, behind_tree};

use crate::links::Links;
use crate::place::{Place, corner};
use crate::slot::{Slot, cut, hold, links_at, paste};
use slab::Slab;
use std::alloc::{AllocFailed, Global};
use std::marker::Model;

/// Trees of values, each node named by a key. There is always a first tree, whose top stays. A key stays with its node,
/// and is used again only after that node was removed.
#[derive(Drop)]
pub struct Forest<T> {
    slots: Slab<Slot<T>>,
    // The first tree.
    root: usize,
    // The last tree.
    end: Option<usize>,
}

impl<T> Model for Forest<T> {
    ghost use Rattle.sn_forest.specs.Trees.{Trees};
    ghost use Rattle.sn_forest.specs.Stored.{trees_code};
    ghost use Rattle.sn_forest.specs.Linked.{trees_of, IsForest};

    ghost Value = { Trees T };

    ghost coded = { trees_code T.code };

    ghost view = { λ f. trees_of f.slots.slots f.root };

    ghost invariant = { λ f. IsForest f.slots.slots f.root f.end (trees_of f.slots.slots f.root) };
}

impl<T: Drop> Forest<T> {
    /// One node.
    pub fn new(alloc: Global, value: T) -> Result<Forest<T>, AllocFailed<T>>
        ensures ok { IfOk result (λ f. (key : ℕ) × (f ≡ tree key value none none)) }
        ensures returned { IfErr result (λ failed. failed.value ≡ value) }
    {
        let mut slots = Slab::new(alloc);
        if slots.reserve(1).is_err() {
            return Err(AllocFailed { value });
        }
        let root = slots.insert_reserved(fresh(value));
        Ok(Forest {
            slots,
            root,
            end: Some(root),
        })
    }

    /// How many nodes there are.
    pub fn len(&self) -> usize
        ensures { result ≡ count self.now }
    {
        self.slots.len()
    }

    /// The key of the first tree's top.
    pub fn root(&self) -> usize
        ensures { Some result ≡ first_key self.now }
    {
        self.root
    }

    /// The key of the last tree's top.
    pub fn end(&self) -> Option<usize>
        ensures { result ≡ last_key None self.now }
    {
        self.end
    }

    /// What a node holds.
    pub fn get(&self, key: usize) -> Option<&T>
        ensures { option_copied result ≡ value_of key self.now }
    {
        match self.slots.get(key) {
            Some(slot) => Some(&slot.value),
            None => None,
        }
    }

    /// What a node is linked with.
    pub fn links(&self, key: usize) -> Option<Links>
        ensures { result ≡ links_of key self.now }
    {
        match self.slots.get(key) {
            Some(slot) => Some(slot.links),
            None => None,
        }
    }

    /// Where a node stands: just after another one, or as the first child of one.
    pub fn place(&self, key: usize) -> Place
        ensures { result ≡ place_of key self.now }
    {
        let Some(links) = self.links(key) else {
            return Place::After(key);
        };
        match links.previous {
            Some(previous) => Place::After(previous),
            None => match links.parent {
                Some(parent) => Place::First(parent),
                None => Place::After(key),
            },
        }
    }

    /// A law: no two nodes have the same key.
    pub fn keys_differ(&self)
        ensures { (key : ℕ) → uses key self.now ≤ 1 }
    {
        let _ = &self.slots;
    }

    /// A law: keys fit 32 bits.
    pub fn keys_fit(&self)
        ensures { (key : ℕ) → 1 ≤ uses key self.now → key < 2 ^ 32 }
    {
        let _ = &self.slots;
    }

    /// The node that a walk over the tree of `top` reaches after a node and all below it. A whole walk goes up each
    /// link once.
    pub fn past(&self, key: usize, top: usize) -> Option<usize>
        requires top { 1 ≤ uses top self.now }
        requires node { 1 ≤ uses key (subtree top self.now) }
        ensures { result ≡ first_key (behind_tree (from key (subtree top self.now))) }
    {
        self.keys_differ();
        let mut at = key;
        while at != top {
            let Some(links) = self.links(at) else {
                return None;
            };
            if let Some(next) = links.next {
                return Some(next);
            }
            let Some(parent) = links.parent else {
                return None;
            };
            at = parent;
        }
        None
    }

    /// The node that a walk over the tree of `top` reaches after a node.
    pub fn step(&self, key: usize, top: usize) -> Option<usize>
        requires top { 1 ≤ uses top self.now }
        requires node { 1 ≤ uses key (subtree top self.now) }
        ensures { result ≡ first_key (behind_node (from key (subtree top self.now))) }
    {
        self.keys_differ();
        let Some(links) = self.links(key) else {
            return None;
        };
        match links.first {
            Some(first) => Some(first),
            None => self.past(key, top),
        }
    }

    /// Puts a new node in at a place, and returns its key.
    pub fn insert(&mut self, place: Place, value: T) -> Result<usize, AllocFailed<T>>
        requires place { IsPlaceIn self.old place }
        ensures fresh { IfOk result (λ key. uses key self.old ≡ 0) }
        ensures ok { IfOk result (λ key. self.new ≡ put place (tree key value none none) self.old) }
        ensures err { OnErr result (self.new ≡ self.old) }
        ensures returned { IfErr result (λ failed. failed.value ≡ value) }
    {
        if self.slots.reserve(1).is_err() {
            return Err(AllocFailed { value });
        }
        if self.slots.vacant_key() > 0xffff_ffff {
            return Err(AllocFailed { value });
        }
        let key = self.slots.insert_reserved(fresh(value));
        let corner = corner(&self.slots, place);
        paste(&mut self.slots, &mut self.end, key, corner);
        Ok(key)
    }

    /// Takes a node with all below it out, and puts it in at a place. It takes no memory.
    pub fn move_to(&mut self, key: usize, place: Place)
        requires node { 1 ≤ uses key self.old }
        requires inner { first_key self.old ≢ Some key }
        requires place { IsPlaceIn (without key self.old) place }
        ensures { self.new ≡ shifted key place self.old }
    {
        let links = links_at(&self.slots, key);
        cut(&mut self.slots, &mut self.end, links);
        let corner = corner(&self.slots, place);
        paste(&mut self.slots, &mut self.end, key, corner);
    }

    /// A node holds another value.
    pub fn set(&mut self, key: usize, value: T)
        requires { 1 ≤ uses key self.old }
        ensures { self.new ≡ with_value key value self.old }
    {
        hold(&mut self.slots, key, value);
    }

    /// Removes a node that has none below it, and returns what it held.
    pub fn remove(&mut self, key: usize) -> T
        requires node { 1 ≤ uses key self.old }
        requires inner { first_key self.old ≢ Some key }
        requires leaf { below_of key self.old ≡ none }
        ensures value { value_of key self.old ≡ Some result }
        ensures rest { self.new ≡ without key self.old }
    {
        let links = links_at(&self.slots, key);
        cut(&mut self.slots, &mut self.end, links);
        let Slot { links: _, value } = self.slots.remove(key);
        value
    }
}

/// A node that is linked with nothing.
fn fresh<T>(value: T) -> Slot<T>
    ensures value { result.value ≡ value }
    ensures links { result.links ≡ record { parent = None; previous = None; next = None; first = None; last = None } }
{
    Slot {
        links: Links {
            parent: None,
            previous: None,
            next: None,
            first: None,
            last: None,
        },
        value,
    }
}
