//! Walks over a node and all below it.
ghost use Rattle.std.specs.Prelude.{◌≡◌, ◌≤◌, ℕ, IfOk};
ghost use Rattle.std.specs.Option.{option_map};
ghost use Rattle.sn_ports.specs.Limits.{most_nodes};
ghost use Rattle.sn_forest.specs.Trees.{none, uses, count, subtree};
ghost use Rattle.sn_forest.specs.Walking.{from, behind_node, behind_tree};
ghost use Rattle.sn_tree.specs.Trees.{first_of, running_labels};
ghost use Rattle.sn_tree.specs.Order.{Key};
ghost use Rattle.sn_tree.specs.Kept.{uses as key_uses};
ghost use Rattle.sn_tree.specs.Members.{tops};
ghost use Rattle.sn_tree.specs.Below.{top_ids};
ghost use Rattle.sn_tree.specs.Keyed.{labels, front, first_row, below_first};
ghost use Rattle.sn_tree.specs.Stored.{BeginsRunning};

use crate::item::Item;
use sn_forest::Forest;
use sn_ports::NoMemory;
use std::alloc::Global;
use std::marker::Model;

/// A node to which a walk has come.
#[derive(Clone, Copy)]
pub struct Row<'a> {
    /// The node's key.
    pub key: usize,
    /// What the node is by itself.
    pub item: &'a Item,
}

/// A walk over a node and all below it, running or not. It is seen as what is left of it, as trees beside each other,
/// of which the first begins with the node to which it has come. It takes no memory.
#[derive(Drop)]
pub struct Cursor<'a> {
    // All nodes.
    forest: &'a Forest<Item>,
    // The node with which the walk began.
    top: usize,
    // The node to which it has come.
    next: Option<usize>,
}

impl<'a> Model for Cursor<'a> {
    ghost use Rattle.std.specs.Prelude.{◌≤◌};
    ghost use Rattle.sn_forest.specs.Trees.{Trees, uses, subtree};
    ghost use Rattle.sn_tree.specs.declared.item.Item.{Item};
    ghost use Rattle.sn_tree.specs.Keyed.{left_at};
    ghost use Rattle.sn_tree.specs.Stored.{IsCursor, nodes_code};

    ghost Value = { Trees Item };

    ghost coded = { nodes_code };

    ghost view = { λ c. left_at c.next (subtree c.top c.forest.now) };

    ghost invariant = { λ c. IsCursor c.forest.now c.top c.next × (1 ≤ uses c.top c.forest.now) };
}

impl<'a> Cursor<'a> {
    /// The walk over a node and all below it.
    pub fn new(forest: &'a Forest<Item>, top: usize) -> Cursor<'a>
        requires { 1 ≤ uses top forest.now }
        ensures { result ≡ subtree top forest.now }
    {
        forest.keys_differ();
        Cursor {
            forest,
            top,
            next: Some(top),
        }
    }

    /// A walk that is at its end.
    pub fn ended(forest: &'a Forest<Item>) -> Cursor<'a>
        ensures { result ≡ none }
    {
        let top = forest.root();
        Cursor {
            forest,
            top,
            next: None,
        }
    }

    /// The walk over the first tree, from a node on.
    pub fn onward(forest: &'a Forest<Item>, key: usize) -> Cursor<'a>
        requires { 1 ≤ uses key (front forest.now) }
        ensures { result ≡ from key (front forest.now) }
    {
        forest.keys_differ();
        let top = forest.root();
        Cursor {
            forest,
            top,
            next: Some(key),
        }
    }

    /// The node to which the walk has come.
    pub fn row(&self) -> Option<Row<'a>>
        ensures { option_map (λ row. (row.key, row.item.now)) result ≡ first_row self.now }
    {
        self.forest.keys_differ();
        let Some(key) = self.next else {
            return None;
        };
        let Some(item) = self.forest.get(key) else {
            return None;
        };
        Some(Row { key, item })
    }

    /// Goes on to the next node.
    pub fn step(&mut self)
        ensures { self.new ≡ behind_node self.old }
    {
        self.forest.keys_differ();
        match self.next {
            Some(key) => self.next = self.forest.step(key, self.top),
            None => {}
        }
    }

    /// Goes on to the next node past all below this one.
    pub fn pass(&mut self)
        ensures { self.new ≡ behind_tree self.old }
    {
        self.forest.keys_differ();
        match self.next {
            Some(key) => self.next = self.forest.past(key, self.top),
            None => {}
        }
    }

    /// The walk over all that is below the node to which this one has come.
    pub fn below(&self) -> Cursor<'a>
        ensures { result ≡ below_first self.now }
    {
        self.forest.keys_differ();
        match self.next {
            Some(key) => {
                let mut below = Cursor::new(self.forest, key);
                below.step();
                below
            }
            None => Cursor::ended(self.forest),
        }
    }
}

/// Goes on to the first node that runs: a paused node is passed with all below it.
pub fn skip_paused(rest: &mut Cursor<'_>)
    ensures same { running_labels (labels rest.new) ≡ running_labels (labels rest.old) }
    ensures runs { BeginsRunning rest.new }
    ensures within { (key : Key) → key_uses key (labels rest.new) ≤ key_uses key (labels rest.old) }
{
    while let Some(row) = rest.row() {
        if row.item.running {
            return;
        }
        rest.pass();
    }
}

/// The id of the node to which a walk has come.
pub fn first_id(rest: &Cursor<'_>) -> Option<i32>
    ensures { result ≡ first_of (labels rest.now) }
{
    match rest.row() {
        Some(row) => Some(row.item.id),
        None => None,
    }
}

/// How many nodes stand beside each other.
pub fn count_tops(rest: Cursor<'_>) -> u32
    requires { count rest ≤ most_nodes }
    ensures { result ≡ tops (labels rest.entry) }
{
    let mut rest = rest;
    let mut found = 0;
    while let Some(_row) = rest.row() {
        found += 1;
        rest.pass();
    }
    found
}

/// The ids of the nodes that stand beside each other.
pub fn list_tops(alloc: Global, rest: Cursor<'_>) -> Result<Vec<i32>, NoMemory>
    ensures { IfOk result (λ found. found.items ≡ top_ids (labels rest.entry)) }
{
    let mut rest = rest;
    let mut found = Vec::new(alloc);
    while let Some(row) = rest.row() {
        found.push(row.item.id)?;
        rest.pass();
    }
    Ok(found)
}
