//! Detached subtrees.
ghost use Rattle.std.specs.Prelude.{◌≡◌, Some, false, MatchOption};
ghost use Rattle.std.specs.Ordering.{int_eq};
ghost use Rattle.sn_forest.specs.Trees.{value_of, links_of};
ghost use Rattle.sn_forest.specs.Walking.{behind_tree};
ghost use Rattle.sn_tree.specs.Trees.{has_top};
ghost use Rattle.sn_tree.specs.declared.item.Item.{Item};
ghost use Rattle.sn_tree.specs.Keyed.{labels, previous_in};
ghost use Rattle.sn_tree.specs.Stored.{IsLastTop};

use crate::item::Item;
use sn_forest::Forest;

/// The node that stands just before a node.
fn previous_of(forest: &Forest<Item>, key: usize) -> Option<usize>
    ensures { result ≡ previous_in (links_of key forest.now) }
{
    match forest.links(key) {
        Some(links) => links.previous,
        None => None,
    }
}

/// Whether a node has this id.
fn has_id(forest: &Forest<Item>, key: usize, id: i32) -> bool
    ensures { (item : Item) → value_of key forest.now ≡ Some item → result ≡ int_eq item.id id }
{
    match forest.get(key) {
        Some(item) => item.id == id,
        None => false,
    }
}

/// The key of the subtree that was detached last among those with this top.
pub fn last_top(forest: &Forest<Item>, id: i32) -> Option<usize>
    ensures { MatchOption result (has_top id (labels (behind_tree forest.now)) ≡ false) (λ key. IsLastTop forest.now id key) }
{
    forest.keys_differ();
    let root = forest.root();
    let mut next = forest.end();
    while let Some(key) = next {
        if key == root {
            return None;
        }
        if has_id(forest, key, id) {
            return Some(key);
        }
        next = previous_of(forest, key);
    }
    None
}
