//! Nodes that move up a level.
ghost use Rattle.std.specs.Prelude.{◌≡◌, Some};
ghost use Rattle.sn_forest.specs.Trees.{first_key, links_of};
ghost use Rattle.sn_forest.specs.Walking.{behind_tree};
ghost use Rattle.sn_tree.specs.Keyed.{last_in, raised, with_behind};

use crate::item::Item;
use sn_forest::{Forest, Place};

/// The key of the last node just below a node.
fn last_below(forest: &Forest<Item>, key: usize) -> Option<usize>
    ensures { result ≡ last_in (links_of key forest.now) }
{
    match forest.links(key) {
        Some(links) => links.last,
        None => None,
    }
}

/// The nodes just below the first detached one stand after it.
pub fn raise(forest: &mut Forest<Item>, first: usize)
    requires { first_key (behind_tree forest.old) ≡ Some first }
    ensures { forest.new ≡ with_behind (raised (behind_tree forest.old)) forest.old }
{
    while let Some(last) = last_below(forest, first) {
        forest.keys_differ();
        forest.move_to(last, Place::After(first));
    }
    forest.keys_differ();
}
