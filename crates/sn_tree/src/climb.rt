//! Whether a node is below another.
ghost use Rattle.std.specs.Prelude.{◌≡◌, ◌≤◌};
ghost use Rattle.sn_forest.specs.Trees.{uses, has_key, links_of, subtree};
ghost use Rattle.sn_tree.specs.Keyed.{parent_in};

use crate::item::Item;
use sn_forest::Forest;

/// The node that a node is just below.
fn parent_of(forest: &Forest<Item>, key: usize) -> Option<usize>
    ensures { result ≡ parent_in (links_of key forest.now) }
{
    match forest.links(key) {
        Some(links) => links.parent,
        None => None,
    }
}

/// Whether a node is in the tree of a top. It goes up from the node.
pub fn is_in_tree(forest: &Forest<Item>, key: usize, top: usize) -> bool
    requires { 1 ≤ uses key forest.now }
    ensures { result ≡ has_key key (subtree top forest.now) }
{
    forest.keys_differ();
    let mut next = Some(key);
    while let Some(at) = next {
        if at == top {
            return true;
        }
        next = parent_of(forest, at);
    }
    false
}
