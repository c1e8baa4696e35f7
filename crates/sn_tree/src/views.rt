//! How nodes are seen.
ghost use Rattle.std.specs.Prelude.{◌≡◌, None, if◌then◌else◌};
ghost use Rattle.sn_tree.specs.Keyed.{id_in, is_first, view_of_key};

use crate::item::Item;
use crate::node::NodeView;
use sn_forest::Forest;

/// The id of a node, or -1.
fn id_at(forest: &Forest<Item>, key: Option<usize>) -> i32
    ensures { result ≡ id_in forest.now key }
{
    let Some(key) = key else {
        return -1;
    };
    match forest.get(key) {
        Some(item) => item.id,
        None => -1,
    }
}

/// Whether a node is the first tree's top.
fn is_root(forest: &Forest<Item>, key: usize) -> bool
    ensures { result ≡ is_first forest.now key }
{
    forest.root() == key
}

/// What is seen after a node: nothing after the first tree's top.
fn after(first: bool, next: Option<usize>) -> Option<usize>
    ensures { result ≡ (if first then None else next) }
{
    if first { None } else { next }
}

/// A node as it stands among the others.
pub fn see(forest: &Forest<Item>, key: usize) -> Option<NodeView>
    ensures { result ≡ view_of_key key forest.now }
{
    let item = forest.get(key)?;
    let links = forest.links(key)?;
    let next = after(is_root(forest, key), links.next);
    Some(NodeView {
        kind: item.kind,
        running: item.running,
        parent: id_at(forest, links.parent),
        previous: id_at(forest, links.previous),
        next: id_at(forest, next),
        head: id_at(forest, links.first),
        tail: id_at(forest, links.last),
    })
}
