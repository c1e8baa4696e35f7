//! Nodes that come to the attached ones.
ghost use Rattle.std.specs.Prelude.{◌≡◌, ◌≤◌, Some, true, false, is_some, MatchOption};
ghost use Rattle.sn_forest.specs.Trees.{uses, count, subtree, value_of};
ghost use Rattle.sn_ids.specs.Pairs.{key_for};
ghost use Rattle.sn_tree.specs.declared.item.Item.{Item};
ghost use Rattle.sn_tree.specs.Keyed.{meets};

use crate::item::Item;
use sn_forest::Forest;
use sn_ids::Ids;

/// Whether the id of a node is in the index.
fn is_noted(ids: &Ids, forest: &Forest<Item>, key: usize) -> bool
    ensures { (item : Item) → value_of key forest.now ≡ Some item → result ≡ is_some (key_for item.id ids.now.pairs) }
{
    match forest.get(key) {
        Some(item) => ids.get(item.id).is_some(),
        None => false,
    }
}

/// How many nodes a subtree has, if no id of theirs is in the index.
pub fn newcomers(ids: &Ids, forest: &Forest<Item>, top: usize) -> Option<usize>
    requires { 1 ≤ uses top forest.now }
    ensures { MatchOption result (meets ids.now.pairs (subtree top forest.now) ≡ true) (λ n. (meets ids.now.pairs (subtree top forest.now) ≡ false) × (n ≡ count (subtree top forest.now))) }
{
    forest.keys_differ();
    let all = forest.len();
    let mut count = 0;
    let mut next = Some(top);
    while let Some(key) = next {
        if is_noted(ids, forest, key) {
            return None;
        }
        prove!(count < all);
        count += 1;
        next = forest.step(key, top);
    }
    Some(count)
}
