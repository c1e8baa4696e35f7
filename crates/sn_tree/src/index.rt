//! The ids of nodes in an index.
ghost use Rattle.std.specs.Prelude.{◌≡◌, ◌≤◌, ◌<◌, ◌+◌, ◌^◌, ℤ, ℕ, Some, None, if◌then◌else◌, length};
ghost use Rattle.std.specs.Ordering.{int_eq};
ghost use Rattle.sn_forest.specs.Trees.{uses, count, subtree, value_of};
ghost use Rattle.sn_ids.specs.Pairs.{key_for};
ghost use Rattle.sn_tree.specs.declared.item.Item.{Item};
ghost use Rattle.sn_tree.specs.Keyed.{named, noted, names, is_key, only};

use crate::item::Item;
use sn_forest::Forest;
use sn_ids::Ids;

/// Whether the id of a node is in the index under this key.
pub fn is_under(ids: &Ids, item: &Item, key: usize) -> bool
    ensures { result ≡ is_key key (key_for item.now.id ids.now.pairs) }
{
    match ids.get(item.id) {
        Some(found) => found as usize == key,
        None => false,
    }
}

/// Takes the id of a node out of the index.
fn forget(ids: &mut Ids, forest: &Forest<Item>, key: usize)
    ensures finds { (item : Item) → value_of key forest.now ≡ Some item → (other : ℤ) → key_for other ids.new.pairs ≡ (if int_eq item.id other then None else key_for other ids.old.pairs) }
    ensures len { (item : Item) → value_of key forest.now ≡ Some item → 1 ≤ noted item.id key ids.old.pairs → length ids.new.pairs + 1 ≡ length ids.old.pairs }
    ensures room { ids.new.room ≡ ids.old.room }
{
    match forest.get(key) {
        Some(item) => ids.remove(item.id),
        None => {}
    }
}

/// Takes the ids of a node and of all below it out of the index.
fn forget_all(ids: &mut Ids, forest: &Forest<Item>, top: usize)
    requires top { 1 ≤ uses top forest.now }
    requires there { (id : ℤ) (key : ℕ) → named id key (subtree top forest.now) ≤ noted id key ids.old.pairs }
    ensures gone { (id : ℤ) (key : ℕ) → noted id key ids.new.pairs + named id key (subtree top forest.now) ≡ noted id key ids.old.pairs }
    ensures len { length ids.new.pairs + count (subtree top forest.now) ≡ length ids.old.pairs }
    ensures room { ids.new.room ≡ ids.old.room }
{
    forest.keys_differ();
    let mut next = Some(top);
    while let Some(key) = next {
        forget(ids, forest, key);
        next = forest.step(key, top);
    }
}

/// Takes the ids of a node and of all below it out of the index, if it leaves the attached ones.
pub fn forget_leaving(ids: &mut Ids, forest: &Forest<Item>, top: usize, from: bool, to: bool)
    requires top { 1 ≤ uses top forest.now }
    requires there { (id : ℤ) (key : ℕ) → named id key (only from to (subtree top forest.now)) ≤ noted id key ids.old.pairs }
    ensures gone { (id : ℤ) (key : ℕ) → noted id key ids.new.pairs + named id key (only from to (subtree top forest.now)) ≡ noted id key ids.old.pairs }
    ensures len { length ids.new.pairs + count (only from to (subtree top forest.now)) ≡ length ids.old.pairs }
    ensures room { ids.new.room ≡ ids.old.room }
{
    match (from, to) {
        (true, false) => forget_all(ids, forest, top),
        (true, true) => {}
        (false, _) => {}
    }
}

/// Puts the id of a node into the index.
fn note(ids: &mut Ids, forest: &Forest<Item>, key: usize)
    requires absent { (item : Item) → value_of key forest.now ≡ Some item → key_for item.id ids.old.pairs ≡ None }
    requires room { length ids.old.pairs < ids.old.room }
    requires small { key < 2 ^ 32 }
    ensures finds { (item : Item) → value_of key forest.now ≡ Some item → (other : ℤ) → key_for other ids.new.pairs ≡ (if int_eq item.id other then Some key else key_for other ids.old.pairs) }
    ensures len { (item : Item) → value_of key forest.now ≡ Some item → length ids.new.pairs ≡ length ids.old.pairs + 1 }
    ensures room { ids.new.room ≡ ids.old.room }
{
    match forest.get(key) {
        Some(item) => ids.insert(item.id, key as u32),
        None => {}
    }
}

/// Puts the ids of a node and of all below it into the index. There must be room for them.
fn note_all(ids: &mut Ids, forest: &Forest<Item>, top: usize)
    requires top { 1 ≤ uses top forest.now }
    requires distinct { (id : ℤ) → names id (subtree top forest.now) ≤ 1 }
    requires absent { (id : ℤ) → 1 ≤ names id (subtree top forest.now) → key_for id ids.old.pairs ≡ None }
    requires room { length ids.old.pairs + count (subtree top forest.now) ≤ ids.old.room }
    ensures come { (id : ℤ) (key : ℕ) → noted id key ids.new.pairs ≡ noted id key ids.old.pairs + named id key (subtree top forest.now) }
    ensures len { length ids.new.pairs ≡ length ids.old.pairs + count (subtree top forest.now) }
    ensures room { ids.new.room ≡ ids.old.room }
{
    forest.keys_differ();
    forest.keys_fit();
    let mut next = Some(top);
    while let Some(key) = next {
        note(ids, forest, key);
        next = forest.step(key, top);
    }
}

/// Puts the ids of a node and of all below it into the index, if it comes to the attached ones.
pub fn note_coming(ids: &mut Ids, forest: &Forest<Item>, top: usize, from: bool, to: bool)
    requires top { 1 ≤ uses top forest.now }
    requires distinct { (id : ℤ) → names id (only to from (subtree top forest.now)) ≤ 1 }
    requires absent { (id : ℤ) → 1 ≤ names id (only to from (subtree top forest.now)) → key_for id ids.old.pairs ≡ None }
    requires room { length ids.old.pairs + count (only to from (subtree top forest.now)) ≤ ids.old.room }
    ensures come { (id : ℤ) (key : ℕ) → noted id key ids.new.pairs ≡ noted id key ids.old.pairs + named id key (only to from (subtree top forest.now)) }
    ensures len { length ids.new.pairs ≡ length ids.old.pairs + count (only to from (subtree top forest.now)) }
    ensures room { ids.new.room ≡ ids.old.room }
{
    match (to, from) {
        (true, false) => note_all(ids, forest, top),
        (true, true) => {}
        (false, _) => {}
    }
}
