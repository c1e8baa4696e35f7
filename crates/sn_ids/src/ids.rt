//! From ids to keys.
ghost use Rattle.std.specs.Prelude.{◌≡◌, ◌+◌, ◌<◌, ◌≤◌, ℤ, [], None, Some, IfOk, IfErr, OnOk, length, is_some, if◌then◌else◌};
ghost use Rattle.std.specs.Ordering.{int_eq};
ghost use Rattle.sn_ids.specs.Pairs.{key_for, IsAt, IsGapFor};

use std::alloc::{AllocError, Global};
use std::marker::Model;

/// Keys under ids, in 8 bytes a pair. It is seen as its pairs by rising id, and how many of them there is room for.
#[derive(Drop)]
pub struct Ids {
    pairs: Vec<(i32, u32)>,
}

impl Model for Ids {
    ghost use Rattle.std.specs.Prelude.{vec_capacity};
    ghost use Rattle.sn_ids.specs.Pairs.{Table, IsRising};

    ghost Value = { Table };

    ghost view = { λ i. record { pairs = i.pairs.items; room = vec_capacity i.pairs } };

    ghost invariant = { λ i. IsRising i.pairs.items };
}

impl Ids {
    /// No pairs, and room for none.
    pub fn new(alloc: Global) -> Ids
        ensures { result.pairs ≡ [] }
    {
        Ids {
            pairs: Vec::new(alloc),
        }
    }

    /// How many pairs there are.
    pub fn len(&self) -> usize
        ensures { result ≡ length self.now.pairs }
    {
        self.pairs.len()
    }

    /// The key under an id.
    pub fn get(&self, id: i32) -> Option<u32>
        ensures { result ≡ key_for id self.now.pairs }
    {
        match self.search(id) {
            Ok(at) => Some(self.pairs[at].1),
            Err(_) => None,
        }
    }

    /// The key under an id, as `get` gives it. The place `near` is looked at first, and then becomes the place after the
    /// pair that was found: so ids that are asked for as they rise are found without a search. Whatever `near` is, the
    /// key is the same.
    pub fn get_near(&self, id: i32, near: &mut usize) -> Option<u32>
        ensures { result ≡ key_for id self.now.pairs }
    {
        match self.search_near(id, *near) {
            Ok(at) => {
                *near = at + 1;
                Some(self.pairs[at].1)
            }
            Err(_) => None,
        }
    }

    /// Makes room for so many more pairs.
    pub fn reserve(&mut self, additional: usize) -> Result<(), AllocError>
        ensures pairs { self.new.pairs ≡ self.old.pairs }
        ensures room { OnOk result (length self.new.pairs + additional ≤ self.new.room) }
        ensures grows { self.old.room ≤ self.new.room }
    {
        self.pairs.reserve(additional)
    }

    /// Puts a key under an id that has none. There must be room for it. It takes no memory.
    pub fn insert(&mut self, id: i32, key: u32)
        requires absent { key_for id self.old.pairs ≡ None }
        requires room { length self.old.pairs < self.old.room }
        ensures finds { (other : ℤ) → key_for other self.new.pairs ≡ (if int_eq id other then Some key else key_for other self.old.pairs) }
        ensures len { length self.new.pairs ≡ length self.old.pairs + 1 }
        ensures same_room { self.new.room ≡ self.old.room }
    {
        match self.search(id) {
            Ok(_) => unreachable!(),
            Err(at) => match self.pairs.insert(at, (id, key)) {
                Ok(()) => {}
                Err(_) => unreachable!(),
            },
        }
    }

    /// Takes the key under an id away.
    pub fn remove(&mut self, id: i32)
        ensures finds { (other : ℤ) → key_for other self.new.pairs ≡ (if int_eq id other then None else key_for other self.old.pairs) }
        ensures len { length self.new.pairs + (if is_some (key_for id self.old.pairs) then 1 else 0) ≡ length self.old.pairs }
        ensures same_room { self.new.room ≡ self.old.room }
    {
        match self.search(id) {
            Ok(at) => {
                self.pairs.remove(at);
            }
            Err(_) => {}
        }
    }

    // Where the pair of an id is, or where it would go. The place `near` is looked at first.
    fn search_near(&self, id: i32, near: usize) -> Result<usize, usize>
        ensures found { IfOk result (IsAt self.now.pairs id) }
        ensures absent { IfErr result (IsGapFor self.now.pairs id) }
    {
        if near < self.pairs.len() && self.pairs[near].0 == id {
            return Ok(near);
        }
        self.search(id)
    }

    // Where the pair of an id is, or where it would go.
    fn search(&self, id: i32) -> Result<usize, usize>
        ensures found { IfOk result (IsAt self.now.pairs id) }
        ensures absent { IfErr result (IsGapFor self.now.pairs id) }
    {
        self.pairs.binary_search_by_key(&id, |&(other, _)| other)
    }
}
