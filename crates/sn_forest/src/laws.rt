//! What undoes a call.
ghost use Rattle.std.specs.Prelude.{◌≡◌, ◌≢◌, ◌≤◌, Some};
ghost use Rattle.sn_forest.specs.Trees.{none, tree, uses, first_key, without, value_of, with_value};
ghost use Rattle.sn_forest.specs.Places.{IsPlaceIn, put, shifted, place_of};

use crate::forest::Forest;
use crate::place::Place;

impl<T: Drop> Forest<T> {
    /// A law: a node that has moved goes back to where it stood.
    pub fn moves_go_back(&self, key: usize, place: Place)
        requires node { 1 ≤ uses key self.now }
        requires inner { first_key self.now ≢ Some key }
        requires place { IsPlaceIn (without key self.now) place }
        ensures { shifted key (place_of key self.now) (shifted key place self.now) ≡ self.now }
    {
        self.keys_differ();
    }

    /// A law: after a new node is removed, all is as it was.
    pub fn new_nodes_go_back(&self, key: usize, place: Place, value: &T)
        requires fresh { uses key self.now ≡ 0 }
        requires place { IsPlaceIn self.now place }
        ensures { without key (put place (tree key value.now none none) self.now) ≡ self.now }
    {
        self.keys_differ();
    }

    /// A law: after a node holds again what it held, all is as it was.
    pub fn values_go_back(&self, key: usize, old: &T, value: &T)
        requires node { 1 ≤ uses key self.now }
        requires held { value_of key self.now ≡ Some old.now }
        ensures { with_value key old.now (with_value key value.now self.now) ≡ self.now }
    {
        self.keys_differ();
    }
}
